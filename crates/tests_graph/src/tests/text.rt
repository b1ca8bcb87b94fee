//! Graphs and answers, read from text.
//!
//! A graph is the number of its groups, then items and anchors: `3: leaf 0>1; issuer 1>2 0; anchor 2`. Of an item: its
//! kind, the groups that it is in, the groups that it is linked to, and its path length constraint, if any; so many
//! equal ones are `equal 300 leaf 0>1`. Of an anchor stands its group. Numbers have a comma between two, and `-` is none.
//!
//! An answer is `0,1 to 0 / - 0`, the positions of a path, its anchor and each row of the table after a `/`; or
//! `none / - -`; or `no target`. A reach is `-`, the greatest count that it takes, or `any`.

ghost use Rattle.std.specs.Prelude.{◌≡◌, ◌↔◌, length, All, IsTrue};

use cert_graph::{Answer, Entry, Node, Nodes, Reach, Table, rows_of, steps_of_rows};
use std::alloc::Global;
use std::test::Fail;

fn numbers(alloc: Global, text: &str) -> Result<Vec<usize>, Fail> {
    let mut numbers = Vec::new(alloc);
    if text == "-" {
        return Ok(numbers);
    }
    for number in text.split(',') {
        numbers.push(number.parse::<usize>()?)?;
    }
    Ok(numbers)
}

// Whether a certificate may stand in a path, whether it may issue others, and whether it is self-issued.
fn certificate(usable: bool, fit: bool, self_issued: bool, limit: Option<u32>) -> Node
    requires { IsTrue fit → IsTrue usable }
{
    Node {
        certificate: true,
        usable,
        fit,
        self_issued,
        limit,
    }
}

/// The node of a kind of item.
pub fn node(kind: &str, limit: Option<u32>) -> Result<Node, Fail> {
    match kind {
        "leaf" => Ok(certificate(true, false, false, limit)),
        "root" => Ok(certificate(true, false, true, limit)),
        "issuer" => Ok(certificate(true, true, false, limit)),
        "self-issued" => Ok(certificate(true, true, true, limit)),
        // a root that is not valid at the moment
        "late" => Ok(certificate(false, false, true, limit)),
        // no certificate
        "other" => Ok(Node {
            certificate: false,
            usable: false,
            fit: false,
            self_issued: false,
            limit,
        }),
        _ => Err(Fail::from("no kind of item")),
    }
}

fn entry(alloc: Global, kind: &str, text: &str) -> Result<Entry, Fail> {
    let (place, limit) = match text.split_once(' ') {
        Some((place, limit)) => (place, Some(limit.parse::<u32>()?)),
        None => (text, None),
    };
    let (groups, links) = place.split_once('>').ok_or("no links")?;
    Ok(Entry {
        node: node(kind, limit)?,
        groups: numbers(alloc, groups)?,
        links: numbers(alloc, links)?,
    })
}

// Adds so many equal items.
fn push_equal(alloc: Global, entries: &mut Vec<Entry>, text: &str) -> Result<(), Fail> {
    let (count, item) = text.split_once(' ').ok_or("no count")?;
    let (kind, text) = item.split_once(' ').ok_or("no item")?;
    for _ in 0..count.parse::<usize>()? {
        entries.push(entry(alloc, kind, text)?)?;
    }
    Ok(())
}

// Adds an item, equal ones, or an anchor.
fn push_part(
    alloc: Global,
    entries: &mut Vec<Entry>,
    anchors: &mut Vec<Option<usize>>,
    part: &str,
) -> Result<(), Fail> {
    let (kind, text) = part.split_once(' ').ok_or("no item")?;
    match kind {
        "anchor" => anchors.push(numbers(alloc, text)?.first().copied())?,
        "equal" => push_equal(alloc, entries, text)?,
        _ => entries.push(entry(alloc, kind, text)?)?,
    }
    Ok(())
}

/// The graph of the text.
pub fn graph(alloc: Global, text: &str) -> Result<Nodes, Fail> {
    let (groups, parts) = text.split_once(": ").unwrap_or((text, ""));
    let mut entries = Vec::new(alloc);
    let mut anchors = Vec::new(alloc);
    for part in parts.split_terminator("; ") {
        push_part(alloc, &mut entries, &mut anchors, part)?;
    }
    let groups = groups.parse::<usize>()?;
    Ok(Nodes::new(alloc, &entries, &anchors, groups)?)
}

fn reach(word: &str) -> Result<Reach, Fail> {
    match word {
        "-" => Ok(Reach::No),
        "any" => Ok(Reach::Any),
        _ => Ok(Reach::UpTo(word.parse::<u32>()?)),
    }
}

fn row(alloc: Global, text: &str) -> Result<Vec<Reach>, Fail> {
    let mut row = Vec::new(alloc);
    for word in text.split_whitespace() {
        row.push(reach(word)?)?;
    }
    Ok(row)
}

fn are_wide(rows: &[Vec<Reach>], width: usize) -> bool
    ensures { IsTrue result ↔ All (λ r. length r.items ≡ width) rows.now }
{
    rows.iter().all(|row| row.len() == width)
}

// One row by itself, or rows of one length as changes.
fn table(alloc: Global, mut rows: Vec<Vec<Reach>>) -> Result<Table, Fail> {
    if rows.len() == 1 {
        return Ok(Table::Row(rows.pop().ok_or("no row")?));
    }
    let width = match rows.first() {
        Some(row) => row.len(),
        None => 0,
    };
    if !are_wide(&rows, width) {
        return Err(Fail::from("rows of different lengths"));
    }
    let steps = steps_of_rows(alloc, width, &rows)?;
    Ok(Table::Rows { width, steps })
}

fn rows(alloc: Global, table: &Table) -> Result<String, Fail> {
    match table {
        Table::Row(row) => Ok(format!(in alloc; "[{row:?}]")?),
        Table::Rows { width, steps } => {
            let rows = rows_of(alloc, *width, steps)?;
            Ok(format!(in alloc; "{rows:?}")?)
        }
    }
}

/// An answer with the rows of its table.
pub fn told(alloc: Global, answer: &Answer) -> Result<String, Fail> {
    match answer {
        Answer::Path {
            positions,
            anchor,
            table,
        } => {
            let rows = rows(alloc, table)?;
            Ok(format!(in alloc; "path {positions:?} to {anchor} by {rows}")?)
        }
        Answer::NoPath { table } => {
            let rows = rows(alloc, table)?;
            Ok(format!(in alloc; "no path by {rows}")?)
        }
        Answer::NoTarget => Ok(String::from_str(alloc, "no target")?),
    }
}

/// The answer of the text.
pub fn answer(alloc: Global, text: &str) -> Result<Answer, Fail> {
    let mut parts = text.split('/');
    let told = parts.next().unwrap_or("").trim_end();
    let mut rows = Vec::new(alloc);
    for part in parts {
        rows.push(row(alloc, part)?)?;
    }
    let table = table(alloc, rows)?;
    match told {
        "no target" => Ok(Answer::NoTarget),
        "none" => Ok(Answer::NoPath { table }),
        _ => {
            let (positions, anchor) = told.split_once(" to ").ok_or("no anchor")?;
            Ok(Answer::Path {
                positions: numbers(alloc, positions)?,
                anchor: anchor.parse::<usize>()?,
                table,
            })
        }
    }
}
