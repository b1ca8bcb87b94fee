//! Finds and checks paths in graphs of a size: words `layered N`, `equal N`, `chain N` or `apart N`, any number of them.
//! After the word `timed` it also prints how long each call took; after the word `all` every item is a target.
#![tactic(auto)]

ghost use Rattle.std.specs.Prelude.{◌≡◌, length, IfOk};

mod graphs;

use anyhow::{Context, Result, bail};
use cert_graph::{Answer, Inventory, Nodes, Table, Verdict, check_all_nodes, check_nodes};
use cert_search::{find_all_nodes, find_nodes};
use std::env;
use std::rt::Clock;
use std::time::Instant;

fn main(rt: HostRuntime) -> Result<()> {
    let mut kind = None;
    let mut timed = false;
    let mut all = false;
    for word in env::args(&rt)?.skip(1) {
        let Some(name) = kind.take() else {
            match word.as_str() {
                "timed" => timed = true,
                "all" => all = true,
                _ => kind = Some(word),
            }
            continue;
        };
        let count = word
            .parse::<usize>()
            .context(format_args!("reading {word:?}"))?;
        if all {
            run_all(&rt, name.as_str(), count, timed)?;
        } else {
            run(&rt, name.as_str(), count, timed)?;
        }
    }
    Ok(())
}

fn run(
    rt: &(impl Print + AllocGlobal + Clock),
    kind: &str,
    count: usize,
    timed: bool,
) -> Result<()> {
    let nodes = graph_of_kind(rt, kind, count)?;
    let start = Instant::now(rt)?;
    let answer = find_nodes(rt.alloc(), &nodes, 0)?;
    let found = start.elapsed(rt)?;
    let start = Instant::now(rt)?;
    let checked = check_nodes(rt.alloc(), &nodes, 0, &answer)?;
    let check = start.elapsed(rt)?;
    let (certificates, rows) = match &answer {
        Answer::Path {
            positions,
            table,
            ..
        } => (positions.len(), rows_in(table)),
        Answer::NoPath { table } => (0, rows_in(table)),
        Answer::NoTarget => (0, 0),
    };
    println!(rt; "{kind} {count}: path of {certificates}, {rows} rows, check {checked}")?;
    if timed {
        let found = found.as_micros();
        let check = check.as_micros();
        println!(rt; "find {found} us, check {check} us")?;
    }
    Ok(())
}

/// How many rows a table has.
fn rows_in(table: &Table) -> usize {
    match table {
        Table::Row(_) => 1,
        Table::Rows { steps, .. } => steps.len(),
    }
}

fn run_all(
    rt: &(impl Print + AllocGlobal + Clock),
    kind: &str,
    count: usize,
    timed: bool,
) -> Result<()> {
    let nodes = graph_of_kind(rt, kind, count)?;
    let start = Instant::now(rt)?;
    let inventory = find_all_nodes(rt.alloc(), &nodes)?;
    let found = start.elapsed(rt)?;
    let start = Instant::now(rt)?;
    let checked = check_all_nodes(rt.alloc(), &nodes, &inventory)?;
    let check = start.elapsed(rt)?;
    let (paths, certificates) = size_of(&inventory);
    let rows = inventory.steps.len();
    println!(rt;
        "{kind} {count}: {paths} paths of {certificates} in all, {rows} rows, check {checked}"
    )?;
    if timed {
        let found = found.as_micros();
        let check = check.as_micros();
        println!(rt; "find {found} us, check {check} us")?;
    }
    Ok(())
}

/// How many paths there are, and how many certificates on all of them.
fn size_of(inventory: &Inventory) -> (usize, usize) {
    let mut paths = 0usize;
    let mut certificates = 0usize;
    for verdict in &inventory.verdicts {
        if let Verdict::FirstPath { positions, .. } = verdict {
            paths = paths.saturating_add(1);
            certificates = certificates.saturating_add(positions.len());
        }
    }
    (paths, certificates)
}

fn graph_of_kind(rt: &impl AllocGlobal, kind: &str, count: usize) -> Result<Nodes>
    ensures { IfOk result (λ nodes. length nodes.items.items ≡ count) }
{
    let nodes = match kind {
        "layered" => graphs::layered(rt.alloc(), count)?,
        "equal" => graphs::equal(rt.alloc(), count)?,
        "chain" => graphs::chain(rt.alloc(), count)?,
        "apart" => graphs::apart(rt.alloc(), count)?,
        _ => bail!("no graph is named {kind}"),
    };
    Ok(nodes)
}
