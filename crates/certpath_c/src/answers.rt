//! Answers on paths, as numbers.

ghost use Rattle.std.specs.Prelude.{◌≡◌, ◌++◌, [], ◌∷◌, map, IfOk, OnOk};
ghost use Rattle.std.specs.List.{AllByRecursion};
ghost use Rattle.cert_graph.specs.Adequate.{rows_of};
ghost use Rattle.certpath_c.specs.Answers.{reach_number, FitsReach, FitsRow, FitsAnswer, rows_entries, outcome_number, positions_of, anchor_of, answer_entries, IsRowOf};

use cert_graph::{Answer, Reach, Table, rows_of};
use std::alloc::{AllocError, Global};

/// What is said of a target, without its positions and its table.
#[repr(C)]
#[derive(Clone, Copy, Debug)]
pub struct AnswerRow {
    pub outcome: u32,
    pub length: usize,
    pub anchor: usize,
    pub entries: usize,
}

fn reach_number(reach: Reach) -> u64
    ensures number { result ≡ reach_number reach }
    ensures fits { FitsReach reach }
{
    match reach {
        Reach::No => 0,
        Reach::UpTo(n) => u64::from(n) + 1,
        Reach::Any => u64::MAX,
    }
}

fn push_row(entries: &mut Vec<u64>, row: &[Reach]) -> Result<(), AllocError>
    ensures pushed { OnOk result (entries.new.items ≡ entries.old.items ++ map reach_number row.now) }
    ensures fits { OnOk result (AllByRecursion FitsReach row.now) }
{
    for reach in row {
        entries.push(reach_number(*reach))?;
    }
    Ok(())
}

/// Adds the entries of a row.
fn push_of(entries: &mut Vec<u64>, row: &Vec<Reach>) -> Result<(), AllocError>
    ensures pushed { OnOk result (entries.new.items ≡ entries.old.items ++ map reach_number row.now.items) }
    ensures fits { OnOk result (FitsRow row.now.items) }
{
    push_row(entries, row)
}

/// The entries of rows, one row after another.
fn entries_in(alloc: Global, rows: &[Vec<Reach>]) -> Result<Vec<u64>, AllocError>
    ensures entries { IfOk result (λ entries. entries.items ≡ rows_entries (map (λ r. r.items) rows.now)) }
    ensures fit { OnOk result (AllByRecursion FitsRow (map (λ r. r.items) rows.now)) }
{
    let mut entries = Vec::new(alloc);
    for row in rows {
        push_of(&mut entries, row)?;
    }
    Ok(entries)
}

/// The entries of one row.
fn entries_of_one(alloc: Global, row: &[Reach]) -> Result<Vec<u64>, AllocError>
    ensures entries { IfOk result (λ entries. entries.items ≡ rows_entries (row.now ∷ [])) }
    ensures fit { OnOk result (AllByRecursion FitsRow (row.now ∷ [])) }
{
    let mut entries = Vec::new(alloc);
    push_row(&mut entries, row)?;
    Ok(entries)
}

/// The entries of a table, one row after another.
fn table_entries(alloc: Global, table: &Table) -> Result<Vec<u64>, AllocError>
    ensures entries { IfOk result (λ entries. entries.items ≡ rows_entries (rows_of table.now)) }
    ensures fit { OnOk result (AllByRecursion FitsRow (rows_of table.now)) }
{
    match table {
        Table::Row(row) => entries_of_one(alloc, row),
        Table::Rows { width, steps } => {
            let rows = rows_of(alloc, *width, steps)?;
            entries_in(alloc, &rows)
        }
    }
}

/// The entries of an answer's table.
pub(crate) fn entries_of(alloc: Global, answer: &Answer) -> Result<Vec<u64>, AllocError>
    ensures entries { IfOk result (λ entries. entries.items ≡ answer_entries answer.now) }
    ensures fits { OnOk result (FitsAnswer answer.now) }
{
    match answer {
        Answer::Path { table, .. } => table_entries(alloc, table),
        Answer::NoPath { table } => table_entries(alloc, table),
        Answer::NoTarget => Ok(Vec::new(alloc)),
    }
}

/// The positions of a path, and none of another answer.
pub(crate) fn positions_of(answer: &Answer) -> &[usize]
    ensures { result.now ≡ positions_of answer.now }
{
    match answer {
        Answer::Path { positions, .. } => positions,
        _ => &[],
    }
}

fn anchor_of(answer: &Answer) -> usize
    ensures { result ≡ anchor_of answer.now }
{
    match answer {
        Answer::Path { anchor, .. } => *anchor,
        _ => 0,
    }
}

fn outcome_number(answer: &Answer) -> u32
    ensures { result ≡ outcome_number answer.now }
{
    match answer {
        Answer::Path { .. } => 0,
        Answer::NoPath { .. } => 1,
        Answer::NoTarget => 2,
    }
}

/// The row of an answer whose table has so many entries.
pub(crate) fn row_of(answer: &Answer, entries: &[u64]) -> AnswerRow
    requires { entries.now ≡ answer_entries answer.now }
    ensures { IsRowOf answer.now result }
{
    AnswerRow {
        outcome: outcome_number(answer),
        length: positions_of(answer).len(),
        anchor: anchor_of(answer),
        entries: entries.len(),
    }
}
