//! Answers on paths, from numbers.

ghost use Rattle.std.specs.Prelude.{◌≡◌, ◌⊎◌, ◌↔◌, ◌<◌, map, length, IsTrue, IfOk, IfSome, IfNone};
ghost use Rattle.std.specs.List.{AllByRecursion};
ghost use Rattle.certpath_c.specs.Answers.{reach_number, FitsReach, IsNoReach, AreNoRow, AreNoRows, AreNoAnswer, IsTableOf, IsPathOf, IsAnswerOf};

use crate::answers::AnswerRow;
use cert_graph::{Answer, Reach, Table, steps_of_rows};
use std::alloc::{AllocError, Global};

/// The reach of a number; none if it stands for none.
fn reach_of(number: u64) -> Option<Reach>
    ensures found { IfSome result (λ r. (reach_number r ≡ number) × FitsReach r) }
    ensures none { IfNone result (IsNoReach number) }
{
    if number == 0 {
        return Some(Reach::No);
    }
    if number == u64::MAX {
        return Some(Reach::Any);
    }
    match u32::try_from(number - 1) {
        Ok(count) => Some(Reach::UpTo(count)),
        Err(_) => None,
    }
}

/// The reaches of a row.
fn reaches_of(alloc: Global, entries: &[u64]) -> Result<Option<Vec<Reach>>, AllocError>
    ensures found { IfOk result (λ o. IfSome o (λ row. (map reach_number row.items ≡ entries.now) × AllByRecursion FitsReach row.items)) }
    ensures none { IfOk result (λ o. IfNone o (AreNoRow entries.now)) }
{
    let mut row = Vec::new(alloc);
    for entry in entries {
        let Some(reach) = reach_of(*entry) else {
            return Ok(None);
        };
        row.push(reach)?;
    }
    Ok(Some(row))
}

/// Whether there are fewer entries than a row has, or rows have none.
fn is_short(entries: &[u64], width: usize) -> bool
    ensures { IsTrue result ↔ ((width ≡ 0) ⊎ (length entries.now < width)) }
{
    width == 0 || entries.len() < width
}

/// The table of entries; none if they aren't whole rows of this width.
fn table_of(alloc: Global, entries: &[u64], width: usize) -> Result<Option<Table>, AllocError>
    ensures found { IfOk result (λ o. IfSome o (IsTableOf width entries.now)) }
    ensures none { IfOk result (λ o. IfNone o (AreNoRows width entries.now)) }
{
    let mut rows = Vec::new(alloc);
    let mut rest = entries;
    while !rest.is_empty() {
        if is_short(rest, width) {
            return Ok(None);
        }
        let (front, others) = rest.split_at(width);
        let Some(row) = reaches_of(alloc, front)? else {
            return Ok(None);
        };
        rows.push(row)?;
        rest = others;
    }
    let steps = steps_of_rows(alloc, width, &rows)?;
    Ok(Some(Table::Rows { width, steps }))
}

fn path_of(
    alloc: Global,
    positions: &[usize],
    anchor: usize,
    table: Table,
) -> Result<Answer, AllocError>
    ensures { IfOk result (IsPathOf positions.now anchor table) }
{
    let positions = Vec::from_slice(alloc, positions)?;
    Ok(Answer::Path {
        positions,
        anchor,
        table,
    })
}

/// The answer of a row, positions and entries; none if they aren't one.
pub(crate) fn given_answer(
    alloc: Global,
    row: &AnswerRow,
    positions: &[usize],
    entries: &[u64],
    width: usize,
) -> Result<Option<Answer>, AllocError>
    ensures found { IfOk result (λ o. IfSome o (IsAnswerOf width row.now positions.now entries.now)) }
    ensures none { IfOk result (λ o. IfNone o (AreNoAnswer width row.now positions.now entries.now)) }
{
    if row.length != positions.len() || row.entries != entries.len() {
        return Ok(None);
    }
    let Some(table) = table_of(alloc, entries, width)? else {
        return Ok(None);
    };
    if row.outcome == 0 {
        let path = path_of(alloc, positions, row.anchor, table)?;
        return Ok(Some(path));
    }
    if row.anchor != 0 || !positions.is_empty() {
        return Ok(None);
    }
    if row.outcome == 1 {
        Ok(Some(Answer::NoPath { table }))
    } else if row.outcome == 2 && entries.is_empty() {
        Ok(Some(Answer::NoTarget))
    } else {
        Ok(None)
    }
}
