//! The check of one answer: inequalities over its table, and no search.
//!
//! A path needs rows that no shorter path could have; that there is none needs a row that is closed
//! under all links.

ghost use Rattle.std.specs.Prelude.{◌↔◌, [], ◌∷◌, length, map, replicate, IsTrue, IfOk};
ghost use Rattle.cert_graph.specs.declared.reach.Reach.TheVariants.{No};
ghost use Rattle.cert_graph.specs.Adequate.{rows_of, IsAdequatePath, IsAdequateNone, IsAdequate, IsTrueAnswer, rows_by};
ghost use Rattle.cert_graph.specs.Nodes.{graph_of};

use crate::changes::{make, row_of_none, steps_of};
use crate::check_all::is_shown_path;
use crate::rows::{follows_row, holds_each_limit};
use crate::standing::is_table;
use crate::tables::is_closed;
use crate::{Answer, Change, Nodes, Reach, Table, lookup_of};
use std::alloc::{AllocError, Global};

/// Whether a path is adequate by the rows of a width that come of some changes.
fn is_path_by(
    alloc: Global,
    nodes: &Nodes,
    target: usize,
    positions: &[usize],
    anchor: usize,
    width: usize,
    steps: &[Vec<Change>],
) -> Result<bool, AllocError>
    ensures { IfOk result (λ yes. IsTrue yes ↔ IsAdequatePath (graph_of nodes.now) target positions.now anchor (rows_by (replicate width No) (map (λ s. s.items) steps.now))) }
{
    if positions.len() != steps.len() + 1 {
        return Ok(false);
    }
    if !steps.is_empty() && width != nodes.items.len() {
        return Ok(false);
    }
    if !is_table(alloc, nodes, steps)? {
        return Ok(false);
    }
    let lookup = lookup_of(alloc, nodes, steps)?;
    Ok(is_shown_path(nodes, &lookup, target, positions, anchor))
}

/// Whether a path is adequate by a table.
fn is_adequate_path(
    alloc: Global,
    nodes: &Nodes,
    target: usize,
    positions: &[usize],
    anchor: usize,
    table: &Table,
) -> Result<bool, AllocError>
    ensures { IfOk result (λ yes. IsTrue yes ↔ IsAdequatePath (graph_of nodes.now) target positions.now anchor (rows_of table.now)) }
{
    match table {
        Table::Row(row) => {
            let steps = steps_of(alloc, row)?;
            is_path_by(alloc, nodes, target, positions, anchor, row.len(), &steps)
        }
        Table::Rows { width, steps } => {
            is_path_by(alloc, nodes, target, positions, anchor, *width, steps)
        }
    }
}

/// Whether one row shows that there is no path.
fn is_none_by(nodes: &Nodes, target: usize, row: &[Reach]) -> bool
    ensures { IsTrue result ↔ IsAdequateNone (graph_of nodes.now) target (row.now ∷ []) }
{
    if !nodes.is_certificate(target) {
        return false;
    }
    if row.len() != nodes.items.len() {
        return false;
    }
    if !holds_each_limit(nodes, row) {
        return false;
    }
    if !follows_row(nodes, row, row) {
        return false;
    }
    is_closed(nodes, row, target)
}

/// Whether a table shows that there is no path.
fn is_adequate_none(
    alloc: Global,
    nodes: &Nodes,
    target: usize,
    table: &Table,
) -> Result<bool, AllocError>
    ensures { IfOk result (λ yes. IsTrue yes ↔ IsAdequateNone (graph_of nodes.now) target (rows_of table.now)) }
{
    match table {
        Table::Row(row) => Ok(is_none_by(nodes, target, row)),
        Table::Rows { width, steps } => {
            if steps.len() != 1 {
                return Ok(false);
            }
            let mut row = row_of_none(alloc, *width)?;
            make(&mut row, &steps[0]);
            Ok(is_none_by(nodes, target, &row))
        }
    }
}

/// Returns whether an answer on the target at a position is adequate: whether its table shows by
/// inequalities that it is true. A position past the items, an anchor that doesn't exist, or rows
/// of a wrong length or number give `Ok(false)`.
///
/// The only error is out of memory. Holds two rows at a time, whatever the number of rows, and goes
/// over what changes from row to row.
pub fn check_nodes(
    alloc: Global,
    nodes: &Nodes,
    target: usize,
    answer: &Answer,
) -> Result<bool, AllocError>
    ensures exact { IfOk result (λ yes. IsTrue yes ↔ IsAdequate (graph_of nodes.now) target answer.now) }
    ensures holds { IfOk result (λ yes. IsTrue yes → IsTrueAnswer (graph_of nodes.now) target answer.now) }
{
    match answer {
        Answer::Path {
            positions,
            anchor,
            table,
        } => is_adequate_path(alloc, nodes, target, positions, *anchor, table),
        Answer::NoPath { table } => is_adequate_none(alloc, nodes, target, table),
        Answer::NoTarget => Ok(!nodes.is_certificate(target)),
    }
}
