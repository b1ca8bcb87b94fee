//! The search for the first valid path of one target.

ghost use Rattle.std.specs.Prelude.{IfOk};
ghost use Rattle.cert_graph.specs.Adequate.{IsAdequate, IsTrueAnswer};
ghost use Rattle.cert_graph.specs.Nodes.{graph_of};
ghost use Rattle.cert_search.specs.Exact.{HasExactRows, IsShort};
ghost use Rattle.cert_search.specs.Found.{IsAlone};

use crate::rounds::{Found, rows_to};
use crate::walk::first_path;
use cert_graph::{Answer, Nodes, Table, least_anchor};
use std::alloc::{AllocError, Global};

/// Finds the first valid path from the target at a position, from 0, or that there is none, with
/// the table that shows it.
///
/// The only error is out of memory. The first round goes over all groups, each further one over
/// what changed in the last.
pub fn find_nodes(alloc: Global, nodes: &Nodes, target: usize) -> Result<Answer, AllocError>
    ensures adequate { IfOk result (IsAdequate (graph_of nodes.now) target) }
    ensures holds { IfOk result (IsTrueAnswer (graph_of nodes.now) target) }
    ensures exact { IfOk result (HasExactRows (graph_of nodes.now)) }
    ensures short { IfOk result (IsShort (graph_of nodes.now)) }
{
    if !nodes.is_certificate(target) {
        return Ok(Answer::NoTarget);
    }
    if nodes.is_usable(target) {
        if let Some(anchor) = least_anchor(nodes, target) {
            return alone(alloc, target, anchor);
        }
    }
    match rows_to(alloc, nodes, target)? {
        Found::Opening(steps) => first_path(alloc, nodes, target, steps),
        Found::Standing(row) => Ok(Answer::NoPath {
            table: Table::Row(row),
        }),
    }
}

/// Returns the path of the target alone.
fn alone(alloc: Global, target: usize, anchor: usize) -> Result<Answer, AllocError>
    ensures { IfOk result (IsAlone target anchor) }
{
    let mut positions = Vec::with_capacity(alloc, 1)?;
    positions.push(target)?;
    Ok(Answer::Path {
        positions,
        anchor,
        table: Table::Rows {
            width: 0,
            steps: Vec::new(alloc),
        },
    })
}
