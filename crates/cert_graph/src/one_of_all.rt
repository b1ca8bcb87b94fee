//! One item's answer out of an inventory, with a table of its own.

ghost use Rattle.std.specs.Prelude.{IfOk};
ghost use Rattle.cert_graph.specs.Adequate.{IsAdequate};
ghost use Rattle.cert_graph.specs.Inventory.{IsAdequateInventory};
ghost use Rattle.cert_graph.specs.Nodes.{graph_of};

use crate::changes::{copied, last_row};
use crate::{Answer, Inventory, Nodes, Table, Verdict};
use std::alloc::{AllocError, Global};

/// Returns what an inventory says of one item, as an answer with a table of its own that
/// `check_nodes` accepts. A path gets as many of the inventory's rows as it has issuers, an item
/// without a path the last row. A position past the items gets `NoTarget`.
///
/// The only error is out of memory. Copies the path and the changes of its rows, or makes the last
/// row.
pub fn answer_of(
    alloc: Global,
    nodes: &Nodes,
    inventory: &Inventory,
    target: usize,
) -> Result<Answer, AllocError>
    requires { IsAdequateInventory (graph_of nodes.now) inventory.now }
    ensures { IfOk result (IsAdequate (graph_of nodes.now) target) }
{
    if target >= inventory.verdicts.len() {
        return Ok(Answer::NoTarget);
    }
    match &inventory.verdicts[target] {
        Verdict::FirstPath { positions, anchor } => {
            let steps = copied(alloc, &inventory.steps[..positions.len() - 1])?;
            let positions = Vec::from_slice(alloc, positions)?;
            Ok(Answer::Path {
                positions,
                anchor: *anchor,
                table: Table::Rows {
                    width: nodes.items.len(),
                    steps,
                },
            })
        }
        Verdict::Pathless => {
            let row = last_row(alloc, nodes.items.len(), &inventory.steps)?;
            Ok(Answer::NoPath {
                table: Table::Row(row),
            })
        }
        Verdict::NoCertificate => Ok(Answer::NoTarget),
    }
}
