//! The search for the first valid path of each item.

ghost use Rattle.std.specs.Prelude.{◌≤◌, max, length, All, IfOk};
ghost use Rattle.cert_graph.specs.Inventory.{shared_rows, IsAdequateInventory, IsTrueInventory};
ghost use Rattle.cert_graph.specs.Nodes.{graph_of};
ghost use Rattle.cert_search.specs.Inventory.{HasExactTable, IsShortVerdict};

use crate::all_rows::all_rows;
use crate::verdicts::verdict_of;
use cert_graph::{Inventory, Nodes, lookup_of};
use std::alloc::{AllocError, Global};

/// Finds the first valid path from each item, or that there is none, with one table that shows it
/// for all of them.
///
/// The rows are raised once, however many items there are. The only error is out of memory.
pub fn find_all_nodes(alloc: Global, nodes: &Nodes) -> Result<Inventory, AllocError>
    ensures adequate { IfOk result (IsAdequateInventory (graph_of nodes.now)) }
    ensures holds { IfOk result (IsTrueInventory (graph_of nodes.now)) }
    ensures exact { IfOk result (λ inventory. HasExactTable (graph_of nodes.now) (shared_rows (graph_of nodes.now) inventory)) }
    ensures short { IfOk result (λ inventory. All (IsShortVerdict (graph_of nodes.now)) inventory.verdicts.items) }
    // at least one row, and no more rows than items if there are items
    ensures bounded { IfOk result (λ inventory. (1 ≤ length inventory.steps.items) × (length inventory.steps.items ≤ max 1 (graph_of nodes.now).items)) }
{
    let steps = all_rows(alloc, nodes)?;
    let lookup = lookup_of(alloc, nodes, &steps)?;
    let mut verdicts = Vec::with_capacity(alloc, nodes.items.len())?;
    for target in 0..nodes.items.len() {
        verdicts.push(verdict_of(alloc, nodes, &lookup, &steps, target)?)?;
    }
    Ok(Inventory { steps, verdicts })
}
