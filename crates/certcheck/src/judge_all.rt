//! Whether an inventory of verdicts on all items is true.

ghost use Rattle.std.specs.Prelude.{◌↔◌, ℕ, List, IsTrue, IfOk};
ghost use Rattle.cert_graph.specs.Inventory.{IsAdequateInventory, IsTrueInventory};
ghost use Rattle.cert_judge.specs.Classed.{AreClassed};
ghost use Rattle.cert_judge.specs.Items.{rules_by};
ghost use Rattle.cert_judge.specs.ItemGraph.{graph_of_items};
ghost use Rattle.cert_judge.specs.Revoking.{Item};

use crate::reading::TreeReader;
use asn1_core::OutOfMemory;
use cert_framing::Items;
use cert_graph::{Inventory, check_all_nodes};
use cert_judge::{Policy, Vouch, judged_items, nodes_by};
use std::alloc::Global;

/// Whether an inventory is adequate: whether its one table shows by inequalities that its verdict on
/// each item is true of these items and anchors, by what is vouched for and under this policy (RFC 5280,
/// 6.1 and 6.3). It is `check` for all items at once, and no search: items and anchors are read by
/// `TreeReader`, once each.
///
/// One verdict too many or too few, positions out of range and rows that don't follow each other give
/// `false`. The only error is out of memory. It costs the reading of the items, what `nodes_by` of
/// `cert_judge` says, and what `check_all_nodes` of `cert_graph` says; beside the octets of the items it
/// keeps about as much again.
pub fn check_all<'a, V: Vouch>(
    alloc: Global,
    items: &'a Items,
    anchors: &'a Items,
    vouch: &V,
    policy: &Policy,
    inventory: &Inventory,
) -> Result<bool, OutOfMemory>
    ensures exact { IfOk result (λ yes. (classed classed_anchors : List Item) × AreClassed items.now.items classed × AreClassed anchors.now.items classed_anchors
        × (IsTrue yes ↔ IsAdequateInventory (graph_of_items (rules_by policy.now.moment policy.now.demand_lists (V.vouches_for vouch.now)) classed classed_anchors) inventory.now)) }
    ensures holds { IfOk result (λ yes. (classed classed_anchors : List Item) × AreClassed items.now.items classed × AreClassed anchors.now.items classed_anchors
        × (IsTrue yes → IsTrueInventory (graph_of_items (rules_by policy.now.moment policy.now.demand_lists (V.vouches_for vouch.now)) classed classed_anchors) inventory.now)) }
{
    let moment = policy.moment();
    let items = judged_items::<TreeReader>(alloc, items, &moment)?;
    let anchors = judged_items::<TreeReader>(alloc, anchors, &moment)?;
    let nodes = nodes_by(alloc, &items, &anchors, vouch, policy.demands_lists())?;
    let yes = check_all_nodes(alloc, &nodes, inventory)?;
    Ok(yes)
}
