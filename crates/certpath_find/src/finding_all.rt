//! The first of the shortest valid paths from each item at once.

ghost use Rattle.std.specs.Prelude.{◌≤◌, max, length, All, List, IfOk};
ghost use Rattle.cert_graph.specs.Inventory.{shared_rows, IsAdequateInventory, IsTrueInventory};
ghost use Rattle.cert_model.specs.Fields.{CivilTime};
ghost use Rattle.cert_judge.specs.ItemGraph.{graph_of_items};
ghost use Rattle.cert_judge.specs.Items.{rules_at, rules_by};
ghost use Rattle.cert_judge.specs.JudgedItems.{AreJudged};
ghost use Rattle.cert_judge.specs.Revoking.{Item};
ghost use Rattle.cert_search.specs.Inventory.{HasExactTable, IsShortVerdict};
ghost use Rattle.certpath_find.specs.Answered.{HoldsOfItems};
ghost use Rattle.certpath_find.specs.AnsweredAll.{IsFoundOfAll, VerdictNamesCertificates};

use crate::reading::judged_items;
use asn1_core::OutOfMemory;
use cert_framing::Items;
use cert_graph::Inventory;
use cert_judge::{JudgedItem, Policy, Vouch, nodes_by};
use cert_search::find_all_nodes;
use std::alloc::{AllocError, Global};

/// Finds for each item as a target, by its position: the first of the shortest valid paths to an
/// anchor (RFC 5280, 6.1 and 6.3), or that there is none, or that the item is no certificate, with
/// one table that shows it for all of them. It says of each item what `find` says.
///
/// The only error is out of memory. It costs reading each item and anchor once, what `nodes_by` of
/// `cert_judge` says, and the search over the nodes, whose rows are raised once, however many items
/// there are.
pub fn find_all<'a, V: Vouch>(
    alloc: Global,
    items: &'a Items,
    anchors: &'a Items,
    vouch: &V,
    policy: &Policy,
) -> Result<Inventory, OutOfMemory>
    ensures adequate { IfOk result (λ inventory. HoldsOfItems (rules_by policy.now.moment policy.now.demand_lists (V.vouches_for vouch.now)) items.now.items anchors.now.items (λ g. IsAdequateInventory g inventory)) }
    ensures holds { IfOk result (λ inventory. HoldsOfItems (rules_by policy.now.moment policy.now.demand_lists (V.vouches_for vouch.now)) items.now.items anchors.now.items (λ g. IsTrueInventory g inventory)) }
    ensures exact { IfOk result (λ inventory. HoldsOfItems (rules_by policy.now.moment policy.now.demand_lists (V.vouches_for vouch.now)) items.now.items anchors.now.items (λ g. HasExactTable g (shared_rows g inventory))) }
    // no position is twice in a path, so none has more certificates than there are items
    ensures short { IfOk result (λ inventory. HoldsOfItems (rules_by policy.now.moment policy.now.demand_lists (V.vouches_for vouch.now)) items.now.items anchors.now.items (λ g. All (IsShortVerdict g) inventory.verdicts.items)) }
    // at least one row, and no more rows than items if there are items
    ensures bounded { IfOk result (λ inventory. HoldsOfItems (rules_by policy.now.moment policy.now.demand_lists (V.vouches_for vouch.now)) items.now.items anchors.now.items (λ g. (1 ≤ length inventory.steps.items) × (length inventory.steps.items ≤ max 1 g.items))) }
    // octets that spell a certificate otherwise are never in a path
    ensures spelled { IfOk result (λ inventory. All (VerdictNamesCertificates items.now.items) inventory.verdicts.items) }
{
    let moment = policy.moment();
    let items = judged_items(alloc, items, &moment)?;
    let anchors = judged_items(alloc, anchors, &moment)?;
    let inventory = find_all_judged(alloc, &items, &anchors, vouch, policy.demands_lists())?;
    Ok(inventory)
}

/// Finds the first of the shortest valid paths from each item, over items and anchors that were
/// judged before, from whatever octets and at whatever moment, as `judged_items` judges them; it
/// returns what `find_all` does. The only error is out of memory.
pub fn find_all_judged<'a, V: Vouch>(
    alloc: Global,
    items: &[JudgedItem<'a>],
    anchors: &[JudgedItem<'a>],
    vouch: &V,
    demand_lists: bool,
) -> Result<Inventory, AllocError>
    ensures { (moment : CivilTime) (xs ys : List Item) → AreJudged moment xs items.now → AreJudged moment ys anchors.now
        → IfOk result (IsFoundOfAll (graph_of_items (rules_at moment demand_lists (V.vouches_for vouch.now)) xs ys)) }
{
    let nodes = nodes_by(alloc, items, anchors, vouch, demand_lists)?;
    let inventory = find_all_nodes(alloc, &nodes)?;
    Ok(inventory)
}
