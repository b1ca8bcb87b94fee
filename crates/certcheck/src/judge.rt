//! Whether an answer on items is true.

ghost use Rattle.std.specs.Prelude.{◌↔◌, ℕ, List, map, IsTrue, IfOk};
ghost use Rattle.cert_graph.specs.Adequate.{IsAdequate, IsTrueAnswer};
ghost use Rattle.cert_judge.specs.Classed.{AreClassed};
ghost use Rattle.cert_judge.specs.Items.{item_of, rules_by};
ghost use Rattle.cert_judge.specs.ItemGraph.{graph_of_items};
ghost use Rattle.cert_judge.specs.Revoking.{Item};

use crate::reading::TreeReader;
use asn1_core::OutOfMemory;
use cert_framing::Items;
use cert_graph::{Answer, check_nodes};
use cert_judge::{Policy, ReadItem, Vouch, judged_items, nodes_by, nodes_of};
use std::alloc::Global;

/// Whether an answer on a target, a position among the items, is adequate: whether its table shows by
/// inequalities that it is true of these items and anchors, by what is vouched for and under this
/// policy (RFC 5280, 6.1 and 6.3). Items and anchors are read by `TreeReader`; anchors count by their
/// positions, and those that are no certificates are skipped.
///
/// Positions out of range and rows of a wrong length or number give `false`. The only error is out of
/// memory. It costs the reading of the items, and what `nodes_by` of `cert_judge` says; beside the
/// octets of the items it keeps about as much again.
pub fn check<'a, V: Vouch>(
    alloc: Global,
    items: &'a Items,
    target: usize,
    anchors: &'a Items,
    vouch: &V,
    policy: &Policy,
    answer: &Answer,
) -> Result<bool, OutOfMemory>
    ensures exact { IfOk result (λ yes. (classed classed_anchors : List Item) × AreClassed items.now.items classed × AreClassed anchors.now.items classed_anchors
        × (IsTrue yes ↔ IsAdequate (graph_of_items (rules_by policy.now.moment policy.now.demand_lists (V.vouches_for vouch.now)) classed classed_anchors) target answer.now)) }
    ensures holds { IfOk result (λ yes. (classed classed_anchors : List Item) × AreClassed items.now.items classed × AreClassed anchors.now.items classed_anchors
        × (IsTrue yes → IsTrueAnswer (graph_of_items (rules_by policy.now.moment policy.now.demand_lists (V.vouches_for vouch.now)) classed classed_anchors) target answer.now)) }
{
    let moment = policy.moment();
    let items = judged_items::<TreeReader>(alloc, items, &moment)?;
    let anchors = judged_items::<TreeReader>(alloc, anchors, &moment)?;
    let nodes = nodes_by(alloc, &items, &anchors, vouch, policy.demands_lists())?;
    let yes = check_nodes(alloc, &nodes, target, answer)?;
    Ok(yes)
}

/// `check` on items and anchors that were read, for a caller who reads them for more than the answer.
/// What is said is said of what they were read as: `cert_judge::read_items::<TreeReader>` reads them as
/// `check` does.
///
/// The only error is out of memory. It costs judging each item and anchor once, and what `nodes_by` of
/// `cert_judge` says.
pub fn check_read<'a, V: Vouch>(
    alloc: Global,
    items: &[ReadItem<'a>],
    target: usize,
    anchors: &[ReadItem<'a>],
    vouch: &V,
    policy: &Policy,
    answer: &Answer,
) -> Result<bool, OutOfMemory>
    ensures exact { IfOk result (λ yes. IsTrue yes ↔ IsAdequate (graph_of_items (rules_by policy.now.moment policy.now.demand_lists (V.vouches_for vouch.now)) (map item_of items.now) (map item_of anchors.now)) target answer.now) }
    ensures holds { IfOk result (λ yes. IsTrue yes → IsTrueAnswer (graph_of_items (rules_by policy.now.moment policy.now.demand_lists (V.vouches_for vouch.now)) (map item_of items.now) (map item_of anchors.now)) target answer.now) }
{
    let nodes = nodes_of(alloc, items, anchors, vouch, policy)?;
    let yes = check_nodes(alloc, &nodes, target, answer)?;
    Ok(yes)
}
