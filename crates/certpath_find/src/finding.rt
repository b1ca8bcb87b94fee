//! The first of the shortest valid paths over items.

ghost use Rattle.std.specs.Prelude.{List, IfOk};
ghost use Rattle.cert_graph.specs.Adequate.{IsAdequate, IsTrueAnswer};
ghost use Rattle.cert_model.specs.Fields.{CivilTime};
ghost use Rattle.cert_judge.specs.ItemGraph.{graph_of_items};
ghost use Rattle.cert_judge.specs.Items.{rules_at, rules_by};
ghost use Rattle.cert_judge.specs.JudgedItems.{AreJudged};
ghost use Rattle.cert_judge.specs.Revoking.{Item};
ghost use Rattle.cert_search.specs.Exact.{HasExactRows, IsShort};
ghost use Rattle.certpath_find.specs.Answered.{HoldsOfItems, IsFound, NamesCertificates};

use crate::reading::judged_items;
use asn1_core::OutOfMemory;
use cert_framing::Items;
use cert_graph::Answer;
use cert_judge::{JudgedItem, Policy, Vouch, nodes_by};
use cert_search::find_nodes;
use std::alloc::{AllocError, Global};

/// Finds the first of the shortest valid paths from a target, a position among the items, to an
/// anchor (RFC 5280, 6.1 and 6.3), or that there is none, with the table that shows it; `NoTarget`
/// if the target is out of range or no certificate. Anchors are numbered by position; those that
/// are no certificates are skipped.
///
/// The only error is out of memory. It costs reading each item and anchor once, what `nodes_by` of
/// `cert_judge` says, and the search over the nodes.
pub fn find<'a, V: Vouch>(
    alloc: Global,
    items: &'a Items,
    target: usize,
    anchors: &'a Items,
    vouch: &V,
    policy: &Policy,
) -> Result<Answer, OutOfMemory>
    ensures adequate { IfOk result (λ answer. HoldsOfItems (rules_by policy.now.moment policy.now.demand_lists (V.vouches_for vouch.now)) items.now.items anchors.now.items (λ g. IsAdequate g target answer)) }
    ensures holds { IfOk result (λ answer. HoldsOfItems (rules_by policy.now.moment policy.now.demand_lists (V.vouches_for vouch.now)) items.now.items anchors.now.items (λ g. IsTrueAnswer g target answer)) }
    ensures exact { IfOk result (λ answer. HoldsOfItems (rules_by policy.now.moment policy.now.demand_lists (V.vouches_for vouch.now)) items.now.items anchors.now.items (λ g. HasExactRows g answer)) }
    // no position is twice in a path, so its table has fewer rows than there are items
    ensures short { IfOk result (λ answer. HoldsOfItems (rules_by policy.now.moment policy.now.demand_lists (V.vouches_for vouch.now)) items.now.items anchors.now.items (λ g. IsShort g answer)) }
    // octets that spell a certificate otherwise are never in a path
    ensures spelled { IfOk result (NamesCertificates items.now.items) }
{
    let moment = policy.moment();
    let items = judged_items(alloc, items, &moment)?;
    let anchors = judged_items(alloc, anchors, &moment)?;
    let answer = find_judged(
        alloc,
        &items,
        target,
        &anchors,
        vouch,
        policy.demands_lists(),
    )?;
    Ok(answer)
}

/// Finds the first of the shortest valid paths over items and anchors that were judged before, from
/// whatever octets and at whatever moment, as `judged_items` judges them; it returns what `find`
/// does. The only error is out of memory.
pub fn find_judged<'a, V: Vouch>(
    alloc: Global,
    items: &[JudgedItem<'a>],
    target: usize,
    anchors: &[JudgedItem<'a>],
    vouch: &V,
    demand_lists: bool,
) -> Result<Answer, AllocError>
    ensures { (moment : CivilTime) (xs ys : List Item) → AreJudged moment xs items.now → AreJudged moment ys anchors.now
        → IfOk result (IsFound (graph_of_items (rules_at moment demand_lists (V.vouches_for vouch.now)) xs ys) target) }
{
    let nodes = nodes_by(alloc, items, anchors, vouch, demand_lists)?;
    let answer = find_nodes(alloc, &nodes, target)?;
    Ok(answer)
}
