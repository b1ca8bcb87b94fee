//! From items and anchors to the nodes of a graph, which a search and a check go over.

ghost use Rattle.std.specs.Prelude.{List, length, map, IfOk};
ghost use Rattle.cert_graph.specs.Laws.{Agrees};
ghost use Rattle.cert_graph.specs.Nodes.{graph_of};
ghost use Rattle.cert_model.specs.Fields.{CivilTime};
ghost use Rattle.cert_model.specs.View.{time_view};
ghost use Rattle.cert_judge.specs.Items.{item_of, rules_by, rules_at};
ghost use Rattle.cert_judge.specs.ItemGraph.{graph_of_items};
ghost use Rattle.cert_judge.specs.JudgedItems.{AreJudged, AreNodesFor};
ghost use Rattle.cert_judge.specs.Revoking.{Item};

use crate::items::ReadItem;
use crate::judged::{JudgedItem, judge_item};
use crate::name_groups::groups_of;
use crate::{Policy, Vouch};
use cert_graph::{Node, Nodes};
use jiff::civil::DateTime;
use std::alloc::{AllocError, Global};

fn judged_nodes<V: Vouch>(
    alloc: Global,
    items: &[JudgedItem<'_>],
    vouch: &V,
) -> Result<Vec<Node>, AllocError>
    ensures { IfOk result (λ nodes. AreNodesFor (V.vouches_for vouch.now).Processes items.now nodes.items (length items.now)) }
{
    let mut nodes = Vec::with_capacity(alloc, items.len())?;
    for item in items {
        nodes.push(item.node_by(vouch))?;
    }
    Ok(nodes)
}

/// The nodes of judged items and anchors, by what is vouched for. What they were judged from, and
/// at which moment, is the caller's. The only error is out of memory.
///
/// `vouched_by_each` is called once for each name, with the keys of the anchors and fit issuers
/// that have it as their subject and the certificates and lists that were issued under it, of equal
/// ones the first. If a type implements `vouches` alone, that asks once for each of these keys
/// and items, and this product is the caller's to bear. The entries of a list in force are sorted
/// once. A key that vouches for it then costs one look-up there for each certificate that it
/// vouches for, or one step for each entry if these are fewer or at most 16. `processes` is
/// called once for each critical extension that isn't judged here. All else takes the time of
/// sorted maps: places are brought together by name, then by key, and then by key identifier, and
/// items by their octets.
///
/// For each key that vouches for an item the groups take as many places as the item has copies, or
/// as the key has certificates and anchors, whichever are fewer.
pub fn nodes_by<'a, V: Vouch>(
    alloc: Global,
    items: &[JudgedItem<'a>],
    anchors: &[JudgedItem<'a>],
    vouch: &V,
    demand_lists: bool,
) -> Result<Nodes, AllocError>
    ensures { (moment : CivilTime) (xs ys : List Item) → AreJudged moment xs items.now → AreJudged moment ys anchors.now
        → IfOk result (λ nodes. Agrees (graph_of nodes) (graph_of_items (rules_at moment demand_lists (V.vouches_for vouch.now)) xs ys)) }
{
    let nodes = judged_nodes(alloc, items, vouch)?;
    let groups = groups_of(alloc, items, anchors, vouch, demand_lists)?;
    Ok(Nodes {
        items: nodes,
        groups,
    })
}

/// Judges read items at a moment, in their order.
fn judge_items<'a>(
    alloc: Global,
    items: &[ReadItem<'a>],
    moment: &DateTime,
) -> Result<Vec<JudgedItem<'a>>, AllocError>
    ensures { IfOk result (λ judged. AreJudged (time_view moment.now) (map item_of items.now) judged.items) }
{
    let mut judged = Vec::with_capacity(alloc, items.len())?;
    for item in items {
        judged.push(judge_item(alloc, item, moment)?)?;
    }
    Ok(judged)
}

/// The nodes of items and anchors that were read, under a policy and by what is vouched for, as
/// `nodes_by` builds them. The only error is out of memory. It costs judging each item and anchor
/// once, and `nodes_by`.
pub fn nodes_of<'a, V: Vouch>(
    alloc: Global,
    items: &[ReadItem<'a>],
    anchors: &[ReadItem<'a>],
    vouch: &V,
    policy: &Policy,
) -> Result<Nodes, AllocError>
    ensures { IfOk result (λ nodes. Agrees (graph_of nodes) (graph_of_items (rules_by policy.now.moment policy.now.demand_lists (V.vouches_for vouch.now)) (map item_of items.now) (map item_of anchors.now))) }
{
    let moment = policy.moment();
    let items = judge_items(alloc, items, &moment)?;
    let anchors = judge_items(alloc, anchors, &moment)?;
    let nodes = nodes_by(alloc, &items, &anchors, vouch, policy.demands_lists())?;
    Ok(nodes)
}
