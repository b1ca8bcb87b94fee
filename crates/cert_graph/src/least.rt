//! The least positions that may come next in a path: RFC 5280 leaves the choice open, and the first
//! path takes the least.

ghost use Rattle.std.specs.Prelude.{◌≡◌, ◌↔◌, IsTrue, Contains};
ghost use Rattle.cert_graph.specs.Steps.{MayTake};
ghost use Rattle.cert_graph.specs.Nodes.{graph_of};
ghost use Rattle.cert_graph.specs.Least.{IsOpen, IsLeastOption, lower_of};

use crate::{Group, Nodes, Reach, reach_at};

/// The lower of two numbers, each of which may be missing.
pub(crate) fn lower(first: Option<usize>, second: Option<usize>) -> Option<usize>
    ensures { result ≡ lower_of first second }
{
    match first {
        None => second,
        Some(m) => match second {
            None => Some(m),
            Some(n) => Some(m.min(n)),
        },
    }
}

/// Whether the item at a position is fit, and a row takes a count there.
fn is_open(nodes: &Nodes, row: &[Reach], position: usize, count: usize) -> bool
    ensures { IsTrue result ↔ IsOpen (graph_of nodes.now) row.now count position }
{
    nodes.is_fit(position) && reach_at(row, position).takes(count)
}

/// The least member of a group that is open: the first, since members ascend.
fn least_open(nodes: &Nodes, row: &[Reach], group: &Group, count: usize) -> Option<usize>
    ensures { IsLeastOption (λ w. Contains group.now.members.items w × IsOpen (graph_of nodes.now) row.now count w) result }
{
    for w in &group.members {
        if is_open(nodes, row, *w, count) {
            return Some(*w);
        }
    }
    None
}

/// The least anchor of a group: the first, since anchors ascend.
pub(crate) fn first_anchor(group: &Group) -> Option<usize>
    ensures { IsLeastOption (λ a. Contains group.now.anchors.items a × Unit {0}) result }
{
    group.anchors.first().copied()
}

/// Returns the least position that may follow another in a path by what a row holds at a count;
/// `None` if there is none.
pub fn least_next(nodes: &Nodes, row: &[Reach], position: usize, count: usize) -> Option<usize>
    ensures { IsLeastOption (MayTake (graph_of nodes.now) row.now position count) result }
{
    let mut least = None;
    for group in &nodes.groups {
        if group.has_issued(position) {
            least = lower(least, least_open(nodes, row, group, count));
        }
    }
    least
}

/// Returns the least anchor that the item at a position is linked to; `None` if there is none.
pub fn least_anchor(nodes: &Nodes, position: usize) -> Option<usize>
    ensures { IsLeastOption ((graph_of nodes.now).AnchorEdge position) result }
{
    let mut least = None;
    for group in &nodes.groups {
        if group.has_issued(position) {
            least = lower(least, first_anchor(group));
        }
    }
    least
}
