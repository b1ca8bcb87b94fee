//! What a group's members let an item issued by the group reach, and the reach that comes of it.

ghost use Rattle.std.specs.Prelude.{ℕ, ◌+◌, ◌↔◌};
ghost use Rattle.cert_graph.specs.Reach.{Takes};
ghost use Rattle.cert_graph.specs.Steps.{one_of};
ghost use Rattle.cert_graph.specs.Nodes.{graph_of};
ghost use Rattle.cert_search.specs.Rows.{GroupOffers};

use crate::places::has_anchor;
use cert_graph::{Group, Nodes, Reach, reach_at};

/// What a group offers by a row to all that it issued.
pub(crate) fn offer_of(nodes: &Nodes, row: &[Reach], group: &Group) -> Reach
    ensures { (c : ℕ) → Takes result c ↔ GroupOffers nodes.now row.now group.now c }
{
    if has_anchor(group) {
        return Reach::Any;
    }
    let mut best = Reach::No;
    for w in &group.members {
        if nodes.is_fit(*w) {
            best = best.greater(reach_at(row, *w));
        }
    }
    best
}

/// The entry of the next row at a position, by what it is offered.
pub(crate) fn raised_at(nodes: &Nodes, position: usize, offer: Reach) -> Reach
    ensures { (c : ℕ) → Takes result c ↔ ((graph_of nodes.now).Fit position × Takes ((graph_of nodes.now).limit position) c × Takes offer (c + one_of (graph_of nodes.now) position)) }
{
    if !nodes.is_fit(position) {
        return Reach::No;
    }
    let passed = offer.passed_by(nodes.is_self_issued(position));
    nodes.limit(position).lesser(passed)
}
