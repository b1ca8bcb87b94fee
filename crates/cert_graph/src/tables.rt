//! What one row shows of a target.

ghost use Rattle.std.specs.Prelude.{◌↔◌, IsTrue};
ghost use Rattle.cert_graph.specs.Tables.{IsShut, IsClosed};
ghost use Rattle.cert_graph.specs.Nodes.{graph_of};

use crate::rows::may_take_below;
use crate::{Nodes, Reach};

fn is_shut(nodes: &Nodes, row: &[Reach], certificate: usize) -> bool
    ensures { IsTrue result ↔ IsShut (graph_of nodes.now) row.now certificate }
{
    !may_take_below(nodes, row, certificate, 0, nodes.items.len())
}

/// Returns whether a target is unusable, or is linked to no anchor and to no issuer that a row
/// reaches.
pub fn is_closed(nodes: &Nodes, row: &[Reach], target: usize) -> bool
    ensures { IsTrue result ↔ IsClosed (graph_of nodes.now) row.now target }
{
    if !nodes.is_usable(target) {
        return true;
    }
    if nodes.has_anchor(target) {
        return false;
    }
    is_shut(nodes, row, target)
}
