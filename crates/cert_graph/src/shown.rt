//! Valid paths and closed rows by a look-up, in place of going over all groups.

ghost use Rattle.std.specs.Prelude.{◌≡◌, ◌<◌, ◌↔◌, List, length, IsTrue};
ghost use Rattle.cert_graph.specs.declared.reach.Reach.{Reach};
ghost use Rattle.cert_graph.specs.Adequate.{row_of};
ghost use Rattle.cert_graph.specs.Graph.{IsValidPath};
ghost use Rattle.cert_graph.specs.Lookup.{IsIndex, IsLookup};
ghost use Rattle.cert_graph.specs.Nodes.{graph_of};
ghost use Rattle.cert_graph.specs.Steps.{Next, MayFollow, Lowest};
ghost use Rattle.cert_graph.specs.Tables.{IsShortest, IsClosed};

use crate::path::counted_on;
use crate::{Lookup, Nodes};

fn may_follow(
    nodes: &Nodes,
    lookup: &Lookup,
    certificate: usize,
    count: usize,
    issuer: usize,
) -> bool
    requires { IsIndex nodes.now lookup.now }
    ensures { IsTrue result ↔ MayFollow (graph_of nodes.now) certificate count issuer }
{
    if !nodes.is_fit(issuer) {
        return false;
    }
    if !lookup.links(nodes, certificate, issuer) {
        return false;
    }
    nodes.limit(issuer).takes(count)
}

/// Whether issuers lead from a target to an anchor.
fn lead_on(nodes: &Nodes, lookup: &Lookup, target: usize, issuers: &[usize], anchor: usize) -> bool
    requires { IsIndex nodes.now lookup.now }
    ensures { IsTrue result ↔ Next (graph_of nodes.now) target 0 issuers.now anchor }
{
    let mut last = target;
    let mut count = 0;
    for issuer in issuers {
        if !may_follow(nodes, lookup, last, count, *issuer) {
            return false;
        }
        count = counted_on(nodes.is_self_issued(*issuer), count);
        last = *issuer;
    }
    lookup.links_to_anchor(nodes, last, anchor)
}

/// Whether positions are a valid path from a target to an anchor.
pub(crate) fn is_valid_path(
    nodes: &Nodes,
    lookup: &Lookup,
    target: usize,
    positions: &[usize],
    anchor: usize,
) -> bool
    requires { IsIndex nodes.now lookup.now }
    ensures { IsTrue result ↔ IsValidPath (graph_of nodes.now) target positions.now anchor }
{
    if positions.is_empty() {
        return false;
    }
    if positions[0] != target {
        return false;
    }
    if !nodes.is_usable(target) {
        return false;
    }
    lead_on(nodes, lookup, target, &positions[1..], anchor)
}

/// Whether at no place of a path a smaller position would do, by the rows for what is left of it.
pub(crate) fn is_lowest(nodes: &Nodes, lookup: &Lookup, target: usize, issuers: &[usize]) -> bool
    ensures { (rows : List (List Reach)) → IsLookup nodes.now rows lookup.now → length rows ≡ length issuers.now → IsTrue result ↔ Lowest (graph_of nodes.now) rows target 0 issuers.now }
{
    let mut last = target;
    let mut counted = 0;
    let mut left = issuers.len();
    for issuer in issuers {
        left -= 1;
        if lookup.may_take_below(left, last, counted, *issuer) {
            return false;
        }
        counted = counted_on(nodes.is_self_issued(*issuer), counted);
        last = *issuer;
    }
    true
}

/// Whether so many rows show that no path has fewer certificates than there are rows, and one.
pub(crate) fn is_shortest(nodes: &Nodes, lookup: &Lookup, target: usize, count: usize) -> bool
    requires { IsIndex nodes.now lookup.now }
    ensures { (rows : List (List Reach)) → IsLookup nodes.now rows lookup.now → length rows ≡ count → IsTrue result ↔ IsShortest (graph_of nodes.now) target rows }
{
    if count == 0 {
        return true;
    }
    if lookup.has_anchor(nodes, target) {
        return false;
    }
    if count < 2 {
        return true;
    }
    lookup.is_shut(count - 2, target)
}

/// Whether a target is unusable, or neither an anchor nor an issuer that a row reaches follows it.
/// The row is given by its number from 0.
pub(crate) fn is_closed(nodes: &Nodes, lookup: &Lookup, row: usize, target: usize) -> bool
    requires { IsIndex nodes.now lookup.now }
    ensures { (rows : List (List Reach)) → IsLookup nodes.now rows lookup.now → row < length rows → IsTrue result ↔ IsClosed (graph_of nodes.now) (row_of rows row) target }
{
    if !nodes.is_usable(target) {
        return true;
    }
    if lookup.has_anchor(nodes, target) {
        return false;
    }
    lookup.is_shut(row, target)
}
