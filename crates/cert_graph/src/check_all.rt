//! The check of an inventory: one table for all items, gone through two rows at a time.

ghost use Rattle.std.specs.Prelude.{◌≡◌, ◌+◌, ◌<◌, ◌↔◌, List, length, IsTrue, IfOk};
ghost use Rattle.cert_graph.specs.declared.reach.Reach.{Reach};
ghost use Rattle.cert_graph.specs.declared.inventory.Verdict.TheVariants.{Pathless};
ghost use Rattle.cert_graph.specs.Adequate.{IsAdequatePath};
ghost use Rattle.cert_graph.specs.Inventory.{IsAdequateVerdict, StandsAtLast, OfEach, IsAdequateInventory, IsTrueInventory};
ghost use Rattle.cert_graph.specs.Lookup.{IsIndex, IsLookup};
ghost use Rattle.cert_graph.specs.Nodes.{graph_of};
ghost use Rattle.cert_graph.specs.Tables.{IsTable};

use crate::shown::{is_closed, is_lowest, is_shortest, is_valid_path};
use crate::standing::is_standing_table;
use crate::{Inventory, Lookup, Nodes, Verdict, lookup_of};
use std::alloc::{AllocError, Global};

/// Whether a path is adequate by rows that are a table already, one fewer than it has certificates.
/// The rows are those of the look-up.
pub(crate) fn is_shown_path(
    nodes: &Nodes,
    lookup: &Lookup,
    target: usize,
    positions: &[usize],
    anchor: usize,
) -> bool
    requires index { IsIndex nodes.now lookup.now }
    requires some { 0 < length positions.now }
    ensures { (rows : List (List Reach)) → IsLookup nodes.now rows lookup.now → IsTable (graph_of nodes.now) rows → length rows + 1 ≡ length positions.now → IsTrue result ↔ IsAdequatePath (graph_of nodes.now) target positions.now anchor rows }
{
    let last = positions.len() - 1;
    if !is_valid_path(nodes, lookup, target, positions, anchor) {
        return false;
    }
    if lookup.has_anchor_below(nodes, positions[last], anchor) {
        return false;
    }
    if !is_shortest(nodes, lookup, target, last) {
        return false;
    }
    is_lowest(nodes, lookup, target, &positions[1..])
}

/// Whether "no path" is adequate by so many rows of which the last is its own successor, or by none.
fn is_shown_none(nodes: &Nodes, lookup: &Lookup, target: usize, count: usize) -> bool
    requires { IsIndex nodes.now lookup.now }
    ensures { (rows : List (List Reach)) → IsLookup nodes.now rows lookup.now → IsTable (graph_of nodes.now) rows → StandsAtLast (graph_of nodes.now) rows → length rows ≡ count → IsTrue result ↔ IsAdequateVerdict (graph_of nodes.now) rows target Pathless }
{
    if !nodes.is_certificate(target) {
        return false;
    }
    if count == 0 {
        return false;
    }
    is_closed(nodes, lookup, count - 1, target)
}

/// Whether a verdict is adequate by its part of so many rows that are a table whose last row is its
/// own successor.
fn is_shown(nodes: &Nodes, lookup: &Lookup, count: usize, target: usize, verdict: &Verdict) -> bool
    requires { IsIndex nodes.now lookup.now }
    ensures { (rows : List (List Reach)) → IsLookup nodes.now rows lookup.now → IsTable (graph_of nodes.now) rows → StandsAtLast (graph_of nodes.now) rows → length rows ≡ count → IsTrue result ↔ IsAdequateVerdict (graph_of nodes.now) rows target verdict.now }
{
    match verdict {
        Verdict::FirstPath { positions, anchor } => {
            if positions.is_empty() {
                return false;
            }
            if positions.len() - 1 > count {
                return false;
            }
            is_shown_path(nodes, lookup, target, positions, *anchor)
        }
        Verdict::Pathless => is_shown_none(nodes, lookup, target, count),
        Verdict::NoCertificate => !nodes.is_certificate(target),
    }
}

/// Whether each of some verdicts is adequate by so many rows that are a table whose last row is its
/// own successor.
fn are_shown(nodes: &Nodes, lookup: &Lookup, count: usize, verdicts: &[Verdict]) -> bool
    requires { IsIndex nodes.now lookup.now }
    ensures { (rows : List (List Reach)) → IsLookup nodes.now rows lookup.now → IsTable (graph_of nodes.now) rows → StandsAtLast (graph_of nodes.now) rows → length rows ≡ count → IsTrue result ↔ OfEach (IsAdequateVerdict (graph_of nodes.now) rows) verdicts.now }
{
    for (target, verdict) in verdicts.iter().enumerate() {
        if !is_shown(nodes, lookup, count, target, verdict) {
            return false;
        }
    }
    true
}

/// Returns whether an inventory is adequate: whether its one table shows by inequalities that each
/// verdict is true. One verdict too many or too few, positions past the items, anchors that don't
/// exist, or rows that don't follow each other give `Ok(false)`.
///
/// The only error is out of memory. Holds two rows at a time, whatever the number of rows.
pub fn check_all_nodes(
    alloc: Global,
    nodes: &Nodes,
    inventory: &Inventory,
) -> Result<bool, AllocError>
    ensures exact { IfOk result (λ yes. IsTrue yes ↔ IsAdequateInventory (graph_of nodes.now) inventory.now) }
    ensures holds { IfOk result (λ yes. IsTrue yes → IsTrueInventory (graph_of nodes.now) inventory.now) }
{
    if inventory.verdicts.len() != nodes.items.len() {
        return Ok(false);
    }
    if !is_standing_table(alloc, nodes, &inventory.steps)? {
        return Ok(false);
    }
    let lookup = lookup_of(alloc, nodes, &inventory.steps)?;
    Ok(are_shown(nodes, &lookup, inventory.steps.len(), &inventory.verdicts))
}
