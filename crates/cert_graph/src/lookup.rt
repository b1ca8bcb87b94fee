//! Look-ups for a walk down the rows: by item the groups that issued it, by group its members that
//! reach furthest.

ghost use Rattle.std.specs.Prelude.{◌≡◌, ◌↔◌, ◌<◌, ℕ, List, [], length, map, replicate, slice_index_or, IsTrue, IfOk};
ghost use Rattle.cert_graph.specs.declared.nodes.Group.{Group};
ghost use Rattle.cert_graph.specs.declared.nodes.Nodes.{Nodes};
ghost use Rattle.cert_graph.specs.declared.reach.Reach.{Reach};
ghost use Rattle.cert_graph.specs.declared.reach.Reach.TheVariants.{No};
ghost use Rattle.cert_graph.specs.Adequate.{row_of, rows_by};
ghost use Rattle.cert_graph.specs.Least.{IsLeastOption};
ghost use Rattle.cert_graph.specs.Lookup.{IsIndex, IsLookup};
ghost use Rattle.cert_graph.specs.Nodes.{graph_of};
ghost use Rattle.cert_graph.specs.Stairs.{OpenIn};
ghost use Rattle.cert_graph.specs.Steps.{MayTake};
ghost use Rattle.cert_graph.specs.Tables.{IsShut};

use crate::issuing::groups_of;
use crate::least::{first_anchor, lower};
use crate::stairs::{Flight, flights_of, least_in};
use crate::{Change, Nodes};
use std::alloc::{AllocError, Global};

/// What a walk down some rows looks up, in place of going over all groups at each step.
#[derive(Drop)]
pub struct Lookup {
    /// For each item the groups that issued it.
    groups: Vec<Vec<usize>>,

    /// For each group how far the rows reach over its members.
    flights: Vec<Vec<Flight>>,
}

/// Returns what a walk looks up over the rows that come of some changes, the first from a row of
/// `No`.
///
/// The only error is out of memory. Goes over the members of all groups once for each row.
pub fn lookup_of(alloc: Global, nodes: &Nodes, steps: &[Vec<Change>]) -> Result<Lookup, AllocError>
    ensures { IfOk result (IsLookup nodes.now (rows_by (replicate (length nodes.now.items.items) No) (map (λ s. s.items) steps.now))) }
{
    let groups = groups_of(alloc, nodes)?;
    let flights = flights_of(alloc, nodes, steps)?;
    Ok(Lookup { groups, flights })
}

impl Lookup {
    /// Returns the groups that issued an item; none past the last.
    fn issuing(&self, position: usize) -> &[usize]
        ensures { result.now ≡ slice_index_or (map (λ l. l.items) self.now.groups.items) position [] }
    {
        match self.groups.get(position) {
            Some(groups) => groups,
            None => &[],
        }
    }

    /// The least member of a group that is open in a row at a count.
    fn least_of(&self, group: usize, row: usize, count: usize) -> Option<usize>
        ensures { (nodes : Nodes) (rows : List (List Reach)) (own : Group) → IsLookup nodes rows self.now → group < length nodes.groups.items → row < length rows → IsLeastOption (OpenIn (graph_of nodes) (row_of rows row) (slice_index_or nodes.groups.items group own).members.items count) result }
    {
        match self.flights.get(group) {
            Some(flights) => least_in(flights, row, count),
            None => None,
        }
    }

    /// Returns the least position that may follow another in a path by what row `row`, counted from
    /// 0, holds at a count.
    pub fn least_next(&self, row: usize, position: usize, count: usize) -> Option<usize>
        ensures { (nodes : Nodes) (rows : List (List Reach)) → IsLookup nodes rows self.now → row < length rows → IsLeastOption (MayTake (graph_of nodes) (row_of rows row) position count) result }
    {
        let mut least = None;
        for group in self.issuing(position) {
            least = lower(least, self.least_of(*group, row, count));
        }
        least
    }

    /// Returns the least anchor that the item at a position is linked to.
    pub fn least_anchor(&self, nodes: &Nodes, position: usize) -> Option<usize>
        requires { IsIndex nodes.now self.now }
        ensures { IsLeastOption ((graph_of nodes.now).AnchorEdge position) result }
    {
        let mut least = None;
        for group in self.issuing(position) {
            least = lower(least, first_anchor(&nodes.groups[*group]));
        }
        least
    }

    /// Whether a certificate is linked to another, both by position.
    pub(crate) fn links(&self, nodes: &Nodes, certificate: usize, issuer: usize) -> bool
        requires { IsIndex nodes.now self.now }
        ensures { IsTrue result ↔ (graph_of nodes.now).Edge certificate issuer }
    {
        for group in self.issuing(certificate) {
            if nodes.groups[*group].has_member(issuer) {
                return true;
            }
        }
        false
    }

    /// Whether a certificate is linked to an anchor, both by position.
    pub(crate) fn links_to_anchor(&self, nodes: &Nodes, certificate: usize, anchor: usize) -> bool
        requires { IsIndex nodes.now self.now }
        ensures { IsTrue result ↔ (graph_of nodes.now).AnchorEdge certificate anchor }
    {
        for group in self.issuing(certificate) {
            if nodes.groups[*group].has_anchor(anchor) {
                return true;
            }
        }
        false
    }

    /// Whether a certificate is linked to some anchor.
    pub(crate) fn has_anchor(&self, nodes: &Nodes, certificate: usize) -> bool
        requires { IsIndex nodes.now self.now }
        ensures { IsTrue result ↔ ((anchor : ℕ) × (graph_of nodes.now).AnchorEdge certificate anchor) }
    {
        match self.least_anchor(nodes, certificate) {
            Some(_) => true,
            None => false,
        }
    }

    /// Whether a certificate is linked to some anchor below a position.
    pub(crate) fn has_anchor_below(&self, nodes: &Nodes, certificate: usize, bound: usize) -> bool
        requires { IsIndex nodes.now self.now }
        ensures { IsTrue result ↔ ((anchor : ℕ) × (anchor < bound) × (graph_of nodes.now).AnchorEdge certificate anchor) }
    {
        match self.least_anchor(nodes, certificate) {
            Some(anchor) => anchor < bound,
            None => false,
        }
    }

    /// Whether some fit position below a bound is linked from a certificate and takes a count by a
    /// row, given by its number from 0.
    pub(crate) fn may_take_below(
        &self,
        row: usize,
        certificate: usize,
        count: usize,
        bound: usize,
    ) -> bool
        ensures { (nodes : Nodes) (rows : List (List Reach)) → IsLookup nodes rows self.now → row < length rows → IsTrue result ↔ ((w : ℕ) × (w < bound) × MayTake (graph_of nodes) (row_of rows row) certificate count w) }
    {
        match self.least_next(row, certificate, count) {
            Some(next) => next < bound,
            None => false,
        }
    }

    /// Whether a row, given by its number from 0, reaches none of a certificate's issuers.
    pub(crate) fn is_shut(&self, row: usize, certificate: usize) -> bool
        ensures { (nodes : Nodes) (rows : List (List Reach)) → IsLookup nodes rows self.now → row < length rows → IsTrue result ↔ IsShut (graph_of nodes) (row_of rows row) certificate }
    {
        match self.least_next(row, certificate, 0) {
            Some(_) => false,
            None => true,
        }
    }
}
