//! Stairs: of a group's members in a row, each that reaches further than all before it.
//!
//! The least member that takes a count is on a stair, so a look-up halves the stairs in place of
//! going over the members. Rows in which a group's stairs are equal share one flight of them.

ghost use Rattle.std.specs.Prelude.{◌≡◌, ◌↔◌, ◌<◌, ◌-◌, ℕ, List, [], ◌∷◌, ◌++◌, length, map, replicate, slice_index_or, All, IsTrue, IfOk, OnOk};
ghost use Rattle.cert_graph.specs.declared.nodes.Nodes.{Nodes};
ghost use Rattle.cert_graph.specs.declared.reach.Reach.{Reach};
ghost use Rattle.cert_graph.specs.declared.reach.Reach.TheVariants.{No};
ghost use Rattle.cert_graph.specs.declared.stairs.Flight.{Flight};
ghost use Rattle.cert_graph.specs.Adequate.{row_of, changed, rows_by};
ghost use Rattle.cert_graph.specs.Changes.{touched};
ghost use Rattle.cert_graph.specs.Issuing.{AreMemberships};
ghost use Rattle.cert_graph.specs.Least.{IsLeastOption};
ghost use Rattle.cert_graph.specs.Nodes.{graph_of};
ghost use Rattle.cert_graph.specs.Stairs.{OpenIn, AreStairs, AreFlights, AreFlightsSoFar, MayClimb, AreClimbing, OfEachGroup};

use crate::changes::{make, row_of_none};
use crate::issuing::{is_wide, memberships_of};
use crate::{Change, Group, Nodes, Reach, reach_at};
use std::alloc::{AllocError, Global};

/// A fit member of a group that reaches further, in a row, than each one before it.
#[derive(Clone, Copy)]
pub(crate) struct Stair {
    pub position: usize,
    pub reach: Reach,
}

/// The stairs of a group from a row on, up to the next row that changes them.
#[derive(Drop)]
pub(crate) struct Flight {
    pub row: usize,
    pub stairs: Vec<Stair>,
}

/// The stairs of a group in a row.
fn stairs_of(
    alloc: Global,
    nodes: &Nodes,
    row: &[Reach],
    group: &Group,
) -> Result<Vec<Stair>, AllocError>
    ensures { IfOk result (λ stairs. AreStairs (graph_of nodes.now) row.now group.now.members.items stairs.items) }
{
    let mut stairs = Vec::new(alloc);
    let mut best = Reach::No;
    for w in &group.members {
        if nodes.is_fit(*w) {
            let reach = reach_at(row, *w);
            if !reach.is_at_most(best) {
                stairs.push(Stair {
                    position: *w,
                    reach,
                })?;
                best = reach;
            }
        }
    }
    Ok(stairs)
}

/// The least member that takes a count: that of the first stair that does. Halves the stairs, since
/// each takes what those before it take.
fn first_stair(stairs: &[Stair], count: usize) -> Option<usize>
    ensures { (nodes : Nodes) (row : List Reach) (members : List ℕ) → AreStairs (graph_of nodes) row members stairs.now → IsLeastOption (OpenIn (graph_of nodes) row members count) result }
{
    let mut low = 0;
    let mut high = stairs.len();
    while low < high {
        let middle = low + (high - low) / 2;
        if stairs[middle].reach.takes(count) {
            high = middle;
        } else {
            low = middle + 1;
        }
    }
    if low < stairs.len() {
        Some(stairs[low].position)
    } else {
        None
    }
}

/// The least member of a group that is open in a row at a count. Halves the flights, and then the
/// stairs of one.
pub(crate) fn least_in(flights: &[Flight], row: usize, count: usize) -> Option<usize>
    ensures { (nodes : Nodes) (rows : List (List Reach)) (members : List ℕ) → AreFlights (graph_of nodes) rows members flights.now → row < length rows → IsLeastOption (OpenIn (graph_of nodes) (row_of rows row) members count) result }
{
    let mut low = 0;
    let mut high = flights.len();
    while low < high {
        let middle = low + (high - low) / 2;
        if flights[middle].row <= row {
            low = middle + 1;
        } else {
            high = middle;
        }
    }
    if low == 0 {
        return None;
    }
    first_stair(&flights[low - 1].stairs, count)
}

/// Whether two stairs are one.
fn is_same(first: Stair, second: Stair) -> bool
    ensures { IsTrue result ↔ first ≡ second }
{
    if first.position != second.position {
        return false;
    }
    if !first.reach.is_at_most(second.reach) {
        return false;
    }
    second.reach.is_at_most(first.reach)
}

/// Whether two lists of stairs are one.
fn are_same(first: &[Stair], second: &[Stair]) -> bool
    ensures { IsTrue result ↔ first.now ≡ second.now }
{
    if first.len() != second.len() {
        return false;
    }
    for place in 0..first.len() {
        if !is_same(first[place], second[place]) {
            return false;
        }
    }
    true
}

/// Whether the last of some flights has these stairs.
fn ends_in(flights: &[Flight], stairs: &[Stair]) -> bool
    ensures { IsTrue result ↔ ((0 < length flights.now) × ((d : Flight) → (slice_index_or flights.now (length flights.now - 1) d).stairs.items ≡ stairs.now)) }
{
    if flights.is_empty() {
        return false;
    }
    let last = &flights[flights.len() - 1];
    are_same(&last.stairs, stairs)
}

/// Whether the last of some flights begins in a row, given by its number from 0.
fn begins_in(flights: &[Flight], number: usize) -> bool
    ensures { IsTrue result ↔ ((0 < length flights.now) × ((d : Flight) → (slice_index_or flights.now (length flights.now - 1) d).row ≡ number)) }
{
    if flights.is_empty() {
        return false;
    }
    let last = &flights[flights.len() - 1];
    last.row == number
}

/// Goes on with a group's flights by one row: adds a flight, unless the last has the row's stairs.
/// A second time it changes nothing, or notes equal stairs again.
fn climb(
    alloc: Global,
    nodes: &Nodes,
    row: &[Reach],
    number: usize,
    group: &Group,
    flights: &mut Vec<Flight>,
) -> Result<(), AllocError>
    ensures { OnOk result ((rows : List (List Reach)) → length rows ≡ number → MayClimb (graph_of nodes.now) rows row.now group.now.members.items flights.old.items
        → AreFlightsSoFar (graph_of nodes.now) (rows ++ row.now ∷ []) group.now.members.items flights.new.items × MayClimb (graph_of nodes.now) rows row.now group.now.members.items flights.new.items) }
{
    if begins_in(flights, number) {
        return Ok(());
    }
    let stairs = stairs_of(alloc, nodes, row, group)?;
    if ends_in(flights, &stairs) {
        return Ok(());
    }
    flights.push(Flight {
        row: number,
        stairs,
    })?;
    Ok(())
}

/// Goes on with the flights of each group by one row.
fn climb_all(
    alloc: Global,
    nodes: &Nodes,
    row: &[Reach],
    number: usize,
    flights: &mut Vec<Vec<Flight>>,
) -> Result<(), AllocError>
    requires { length flights.old.items ≡ length nodes.now.groups.items }
    ensures { OnOk result ((rows : List (List Reach)) → length rows ≡ number → OfEachGroup (AreFlightsSoFar (graph_of nodes.now) rows) nodes.now.groups.items (map (λ f. f.items) flights.old.items) → OfEachGroup (AreFlightsSoFar (graph_of nodes.now) (rows ++ row.now ∷ [])) nodes.now.groups.items (map (λ f. f.items) flights.new.items)) }
{
    for (place, group) in nodes.groups.iter().enumerate() {
        climb(alloc, nodes, row, number, group, &mut flights[place])?;
    }
    Ok(())
}

/// Goes on with the flights of some groups, by their places, by one row.
fn climb_at(
    alloc: Global,
    nodes: &Nodes,
    row: &[Reach],
    number: usize,
    places: &[usize],
    flights: &mut Vec<Vec<Flight>>,
) -> Result<(), AllocError>
    requires count { length flights.old.items ≡ length nodes.now.groups.items }
    requires within { All (λ k. k < length nodes.now.groups.items) places.now }
    ensures count { OnOk result (length flights.new.items ≡ length nodes.now.groups.items) }
    ensures climbed { OnOk result ((rows : List (List Reach)) (done : List ℕ) → length rows ≡ number → AreClimbing (graph_of nodes.now) rows row.now done nodes.now.groups.items (map (λ f. f.items) flights.old.items)
        → AreClimbing (graph_of nodes.now) rows row.now (done ++ places.now) nodes.now.groups.items (map (λ f. f.items) flights.new.items)) }
{
    for place in places {
        climb(
            alloc,
            nodes,
            row,
            number,
            &nodes.groups[*place],
            &mut flights[*place],
        )?;
    }
    Ok(())
}

/// Goes on with the flights of those groups by one row of which some changes are of a member.
fn climb_some(
    alloc: Global,
    nodes: &Nodes,
    places: &[Vec<usize>],
    row: &[Reach],
    number: usize,
    step: &[Change],
    flights: &mut Vec<Vec<Flight>>,
) -> Result<(), AllocError>
    requires count { length flights.old.items ≡ length nodes.now.groups.items }
    requires within { All (λ l. All (λ k. k < length nodes.now.groups.items) l.items) places.now }
    ensures { OnOk result ((rows : List (List Reach)) → length rows ≡ number → OfEachGroup (AreFlightsSoFar (graph_of nodes.now) rows) nodes.now.groups.items (map (λ f. f.items) flights.old.items)
        → AreClimbing (graph_of nodes.now) rows row.now (touched (map (λ l. l.items) places.now) step.now) nodes.now.groups.items (map (λ f. f.items) flights.new.items)) }
{
    for change in step {
        if change.position < places.len() {
            climb_at(alloc, nodes, row, number, &places[change.position], flights)?;
        }
    }
    Ok(())
}

/// Goes on with the flights of each group by one row that some changes make of the one before it.
fn climb_by(
    alloc: Global,
    nodes: &Nodes,
    places: &[Vec<usize>],
    row: &[Reach],
    number: usize,
    step: &[Change],
    flights: &mut Vec<Vec<Flight>>,
) -> Result<(), AllocError>
    requires count { length flights.old.items ≡ length nodes.now.groups.items }
    requires places { AreMemberships nodes.now (map (λ l. l.items) places.now) }
    ensures { OnOk result ((rows : List (List Reach)) (before : List Reach) → length rows ≡ number → (0 < length rows → before ≡ row_of rows (length rows - 1)) → row.now ≡ changed before step.now
        → OfEachGroup (AreFlightsSoFar (graph_of nodes.now) rows) nodes.now.groups.items (map (λ f. f.items) flights.old.items)
        → OfEachGroup (AreFlightsSoFar (graph_of nodes.now) (rows ++ row.now ∷ [])) nodes.now.groups.items (map (λ f. f.items) flights.new.items)) }
{
    if number == 0 {
        return climb_all(alloc, nodes, row, number, flights);
    }
    if is_wide(nodes, places, step) {
        return climb_all(alloc, nodes, row, number, flights);
    }
    climb_some(alloc, nodes, places, row, number, step, flights)
}

/// So many groups, each without a flight.
fn no_flights(alloc: Global, number: usize) -> Result<Vec<Vec<Flight>>, AllocError>
    ensures count { IfOk result (λ flights. length flights.items ≡ number) }
    ensures empty { IfOk result (λ flights. All (λ f. f.items ≡ []) flights.items) }
{
    let mut flights = Vec::with_capacity(alloc, number)?;
    for _ in 0..number {
        flights.push(Vec::new(alloc))?;
    }
    Ok(flights)
}

/// The flights of each group over the rows that come of some changes.
///
/// Goes over the members of all groups once, and again of those groups of which a member changes.
pub(crate) fn flights_of(
    alloc: Global,
    nodes: &Nodes,
    steps: &[Vec<Change>],
) -> Result<Vec<Vec<Flight>>, AllocError>
    ensures { IfOk result (λ flights. OfEachGroup (AreFlights (graph_of nodes.now) (rows_by (replicate (length nodes.now.items.items) No) (map (λ s. s.items) steps.now))) nodes.now.groups.items (map (λ f. f.items) flights.items)) }
{
    let places = memberships_of(alloc, nodes)?;
    let mut flights = no_flights(alloc, nodes.groups.len())?;
    let mut row = row_of_none(alloc, nodes.items.len())?;
    for (number, step) in steps.iter().enumerate() {
        make(&mut row, step);
        climb_by(alloc, nodes, &places, &row, number, step, &mut flights)?;
    }
    Ok(flights)
}
