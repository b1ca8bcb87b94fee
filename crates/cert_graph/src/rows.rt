//! Inequalities of a row: with path length constraints, and with the row before it.

ghost use Rattle.std.specs.Prelude.{ℕ, ◌↔◌, IsTrue, All, Any};
ghost use Rattle.cert_graph.specs.Reach.{Takes};
ghost use Rattle.cert_graph.specs.Groups.{HoldsLimit, HoldsLimits, HoldsEachLimit, IsOffered, HoldsPassed, HoldsAllPassed, FollowsRow, IsOpenBelow, HasOpenBelow};

use crate::{Group, Nodes, Reach, reach_at};

#[tactic(auto, unfolding(crate::specs::Groups::HoldsLimit))]
fn holds_limit(nodes: &Nodes, row: &[Reach], position: usize) -> bool
    ensures { IsTrue result ↔ HoldsLimit nodes.now row.now position }
{
    if !nodes.is_fit(position) {
        return true;
    }
    nodes.limit(position).is_at_most(reach_at(row, position))
}

#[tactic(auto, unfolding(crate::specs::Groups::HoldsLimits))]
fn holds_limits(nodes: &Nodes, row: &[Reach], group: &Group) -> bool
    ensures { IsTrue result ↔ HoldsLimits nodes.now row.now group.now }
{
    if group.anchors.is_empty() {
        return true;
    }
    group
        .issued
        .iter()
        .all(|position| holds_limit(nodes, row, *position))
}

/// Returns whether a row holds at least its limit at each fit position that is linked to an anchor.
#[tactic(auto, unfolding(crate::specs::Groups::HoldsEachLimit))]
pub fn holds_each_limit(nodes: &Nodes, row: &[Reach]) -> bool
    ensures { IsTrue result ↔ HoldsEachLimit nodes.now row.now }
{
    nodes
        .groups
        .iter()
        .all(|group| holds_limits(nodes, row, group))
}

/// Returns the furthest that a row reaches at a fit one of some positions.
pub fn best_of(nodes: &Nodes, row: &[Reach], positions: &[usize]) -> Reach
    ensures { (c : ℕ) → Takes result c ↔ IsOffered nodes.now row.now positions.now c }
{
    let mut best = Reach::No;
    for position in positions {
        if nodes.is_fit(*position) {
            best = best.greater(reach_at(row, *position));
        }
    }
    best
}

#[tactic(auto, unfolding(crate::specs::Groups::HoldsPassed))]
fn holds_passed(nodes: &Nodes, row: &[Reach], reach: Reach, position: usize) -> bool
    ensures { IsTrue result ↔ HoldsPassed nodes.now row.now reach position }
{
    if !nodes.is_fit(position) {
        return true;
    }
    let passed = reach.passed_by(nodes.is_self_issued(position));
    let bound = nodes.limit(position).lesser(passed);
    bound.is_at_most(reach_at(row, position))
}

fn hold_passed(nodes: &Nodes, row: &[Reach], reach: Reach, positions: &[usize]) -> bool
    ensures { IsTrue result ↔ All (HoldsPassed nodes.now row.now reach) positions.now }
{
    positions
        .iter()
        .all(|position| holds_passed(nodes, row, reach, *position))
}

pub(crate) fn holds_all_passed(nodes: &Nodes, row: &[Reach], next: &[Reach], group: &Group) -> bool
    ensures { IsTrue result ↔ HoldsAllPassed nodes.now row.now next.now group.now }
{
    let best = best_of(nodes, row, &group.members);
    hold_passed(nodes, next, best, &group.issued)
}

/// Returns whether a row holds, at each fit position, at least what each link to a fit position
/// passes on of what another row holds there.
#[tactic(auto, unfolding(crate::specs::Groups::FollowsRow))]
pub fn follows_row(nodes: &Nodes, row: &[Reach], next: &[Reach]) -> bool
    ensures { IsTrue result ↔ FollowsRow nodes.now row.now next.now }
{
    nodes
        .groups
        .iter()
        .all(|group| holds_all_passed(nodes, row, next, group))
}

#[tactic(auto, unfolding(crate::specs::Groups::IsOpenBelow))]
fn is_open_below(nodes: &Nodes, row: &[Reach], count: usize, bound: usize, position: usize) -> bool
    ensures { IsTrue result ↔ IsOpenBelow nodes.now row.now count bound position }
{
    if position >= bound {
        return false;
    }
    if !nodes.is_fit(position) {
        return false;
    }
    reach_at(row, position).takes(count)
}

#[tactic(auto, unfolding(crate::specs::Groups::HasOpenBelow))]
fn has_open_below(
    nodes: &Nodes,
    row: &[Reach],
    certificate: usize,
    count: usize,
    bound: usize,
    group: &Group,
) -> bool
    ensures { IsTrue result ↔ HasOpenBelow nodes.now row.now certificate count bound group.now }
{
    if !group.has_issued(certificate) {
        return false;
    }
    group.members.iter().any(|position| is_open_below(nodes, row, count, bound, *position))
}

/// Returns whether some fit position below a bound is linked from a certificate and takes a count
/// by a row.
pub fn may_take_below(
    nodes: &Nodes,
    row: &[Reach],
    certificate: usize,
    count: usize,
    bound: usize,
) -> bool
    ensures { IsTrue result ↔ Any (HasOpenBelow nodes.now row.now certificate count bound) nodes.now.groups.items }
{
    nodes.groups.iter().any(|group| has_open_below(nodes, row, certificate, count, bound, group))
}
