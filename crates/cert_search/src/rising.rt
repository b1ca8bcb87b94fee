//! One round of the search: a row is raised from the one before it, if an offer rose.

ghost use Rattle.std.specs.Prelude.{◌≡◌, ℕ, ◌<◌, ◌⊎◌, ◌↔◌, [], length, map, replicate, All, Contains, IfOk, IfSome, IsTrue, OnOk, List};
ghost use Rattle.cert_graph.specs.declared.reach.Reach.TheVariants.{No};
ghost use Rattle.cert_graph.specs.Reach.{Takes};
ghost use Rattle.cert_graph.specs.Adequate.{at_row, changed};
ghost use Rattle.cert_graph.specs.Nodes.{graph_of};
ghost use Rattle.cert_search.specs.Rows.{IsRaisedBy, GroupOffers};
ghost use Rattle.cert_graph.specs.declared.nodes.Group.{Group};
ghost use Rattle.cert_search.specs.Rising.{IsGroup, ArePlaces, AreRaised, HaveRisen, ChangeTakes, MemberTakes, LetsThrough, AreHanded, AreBests, IsRising, IsRound, IsBegun};

use crate::offers::{offer_of, raised_at};
use crate::places::{Places, anchored_of};
use cert_graph::{Change, Nodes, Reach, reach_at};
use std::alloc::{AllocError, Global};

/// A search between two rounds: a row, and what is kept to raise the next from it.
#[derive(Drop)]
pub(crate) struct Rising {
    /// The row.
    pub row: Vec<Reach>,

    /// What the row lets each item go on to.
    pub offers: Vec<Reach>,

    /// What each group may offer to all that it issued.
    pub bests: Vec<Reach>,

    /// What each group has offered to all that it issued.
    pub handed: Vec<Reach>,

    /// The positions whose offer rose last. At all others the next row is equal to this one.
    pub risen: Vec<usize>,
}

/// Raises a row to a reach at some positions, and adds those where it rose to a list.
fn raise_to(
    positions: &[usize],
    reach: Reach,
    row: &mut [Reach],
    risen: &mut Vec<usize>,
) -> Result<(), AllocError>
    requires { All (λ v. v < length row.old) positions.now }
    ensures raised { OnOk result (AreRaised row.old row.new (λ v c. Contains positions.now v × Takes reach c)) }
    ensures risen { OnOk result (HaveRisen row.old row.new risen.old.items risen.new.items) }
{
    for position in positions {
        if !reach.is_at_most(row[*position]) {
            row[*position] = reach;
            risen.push(*position)?;
        }
    }
    Ok(())
}

/// Makes a row the next one, and returns where it changed. It is looked at only where an offer
/// rose.
fn raise_row(
    alloc: Global,
    nodes: &Nodes,
    offers: &[Reach],
    risen: &[usize],
    row: &mut [Reach],
) -> Result<Vec<Change>, AllocError>
    requires within { All (λ v. v < length row.old) risen.now }
    requires below { (v c : ℕ) → Takes (at_row row.old v) c → LetsThrough (graph_of nodes.now) offers.now v c }
    requires fresh { (v : ℕ) → Contains risen.now v ⊎ ((c : ℕ) → LetsThrough (graph_of nodes.now) offers.now v c → Takes (at_row row.old v) c) }
    ensures raised { IfOk result (λ changes. IsRaisedBy (graph_of nodes.now) offers.now row.new) }
    ensures changed { IfOk result (λ changes. changed row.old changes.items ≡ row.new) }
    ensures taken { IfOk result (λ changes. AreRaised row.old row.new (ChangeTakes changes.items)) }
{
    let mut changes = Vec::new(alloc);
    for v in risen {
        let reach = raised_at(nodes, *v, reach_at(offers, *v));
        if !reach.is_at_most(row[*v]) {
            row[*v] = reach;
            changes.push(Change {
                position: *v,
                reach,
            })?;
        }
    }
    Ok(changes)
}

/// Raises what each group may offer by the changes of its members, and returns the groups where it
/// rose.
fn raise_bests(
    alloc: Global,
    places: &[Places],
    changes: &[Change],
    bests: &mut [Reach],
) -> Result<Vec<usize>, AllocError>
    requires { All (λ groups. All (λ k. k < length bests.old) groups.items) places.now }
    ensures raised { IfOk result (λ groups. AreRaised bests.old bests.new (MemberTakes (map (λ l. l.items) places.now) changes.now)) }
    ensures risen { IfOk result (λ groups. HaveRisen bests.old bests.new [] groups.items) }
{
    let mut groups = Vec::new(alloc);
    for change in changes {
        if change.position < places.len() {
            raise_to(&places[change.position], change.reach, bests, &mut groups)?;
        }
    }
    Ok(groups)
}

/// Raises what each group may offer to what it offers by a row, and returns the groups where it
/// rose.
fn raise_all_bests(
    alloc: Global,
    nodes: &Nodes,
    row: &[Reach],
    bests: &mut [Reach],
) -> Result<Vec<usize>, AllocError>
    requires whole { length bests.old ≡ length nodes.now.groups.items }
    requires below { (k : ℕ) (group : Group) → IsGroup nodes.now k group → (c : ℕ) → Takes (at_row bests.old k) c → GroupOffers nodes.now row.now group c }
    ensures bests { IfOk result (λ groups. AreBests nodes.now row.now bests.new) }
    ensures grown { IfOk result (λ groups. (k c : ℕ) → Takes (at_row bests.old k) c → Takes (at_row bests.new k) c) }
    ensures risen { IfOk result (λ groups. HaveRisen bests.old bests.new [] groups.items) }
{
    let mut groups = Vec::new(alloc);
    for (place, group) in nodes.groups.iter().enumerate() {
        let best = offer_of(nodes, row, group);
        if !best.is_at_most(bests[place]) {
            bests[place] = best;
            groups.push(place)?;
        }
    }
    Ok(groups)
}

/// Raises what each group may offer to what it offers by the next row, and returns the groups where
/// it rose. If no places are noted it looks at all members of all groups.
fn next_bests(
    alloc: Global,
    nodes: &Nodes,
    places: &Option<Vec<Places>>,
    row: &[Reach],
    changes: &[Change],
    bests: &mut [Reach],
) -> Result<Vec<usize>, AllocError>
    requires whole { length bests.old ≡ length nodes.now.groups.items }
    requires places { IfSome places.now (λ known. ArePlaces nodes.now (map (λ l. l.items) known.items)) }
    requires changed { (last : List Reach) × AreBests nodes.now last bests.old × AreRaised last row.now (ChangeTakes changes.now) }
    ensures bests { IfOk result (λ groups. AreBests nodes.now row.now bests.new) }
    ensures grown { IfOk result (λ groups. (k c : ℕ) → Takes (at_row bests.old k) c → Takes (at_row bests.new k) c) }
    ensures risen { IfOk result (λ groups. HaveRisen bests.old bests.new [] groups.items) }
{
    match places {
        Some(known) => raise_bests(alloc, known, changes, bests),
        None => raise_all_bests(alloc, nodes, row, bests),
    }
}

/// Passes on what some groups may offer to all that they issued, and returns the positions whose
/// offer rose. A group that is listed twice passes on once.
fn hand_on(
    alloc: Global,
    nodes: &Nodes,
    bests: &[Reach],
    groups: &[usize],
    handed: &mut [Reach],
    offers: &mut [Reach],
) -> Result<Vec<usize>, AllocError>
    requires within { All (λ k. k < length nodes.now.groups.items) groups.now }
    requires whole { length handed.old ≡ length nodes.now.groups.items }
    requires offers_whole { length offers.old ≡ length nodes.now.items.items }
    requires below { (k c : ℕ) → Takes (at_row handed.old k) c → Takes (at_row bests.now k) c }
    requires listed { (k : ℕ) → Contains groups.now k ⊎ ((c : ℕ) → Takes (at_row bests.now k) c → Takes (at_row handed.old k) c) }
    requires handed { AreHanded nodes.now handed.old offers.old }
    ensures handed { IfOk result (λ risen. AreHanded nodes.now handed.new offers.new) }
    ensures all_handed { IfOk result (λ risen. (k c : ℕ) → Takes (at_row handed.new k) c ↔ Takes (at_row bests.now k) c) }
    ensures grown { IfOk result (λ risen. (v c : ℕ) → Takes (at_row offers.old v) c → Takes (at_row offers.new v) c) }
    ensures risen { IfOk result (λ risen. HaveRisen offers.old offers.new [] risen.items) }
{
    let mut risen = Vec::new(alloc);
    for place in groups {
        let best = reach_at(bests, *place);
        if !best.is_at_most(handed[*place]) {
            handed[*place] = best;
            raise_to(&nodes.groups[*place].issued, best, offers, &mut risen)?;
        }
    }
    Ok(risen)
}

/// A row of nothing.
fn nothing(alloc: Global, count: usize) -> Result<Vec<Reach>, AllocError>
    ensures { IfOk result (λ row. row.items ≡ replicate count No) }
{
    vec![in alloc; Reach::No; count]
}

/// The search before its first round: a row of nothing, and what anchors offer.
pub(crate) fn begin(alloc: Global, nodes: &Nodes) -> Result<Rising, AllocError>
    ensures { IfOk result (IsBegun nodes.now) }
{
    let anchored = anchored_of(alloc, nodes)?;
    let mut bests = nothing(alloc, nodes.groups.len())?;
    let mut groups = Vec::new(alloc);
    raise_to(&anchored, Reach::Any, &mut bests, &mut groups)?;
    let mut handed = nothing(alloc, nodes.groups.len())?;
    let mut offers = nothing(alloc, nodes.items.len())?;
    let row = nothing(alloc, nodes.items.len())?;
    let risen = hand_on(alloc, nodes, &bests, &groups, &mut handed, &mut offers)?;
    Ok(Rising {
        row,
        offers,
        bests,
        handed,
        risen,
    })
}

/// One round: the row becomes the next one, by the changes that are returned. It needs no places,
/// but without them it goes over all groups.
pub(crate) fn rise(
    alloc: Global,
    nodes: &Nodes,
    places: &Option<Vec<Places>>,
    search: &mut Rising,
) -> Result<Vec<Change>, AllocError>
    requires places { IfSome places.now (λ known. ArePlaces nodes.now (map (λ l. l.items) known.items)) }
    requires rising { IsRising nodes.now search.old }
    ensures { IfOk result (λ changes. IsRound nodes.now search.old search.new changes.items) }
{
    let changes = raise_row(alloc, nodes, &search.offers, &search.risen, &mut search.row)?;
    let groups = next_bests(
        alloc,
        nodes,
        places,
        &search.row,
        &changes,
        &mut search.bests,
    )?;
    search.risen = hand_on(
        alloc,
        nodes,
        &search.bests,
        &groups,
        &mut search.handed,
        &mut search.offers,
    )?;
    Ok(changes)
}

/// Whether an offer rose in the last round: if none did, the row is its own successor.
pub(crate) fn has_risen(search: &Rising) -> bool
    ensures { IsTrue result ↔ (0 < length search.now.risen.items) }
{
    !search.risen.is_empty()
}
