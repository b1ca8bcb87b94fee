//! Which certificates were issued under a name and key, and are left valid by the lists there.

ghost use Rattle.std.specs.Prelude.{◌≡◌, ◌↔◌, ℕ, Bool, List, [], Any, All, true, length, ◌<◌, slice_index_or, Contains, IsTrue, IfSome, IsNone, IfOk};
ghost use Rattle.cert_graph.specs.Entries.{IsAt};
ghost use Rattle.cert_judge.specs.declared.judged.JudgedItem.TheVariants.{List as list_judged};
ghost use Rattle.std.specs.Borrow.{Bor};
ghost use Rattle.std.specs.BTreeSet as sorted;
ghost use Rattle.std.specs.List.Sorted.{IsStrictlyIncreasing};
ghost use Rattle.cert_judge.specs.Serials.{IfCertificate, HasEqual, AreSetsAt, AreAsked};
ghost use Rattle.cert_judge.specs.Copies.{places_at};
ghost use Rattle.cert_judge.specs.Standing.{anything, WithCertificate, IsUsedBy, IsUsedAt, IsUsedAgainstAt, IsIssuedAt, IsIssuedBeside};

use crate::judged::{JudgedItem, JudgedList};
use crate::serials::{add_list, set_of};
use std::alloc::{AllocError, Global};
use std::collections::{BTreeMap, BTreeSet};

/// A list of no more entries is gone over once for each key that vouches for it.
const FEW_ENTRIES: usize = 16;

/// What lists say.
#[derive(Drop)]
struct Standing<'a> {
    /// There is one that is in force.
    listed: bool,
    /// The serial numbers in those: of the ones that are asked about, each.
    revoked: BTreeSet<&'a [u8]>,
}

fn used_list<'b, 'a>(items: &'b [JudgedItem<'a>], place: usize) -> Option<&'b JudgedList<'a>>
    ensures found { IfSome result (λ l. IsAt items.now place (λ j. j ≡ list_judged l.now) × IsUsedBy anything [] l.now) }
    ensures only { IsNone result → IsUsedAt anything items.now [] place → ⊥ }
{
    match items.get(place) {
        Some(JudgedItem::List(list)) => { if list.in_force { Some(list) } else { None } }
        _ => None,
    }
}

/// The serial numbers of the longer lists in force among some items, by the lists' places.
pub(crate) fn long_lists<'a>(
    alloc: Global,
    items: &[JudgedItem<'a>],
    places: &[usize],
) -> Result<BTreeMap<usize, BTreeSet<&'a [u8]>>, AllocError>
    ensures { IfOk result (AreSetsAt items.now) }
{
    let mut sets = BTreeMap::new(alloc);
    for place in places {
        if let Some(list) = used_list(items, *place) {
            if list.serials.len() > FEW_ENTRIES {
                let set = set_of(alloc, &list.serials)?;
                sets.insert(*place, set)?;
            }
        }
    }
    Ok(sets)
}

fn serial_at<'a>(items: &[JudgedItem<'a>], place: usize) -> Option<&'a [u8]>
    ensures found { IfSome result (λ s. IsAt items.now place (WithCertificate (λ c. c.serial ≡ s))) }
    ensures only { IsNone result → IsAt items.now place (WithCertificate (λ c. Unit {0})) → ⊥ }
{
    match items.get(place) {
        Some(JudgedItem::Certificate(certificate)) => Some(certificate.serial),
        _ => None,
    }
}

/// The serial numbers of the certificates among some items.
fn asked_of<'a>(
    alloc: Global,
    items: &[JudgedItem<'a>],
    places: &[usize],
) -> Result<Vec<&'a [u8]>, AllocError>
    ensures { IfOk result (λ asked. AreAsked items.now places.now asked.items) }
{
    let mut asked = Vec::new(alloc);
    for place in places {
        if let Some(serial) = serial_at(items, *place) {
            asked.push(serial)?;
        }
    }
    Ok(asked)
}

/// What the lists among some items say of the serial numbers that are asked about.
fn standing_of<'a>(
    alloc: Global,
    items: &[JudgedItem<'a>],
    long: &BTreeMap<usize, BTreeSet<&'a [u8]>>,
    places: &[usize],
    asked: &[&'a [u8]],
) -> Result<Standing<'a>, AllocError>
    requires { AreSetsAt items.now long.now }
    ensures listed { IfOk result (λ standing. IsTrue standing.listed ↔ Any (IsUsedAt anything items.now []) places.now) }
    ensures revoked { IfOk result (λ standing. (s : Bor (List ℕ)) → HasEqual s.now asked.now
        → IsTrue (sorted.contains ⟦<&'a [u8] as Ord>⟧.cmp standing.revoked s) ↔ Any (IsUsedAgainstAt anything items.now [] s.now) places.now) }
{
    let mut standing = Standing {
        listed: false,
        revoked: BTreeSet::new(alloc),
    };
    for place in places {
        if let Some(list) = used_list(items, *place) {
            standing.listed = true;
            add_list(&mut standing.revoked, &list.serials, long.get(place), asked)?;
        }
    }
    Ok(standing)
}

fn is_issued(items: &[JudgedItem<'_>], place: usize, standing: &Standing<'_>) -> bool
    ensures { IsTrue result ↔ IsIssuedBeside anything standing.now.revoked items.now [] place }
{
    match items.get(place) {
        Some(JudgedItem::Certificate(certificate)) => {
            !standing.revoked.contains(certificate.serial)
        }
        _ => false,
    }
}

/// The places of some numbers.
fn places_at(alloc: Global, firsts: &[usize], numbers: &[usize]) -> Result<Vec<usize>, AllocError>
    requires { All (λ d. d < length firsts.now) numbers.now }
    ensures { IfOk result (λ places. places.items ≡ places_at firsts.now numbers.now) }
{
    let mut places = Vec::with_capacity(alloc, numbers.len())?;
    for number in numbers {
        places.push(firsts[*number])?;
    }
    Ok(places)
}

/// Of items that a key vouches for, the certificates that the lists among them leave valid, each by
/// the number of its place.
pub(crate) fn issued_under<'a>(
    alloc: Global,
    items: &[JudgedItem<'a>],
    long: &BTreeMap<usize, BTreeSet<&'a [u8]>>,
    firsts: &[usize],
    numbers: &[usize],
    demand_lists: bool,
) -> Result<Vec<usize>, AllocError>
    requires ascends { IsStrictlyIncreasing numbers.now }
    requires within { All (λ d. d < length firsts.now) numbers.now }
    requires sets { AreSetsAt items.now long.now }
    ensures { IfOk result (λ found. (d : ℕ) → Contains found.items d ↔ (Contains numbers.now d × IsIssuedAt anything demand_lists items.now (places_at firsts.now numbers.now) [] (slice_index_or firsts.now d 0))) }
{
    let places = places_at(alloc, firsts, numbers)?;
    let asked = asked_of(alloc, items, &places)?;
    let standing = standing_of(alloc, items, long, &places, &asked)?;
    let mut found = Vec::new(alloc);
    if demand_lists && !standing.listed {
        return Ok(found);
    }
    for number in numbers {
        if is_issued(items, firsts[*number], &standing) {
            found.push(*number)?;
        }
    }
    Ok(found)
}
