//! The certificates of one name: as ranges of positions, and by their key identifiers. They are
//! brought together once for each name that several have, so that the lines of a certificate cost
//! what is particular to it: whose keys vouch for it, and whose key identifiers are the one that it
//! names.

ghost use Rattle.std.specs.Prelude.{◌≡◌, ◌↔◌, ◌<◌, ℕ, List, length, map, slice_index_or, Contains, IfOk, IfSome, IsTrue, OnOk};
ghost use Rattle.std.specs.List.Sorted.{IsStrictlyIncreasing};
ghost use Rattle.cert_judge.specs.Items.{item_of};
ghost use Rattle.cert_judge.specs.declared.items.ReadItem.{ReadItem};
ghost use Rattle.certpath_why.specs.Found.{IsFound};
ghost use Rattle.certpath_why.specs.Directories.{IsDirectory};
ghost use Rattle.certpath_why.specs.Named.{id_place, own_id, AreByName, AreGathered, AreIssuers, AreNamed, HasId, IsOwnId};
ghost use Rattle.certpath_why.specs.Reached.{ArePositions, HasSubject};

use crate::directory::Directory;
use crate::found::{Found, certificate_at};
use crate::positions::put_in_order;
use crate::ranges::{Range, ranges_of};
use cert_graph::Place;
use cert_judge::ReadItem;
use std::alloc::{AllocError, Global};
use std::collections::BTreeMap;

/// Certificates of one name, by their key identifiers.
#[derive(Drop)]
pub(crate) struct Issuers<'a> {
    /// Their positions, in ascending order.
    pub(crate) places: Vec<usize>,
    /// All of them.
    pub(crate) all: Vec<Range>,
    /// Those that have a key identifier (RFC 5280, 4.2.1.2).
    pub(crate) keyed: Vec<Range>,
    /// Their numbers among the positions, by their key identifiers.
    pub(crate) by_id: Directory<'a>,
    /// Those that have none, in ascending order.
    pub(crate) bare: Vec<usize>,
    /// These as ranges.
    pub(crate) bare_ranges: Vec<Range>,
}

/// The certificates of some names.
#[derive(Drop)]
pub(crate) struct IssuersByName<'a> {
    pub(crate) by_name: BTreeMap<&'a [u8], Issuers<'a>>,
}

/// The certificates of the names of issuers.
#[derive(Drop)]
pub(crate) struct Named<'a> {
    /// Among the items.
    pub(crate) issuers: IssuersByName<'a>,
    /// Among the anchors.
    pub(crate) roots: IssuersByName<'a>,
}

/// The key identifier that the certificate at a position says to be its own.
fn own_id<'a>(items: &[ReadItem<'a>], place: usize) -> Option<&'a [u8]>
    ensures { result ≡ own_id items.now place }
{
    match items.get(place) {
        Some(ReadItem::Certificate(certificate)) => certificate.subject_key_id,
        _ => None,
    }
}

fn has_id(items: &[ReadItem<'_>], place: usize) -> bool
    ensures { IsTrue result ↔ HasId items.now place }
{
    match own_id(items, place) {
        Some(_) => true,
        None => false,
    }
}

/// Returns the place of the certificate at a position by its key identifier.
fn id_place<'a>(items: &[ReadItem<'a>], place: usize) -> Place<'a>
    ensures { result ≡ id_place items.now place }
{
    Place {
        name: own_id(items, place),
        key: None,
        id: None,
    }
}

/// The certificates at some positions by their key identifiers.
fn id_places<'a>(
    alloc: Global,
    items: &[ReadItem<'a>],
    places: &[usize],
) -> Result<Vec<Place<'a>>, AllocError>
    ensures { IfOk result (λ found. found.items ≡ map (id_place items.now) places.now) }
{
    let mut found = Vec::with_capacity(alloc, places.len())?;
    for place in places {
        found.push(id_place(items, *place))?;
    }
    Ok(found)
}

/// Those of some positions at which a certificate has a key identifier.
fn keyed_among(
    alloc: Global,
    items: &[ReadItem<'_>],
    places: &[usize],
) -> Result<Vec<usize>, AllocError>
    requires { IsStrictlyIncreasing places.now }
    ensures { IfOk result (λ found. ArePositions (λ w. Contains places.now w × HasId items.now w) found.items) }
{
    let mut found = Vec::new(alloc);
    for place in places {
        if !has_id(items, *place) {
            continue;
        }
        found.push(*place)?;
    }
    Ok(found)
}

/// Those of some positions at which no certificate has a key identifier.
fn bare_among(
    alloc: Global,
    items: &[ReadItem<'_>],
    places: &[usize],
) -> Result<Vec<usize>, AllocError>
    requires { IsStrictlyIncreasing places.now }
    ensures { IfOk result (λ found. ArePositions (λ w. Contains places.now w × (HasId items.now w → ⊥)) found.items) }
{
    let mut found = Vec::new(alloc);
    for place in places {
        if has_id(items, *place) {
            continue;
        }
        found.push(*place)?;
    }
    Ok(found)
}

/// The positions of some numbers, in ascending order.
fn positions_of(
    alloc: Global,
    places: &[usize],
    numbers: &[usize],
) -> Result<Vec<usize>, AllocError>
    ensures { IfOk result (λ found. ArePositions (λ w. (i : ℕ) × Contains numbers.now i × (i < length places.now) × (slice_index_or places.now i 0 ≡ w)) found.items) }
{
    let mut found = Vec::new(alloc);
    for number in numbers {
        let at = *number;
        if at >= places.len() {
            continue;
        }
        found.push(places[at])?;
    }
    put_in_order(&mut found)?;
    Ok(found)
}

impl<'a> Issuers<'a> {
    /// The certificates at some positions. It costs a sort of their key identifiers.
    pub(crate) fn new(
        alloc: Global,
        items: &[ReadItem<'a>],
        places: &[usize],
    ) -> Result<Issuers<'a>, AllocError>
        requires { IsStrictlyIncreasing places.now }
        ensures { IfOk result (AreGathered items.now (Contains places.now)) }
    {
        let all = ranges_of(alloc, places)?;
        let with_id = keyed_among(alloc, items, places)?;
        let keyed = ranges_of(alloc, &with_id)?;
        let shown = id_places(alloc, items, places)?;
        let by_id = Directory::new(alloc, &shown)?;
        let bare = bare_among(alloc, items, places)?;
        let bare_ranges = ranges_of(alloc, &bare)?;
        let mut own = Vec::new(alloc);
        own.extend_from_slice(places)?;
        Ok(Issuers {
            places: own,
            all,
            keyed,
            by_id,
            bare,
            bare_ranges,
        })
    }

    /// The positions of those that have this key identifier.
    pub(crate) fn with_id(&self, alloc: Global, id: &'a [u8]) -> Result<Vec<usize>, AllocError>
        ensures ascends { IfOk result (λ found. IsStrictlyIncreasing found.items) }
        ensures exact { (items : List ReadItem) → IsDirectory (map (id_place items) self.now.places.items) self.now.by_id.buckets.items
            → IfOk result (λ found. ArePositions (λ w. Contains self.now.places.items w × IsOwnId items id.now w) found.items) }
    {
        let numbers = self.by_id.positions(id);
        let found = positions_of(alloc, &self.places, numbers)?;
        Ok(found)
    }
}

impl<'a> IssuersByName<'a> {
    /// Adds the certificates of a name, if there are several, and they aren't there yet.
    fn add(
        &mut self,
        alloc: Global,
        items: &[ReadItem<'a>],
        places: &[usize],
        name: &'a [u8],
    ) -> Result<(), AllocError>
        requires places { ArePositions (HasSubject (map item_of items.now) name.now) places.now }
        requires before { AreByName items.now self.old }
        ensures { OnOk result (AreByName items.now self.new) }
    {
        if places.len() < 2 || self.by_name.contains_key(name) {
            return Ok(());
        }
        let issuers = Issuers::new(alloc, items, places)?;
        self.by_name.insert(name, issuers)?;
        Ok(())
    }

    /// The certificates of a name, if it is one of these.
    pub(crate) fn of(&self, name: &[u8]) -> Option<&Issuers<'a>>
        ensures { (items : List ReadItem) → AreByName items self.now → IfSome result (λ issuers. AreIssuers items name.now issuers.now) }
    {
        self.by_name.get(name)
    }
}

impl<'a> Named<'a> {
    /// Adds the certificates of the name of the issuer of the certificate at a position.
    fn add_at(
        &mut self,
        alloc: Global,
        found: &Found<'_, 'a>,
        place: usize,
    ) -> Result<(), AllocError>
        requires known { IsFound found.now }
        requires before { AreNamed found.now self.old }
        ensures { OnOk result (AreNamed found.now self.new) }
    {
        let Some(certificate) = certificate_at(found.items, place) else {
            return Ok(());
        };
        let name = certificate.issuer;
        let issuers = found.issuers(name);
        self.issuers.add(alloc, found.items, issuers, name)?;
        let roots = found.roots(name);
        self.roots.add(alloc, found.anchors, roots, name)?;
        Ok(())
    }

    /// The certificates of the names of the issuers of the target and of further certificates. It
    /// costs a sort of the key identifiers of each name.
    pub(crate) fn new(
        alloc: Global,
        found: &Found<'_, 'a>,
        target: usize,
        further: &[usize],
    ) -> Result<Named<'a>, AllocError>
        requires { IsFound found.now }
        ensures { IfOk result (AreNamed found.now) }
    {
        let mut named = Named {
            issuers: IssuersByName {
                by_name: BTreeMap::new(alloc),
            },
            roots: IssuersByName {
                by_name: BTreeMap::new(alloc),
            },
        };
        named.add_at(alloc, found, target)?;
        for place in further {
            named.add_at(alloc, found, *place)?;
        }
        Ok(named)
    }
}
