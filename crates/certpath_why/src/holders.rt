//! Certificates brought together by subject and key, and which of these keys vouch for which
//! octets: so equal keys and equal octets are asked about once, and are kept once.

ghost use Rattle.std.specs.Prelude.{◌≡◌, ◌↔◌, ◌⊎◌, ◌<◌, [], ℕ, List, Vec, length, map, slice_index_or, Contains, IfOk, OnOk, IsTrue};
ghost use Rattle.std.specs.declared.alloc.Global.{Global};
ghost use Rattle.std.specs.Borrow.{Bor};
ghost use Rattle.std.specs.List.Sorted.{IsStrictlyIncreasing};
ghost use Rattle.cert_graph.specs.declared.places.Place.{Place};
ghost use Rattle.certpath_why.specs.Classes.{AreClasses};
ghost use Rattle.certpath_why.specs.Directories.{IsDirectory};
ghost use Rattle.certpath_why.specs.Holders.{IsOfKey, KeysAdded, NameAdded, AreHolders, HasMember, IsInRow, IsInRows, IsNamedAt, IsOfRow};
ghost use Rattle.certpath_why.specs.Reached.{ArePositions};

use crate::classes::{Classes, numbers_at};
use crate::directory::{Directory, numbers_below};
use crate::positions::put_in_order;
use crate::rows::{add_row, row_at};
use cert_graph::lists::empty_lists;
use cert_graph::{Bucket, Part, Place, alike};
use cert_judge::Vouch;
use std::alloc::{AllocError, Global};

/// The certificates of one subject and key.
#[derive(Drop)]
pub(crate) struct Holder<'a> {
    pub(crate) name: &'a [u8],
    pub(crate) key: &'a [u8],
    /// Their positions, in ascending order.
    pub(crate) places: Vec<usize>,
}

/// The holders of all names and keys.
#[derive(Drop)]
pub(crate) struct Holders<'a> {
    pub(crate) all: Vec<Holder<'a>>,
    /// For each number of octets the numbers of the holders whose keys vouch for them.
    pub(crate) rows: Vec<Vec<usize>>,
}

/// Returns the keys of buckets.
fn keys_of<'a>(alloc: Global, buckets: &[Bucket<'a>]) -> Result<Vec<&'a [u8]>, AllocError>
    ensures { IfOk result (λ keys. keys.items ≡ map (λ b. b.text) buckets.now) }
{
    buckets.iter().map(|bucket| bucket.text).collect(alloc)
}

/// Returns the certificates of a name and the key of a bucket.
fn holder_of<'a>(alloc: Global, name: &'a [u8], key: &Bucket<'a>) -> Result<Holder<'a>, AllocError>
    ensures { IfOk result (IsOfKey name.now key.now) }
{
    let mut places = Vec::new(alloc);
    places.extend_from_slice(&key.places)?;
    Ok(Holder {
        name,
        key: key.text,
        places,
    })
}

/// Adds the keys of a name, each to the rows of the octets that it vouches for.
fn add_keys<'a>(
    holders: &mut Holders<'a>,
    alloc: Global,
    name: &'a [u8],
    keys: &[Bucket<'a>],
    found: &[Vec<usize>],
) -> Result<(), AllocError>
    requires { length found.now ≡ length keys.now }
    ensures { OnOk result (KeysAdded name.now keys.now found.now (length keys.now) holders.old holders.new) }
{
    for (number, row) in found.iter().enumerate() {
        let holder = holder_of(alloc, name, &keys[number])?;
        let last = [holders.all.len()];
        add_row(&mut holders.rows, row, &last)?;
        holders.all.push(holder)?;
    }
    Ok(())
}

/// Adds the keys of the members of a name, each to the rows of the chosen octets that it vouches
/// for. The voucher is asked once, with each key once.
fn add_name<'a, V: Vouch>(
    holders: &mut Holders<'a>,
    alloc: Global,
    members: &[Place<'a>],
    name: &Bucket<'a>,
    texts: &[&[u8]],
    chosen: &[usize],
    vouch: &V,
) -> Result<(), AllocError>
    requires places { IsStrictlyIncreasing name.now.places.items }
    requires chosen { IsStrictlyIncreasing chosen.now }
    ensures { OnOk result (NameAdded (V.vouches_for vouch.now).Vouches members.now name.now.text.now name.now.places.items texts.now chosen.now holders.old holders.new) }
{
    let keys = alike(alloc, members, Part::Key, &name.places)?;
    let asked = keys_of(alloc, &keys)?;
    let found = vouch.vouched_by_each(alloc, &asked, texts, chosen)?;
    add_keys(holders, alloc, name.text, &keys, &found)?;
    Ok(())
}

/// The holders of all names and keys of some members, by what the keys vouch for of the items that
/// have the name as their issuer. The voucher is asked once for each name.
pub(crate) fn holders_of<'a, V: Vouch>(
    alloc: Global,
    issuers: &Directory<'a>,
    classes: &Classes<'_>,
    members: &[Place<'a>],
    vouch: &V,
) -> Result<Holders<'a>, AllocError>
    ensures { (issued : List Place) (octets : List (Bor (List ℕ))) → IsDirectory issued issuers.now.buckets.items → AreClasses octets classes.now
        → IfOk result (AreHolders (V.vouches_for vouch.now).Vouches issued members.now octets classes.now (HasMember members.now)) }
{
    let all = numbers_below(alloc, members.len())?;
    let names = alike(alloc, members, Part::Name, &all)?;
    let rows = empty_lists(alloc, classes.texts.len())?;
    let mut holders = Holders {
        all: Vec::new(alloc),
        rows,
    };
    for name in &names {
        let places = issuers.positions(name.text);
        let chosen = numbers_at(alloc, &classes.numbers, places)?;
        add_name(
            &mut holders,
            alloc,
            members,
            name,
            &classes.texts,
            &chosen,
            vouch,
        )?;
    }
    Ok(holders)
}

fn has_none(places: &[usize]) -> bool
    ensures { IsTrue result ↔ (places.now ≡ []) }
{
    places.is_empty()
}

fn has_some(places: &[usize]) -> bool
    ensures { IsTrue result ↔ ((w : ℕ) × Contains places.now w) }
{
    !has_none(places)
}

fn are_both(one: bool, other: bool) -> bool
    ensures { IsTrue result ↔ (IsTrue one × IsTrue other) }
{
    one && other
}

fn is_same(one: &[u8], other: &[u8]) -> bool
    ensures { IsTrue result ↔ (one.now ≡ other.now) }
{
    one == other
}

impl<'a> Holders<'a> {
    /// Adds the positions of a holder, if it has this name.
    fn add_named(
        &self,
        found: &mut Vec<usize>,
        number: usize,
        name: &[u8],
    ) -> Result<(), AllocError>
        requires { number < length self.now.all.items }
        ensures { OnOk result ((w : ℕ) → Contains found.new.items w ↔ (Contains found.old.items w ⊎ IsNamedAt self.now number name.now w)) }
    {
        let holder = &self.all[number];
        if !is_same(holder.name, name) {
            return Ok(());
        }
        found.extend_from_slice(&holder.places)?;
        Ok(())
    }

    /// The positions of the members of a name among some holders, in ascending order: a step for
    /// each, and one for each holder.
    fn members_of(
        &self,
        alloc: Global,
        row: &[usize],
        name: &[u8],
    ) -> Result<Vec<usize>, AllocError>
        requires { (k : ℕ) → Contains row.now k → k < length self.now.all.items }
        ensures { IfOk result (λ found. ArePositions (IsOfRow self.now row.now name.now) found.items) }
    {
        let mut found = Vec::new(alloc);
        for holder in row {
            self.add_named(&mut found, *holder, name)?;
        }
        put_in_order(&mut found)?;
        Ok(found)
    }

    /// The positions of the members of a name whose keys vouch for the octets of a number, in
    /// ascending order: a step for each, and one for each key.
    pub(crate) fn positions(
        &self,
        alloc: Global,
        number: usize,
        name: &[u8],
    ) -> Result<Vec<usize>, AllocError>
        requires number { number < length self.now.rows.items }
        requires within { (k : ℕ) (r : Vec ℕ Global) → Contains (slice_index_or self.now.rows.items number r).items k → k < length self.now.all.items }
        ensures { IfOk result (λ found. ArePositions (IsInRow self.now number name.now) found.items) }
    {
        let row = row_at(&self.rows, number);
        let found = self.members_of(alloc, row, name)?;
        Ok(found)
    }

    /// The holders whose keys vouch for the octets of some numbers, in ascending order.
    fn holders_at(&self, alloc: Global, numbers: &[usize]) -> Result<Vec<usize>, AllocError>
        requires { (c : ℕ) → Contains numbers.now c → c < length self.now.rows.items }
        ensures { IfOk result (λ found. (k : ℕ) → Contains found.items k ↔ IsInRows self.now numbers.now k) }
    {
        let mut found = Vec::new(alloc);
        for number in numbers {
            let row = row_at(&self.rows, *number);
            found.extend_from_slice(row)?;
        }
        put_in_order(&mut found)?;
        Ok(found)
    }

    /// The positions of the members of a name whose keys vouch for the octets of one of some
    /// numbers, in ascending order: a step for each, and one for each number and key.
    pub(crate) fn positions_of_any(
        &self,
        alloc: Global,
        numbers: &[usize],
        name: &[u8],
    ) -> Result<Vec<usize>, AllocError>
        requires numbers { (c : ℕ) → Contains numbers.now c → c < length self.now.rows.items }
        requires within { (c k : ℕ) (r : Vec ℕ Global) → Contains numbers.now c → Contains (slice_index_or self.now.rows.items c r).items k → k < length self.now.all.items }
        ensures { IfOk result (λ found. ArePositions (λ w. (c : ℕ) × Contains numbers.now c × IsInRow self.now c name.now w) found.items) }
    {
        let row = self.holders_at(alloc, numbers)?;
        let found = self.members_of(alloc, &row, name)?;
        Ok(found)
    }

    /// Whether the holder of a number has this name and a position.
    fn has_named(&self, number: usize, name: &[u8]) -> bool
        requires { number < length self.now.all.items }
        ensures { IsTrue result ↔ ((w : ℕ) × IsNamedAt self.now number name.now w) }
    {
        let holder = &self.all[number];
        let same = is_same(holder.name, name);
        let some = has_some(&holder.places);
        are_both(same, some)
    }

    /// Whether a member of a name has a key that vouches for the octets of a number: a step for
    /// each key, up to the first.
    pub(crate) fn has_position(&self, number: usize, name: &[u8]) -> bool
        requires number { number < length self.now.rows.items }
        requires within { (k : ℕ) (r : Vec ℕ Global) → Contains (slice_index_or self.now.rows.items number r).items k → k < length self.now.all.items }
        ensures { IsTrue result ↔ ((w : ℕ) × IsInRow self.now number name.now w) }
    {
        let row = row_at(&self.rows, number);
        for holder in row {
            if self.has_named(*holder, name) {
                return true;
            }
        }
        false
    }
}
