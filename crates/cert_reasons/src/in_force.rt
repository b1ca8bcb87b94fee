//! The lists of one issuer that are in force, with the serial numbers that they revoke in order:
//! made once, and asked for one certificate after the other (RFC 5280, 5 and 6.3.3).

ghost use Rattle.std.specs.Prelude.{◌≡◌, ℕ, List, Contains, IfOk};
ghost use Rattle.std.specs.List.Sorted.{IsStrictlyIncreasing};
ghost use Rattle.jiff_core.specs.declared.civil.datetime.DateTime.{DateTime};
ghost use Rattle.cert_graph.specs.Entries.{IsAt};
ghost use Rattle.cert_judge.specs.Items.{IsListWith};
ghost use Rattle.cert_reasons.specs.Listed.{ArePlaces, IsOf, IsInForceAt, HasSerialAt};
ghost use Rattle.cert_reasons.specs.InForce.{AreListsInForce};

use crate::listed::in_force_among;
use crate::rows::{places_with, rows_of};
use cert_judge::{Policy, ReadItem};
use std::alloc::{AllocError, Global};
use std::collections::BTreeSet;

/// The lists of one issuer among some items that are in force at a moment, and which of them have
/// an entry of which serial number.
///
/// Made once for all certificates of an issuer, it gives each of them its
/// [`Linking`](crate::Linking) for a look-up.
#[derive(Drop)]
pub struct ListsInForce<'a> {
    places: Vec<usize>,
    rows: BTreeSet<(&'a [u8], usize)>,
}

impl<'a> ListsInForce<'a> {
    /// The lists of an issuer, given by its whole Name element, by those at some places of the
    /// items: all places will do.
    ///
    /// The only error is out of memory. It costs one pass over the entries of each list of the
    /// issuer and a sort of their serial numbers.
    pub fn new(
        alloc: Global,
        items: &[ReadItem<'a>],
        places: &[usize],
        issuer: &[u8],
        policy: &Policy,
    ) -> Result<ListsInForce<'a>, AllocError>
        requires ascends { IsStrictlyIncreasing places.now }
        requires complete { (p : ℕ) → IsAt items.now p (IsListWith (IsOf issuer.now)) → Contains places.now p }
        ensures { IfOk result (AreListsInForce items.now policy.now.moment issuer.now) }
    {
        let moment = policy.moment();
        let places = in_force_among(alloc, items, places, &moment, issuer)?;
        let rows = rows_of(alloc, items, &places)?;
        Ok(ListsInForce { places, rows })
    }

    /// Their places, in ascending order.
    pub(crate) fn places(&self) -> &[usize]
        ensures { result.now ≡ self.now.places.items }
    {
        self.places.as_slice()
    }

    /// Of these lists of some items, those that have an entry of a serial number.
    pub(crate) fn revoking(
        &self,
        alloc: Global,
        _items: &[ReadItem<'_>],
        serial: &'a [u8],
    ) -> Result<Vec<usize>, AllocError>
        ensures { (moment : DateTime) (name : List ℕ) → AreListsInForce _items.now moment name self.now
            → IfOk result (λ found. ArePlaces (λ p. IsInForceAt _items.now moment name p × HasSerialAt _items.now serial.now p) found.items) }
    {
        let found = places_with(alloc, &self.rows, serial)?;
        Ok(found)
    }
}
