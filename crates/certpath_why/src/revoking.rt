//! The lists in force that have the serial number of a certificate that is reached, as rows of
//! positions (RFC 5280, 6.3.3). They are looked up once for each serial number of an issuer. Equal
//! rows have one number, so that whatever depends on a row is worked out once.

ghost use Rattle.std.specs.Prelude.{◌≡◌, ◌∷◌, ◌<◌, ℕ, List, Contains, IfOk, IfSome, IsNone, OnOk, Some, length, map};
ghost use Rattle.std.specs.Ordering.{nat_cmp};
ghost use Rattle.std.specs.BTreeMap as mapped;
ghost use Rattle.jiff_core.specs.declared.civil.datetime.DateTime.{DateTime};
ghost use Rattle.cert_graph.specs.Entries.{IsAt};
ghost use Rattle.cert_judge.specs.Items.{item_of};
ghost use Rattle.cert_judge.specs.declared.items.CertificateItem.{CertificateItem};
ghost use Rattle.cert_judge.specs.declared.items.ReadItem.{ReadItem};
ghost use Rattle.cert_judge.specs.declared.items.ReadItem.TheVariants.{Certificate as certificate_read};
ghost use Rattle.certpath_why.specs.ByIssuer.{AreByIssuer};
ghost use Rattle.certpath_why.specs.Firsts.{AreFirsts};
ghost use Rattle.certpath_why.specs.Found.{IsFound};
ghost use Rattle.certpath_why.specs.Reached.{ArePositions, IsCertificateAt, IsFurther};
ghost use Rattle.certpath_why.specs.RevokingRows.{AreNumbered, ArePlacesOf, AreReached, AreRevokersOf, AreRevoking, AreRowsKept, HasNumber, IsRowOf};
ghost use Rattle.certpath_why.specs.SerialRows.{AreSerialRows};

use crate::by_issuer::ListsByIssuer;
use crate::firsts::firsts_of;
use crate::found::{Found, certificate_at};
use crate::kinds::push_octets;
use crate::rows::row_at;
use cert_judge::{CertificateItem, Policy};
use std::alloc::{AllocError, Global};
use std::collections::BTreeMap;

/// The lists in force that have a certificate's serial number.
#[derive(Clone, Copy)]
pub(crate) struct Revokers<'r> {
    /// The number that they have as a row.
    pub(crate) number: usize,
    /// Their positions, in ascending order.
    pub(crate) lists: &'r [usize],
}

/// The position of the first list of a certificate's issuer, and the octets of its serial number.
fn serial_key(
    alloc: Global,
    first: usize,
    certificate: &CertificateItem<'_>,
) -> Result<Vec<usize>, AllocError>
    ensures { IfOk result (λ key. key.items ≡ first ∷ certificate.now.fields.serial.now) }
{
    let mut key = Vec::new(alloc);
    key.push(first)?;
    push_octets(&mut key, certificate.fields.serial)?;
    Ok(key)
}

/// The lists in force of a certificate's issuer that have its serial number.
fn lists_of<'a>(
    alloc: Global,
    found: &Found<'_, 'a>,
    lists: &ListsByIssuer<'a>,
    certificate: &CertificateItem<'a>,
    policy: &Policy,
) -> Result<Vec<usize>, AllocError>
    requires known { IsFound found.now }
    requires listed { AreByIssuer found.now.items.now policy.now.moment lists.now }
    ensures { IfOk result (λ row. ArePlacesOf found.now.items.now policy.now.moment certificate.now row.items) }
{
    let linking = found.linking(alloc, lists, certificate, policy)?;
    let mut row = Vec::new(alloc);
    row.extend_from_slice(linking.revoking())?;
    Ok(row)
}

/// Rows by the issuers and serial numbers of certificates. The first row is empty.
#[derive(Drop)]
pub(crate) struct SerialRows {
    pub(crate) rows: Vec<Vec<usize>>,
    pub(crate) by_serial: BTreeMap<Vec<usize>, usize>,
}

impl SerialRows {
    fn new(alloc: Global) -> Result<SerialRows, AllocError>
        ensures { IfOk result (λ serials. (xs : List ReadItem) (moment : DateTime) → AreSerialRows xs moment serials) }
    {
        let mut rows = Vec::new(alloc);
        rows.push(Vec::new(alloc))?;
        Ok(SerialRows {
            rows,
            by_serial: BTreeMap::new(alloc),
        })
    }

    /// The number of the row of a certificate, which is the first one if its issuer has no lists.
    fn number_of<'a>(
        &mut self,
        alloc: Global,
        found: &Found<'_, 'a>,
        lists: &ListsByIssuer<'a>,
        _place: usize,
        certificate: &CertificateItem<'a>,
        policy: &Policy,
    ) -> Result<usize, AllocError>
        requires known { IsFound found.now }
        requires listed { AreByIssuer found.now.items.now policy.now.moment lists.now }
        requires at { IsAt found.now.items.now _place (λ z. z ≡ certificate_read certificate.now) }
        requires rows { AreSerialRows found.now.items.now policy.now.moment self.old }
        ensures rows { OnOk result (AreSerialRows found.now.items.now policy.now.moment self.new) }
        ensures kept { OnOk result (AreRowsKept self.old.rows.items self.new.rows.items) }
        ensures number { IfOk result (IsRowOf found.now.items.now policy.now.moment self.new.rows.items certificate.now) }
    {
        let Some(first) = found.lists(certificate.issuer).first() else {
            return Ok(0);
        };
        let key = serial_key(alloc, *first, certificate)?;
        if let Some(number) = self.by_serial.get(&key) {
            return Ok(*number);
        }
        let row = lists_of(alloc, found, lists, certificate, policy)?;
        let number = self.rows.len();
        self.rows.push(row)?;
        self.by_serial.insert(key, number)?;
        Ok(number)
    }
}

/// Gives the certificate at a position, if there is one, the number of its row.
fn add_at<'a>(
    numbers: &mut BTreeMap<usize, usize>,
    serials: &mut SerialRows,
    alloc: Global,
    found: &Found<'_, 'a>,
    lists: &ListsByIssuer<'a>,
    place: usize,
    policy: &Policy,
) -> Result<(), AllocError>
    requires known { IsFound found.now }
    requires listed { AreByIssuer found.now.items.now policy.now.moment lists.now }
    requires rows { AreSerialRows found.now.items.now policy.now.moment serials.old }
    requires numbered { AreNumbered found.now.items.now policy.now.moment serials.old.rows.items numbers.old }
    ensures rows { OnOk result (AreSerialRows found.now.items.now policy.now.moment serials.new) }
    ensures numbered { OnOk result (AreNumbered found.now.items.now policy.now.moment serials.new.rows.items numbers.new) }
    ensures kept { OnOk result ((p : ℕ) → HasNumber numbers.old p → HasNumber numbers.new p) }
    ensures own { OnOk result (IsCertificateAt (map item_of found.now.items.now) place → HasNumber numbers.new place) }
{
    let Some(certificate) = certificate_at(found.items, place) else {
        return Ok(());
    };
    let number = serials.number_of(alloc, found, lists, place, certificate, policy)?;
    numbers.insert(place, number)?;
    Ok(())
}

/// Rows of lists, and the number of the row of each certificate that is reached.
#[derive(Drop)]
pub(crate) struct RevokingRows {
    pub(crate) rows: Vec<Vec<usize>>,
    /// For each row the number of the first that is equal to it.
    pub(crate) firsts: Vec<usize>,
    /// The numbers of the rows of certificates, by the positions of the certificates.
    pub(crate) numbers: BTreeMap<usize, usize>,
}

impl RevokingRows {
    /// The rows of the target and of further certificates. It costs a look-up of the serial number
    /// of each, what the lists of its issuer are that have it, once, and a sort of these rows.
    pub(crate) fn new<'a>(
        alloc: Global,
        found: &Found<'_, 'a>,
        lists: &ListsByIssuer<'a>,
        target: usize,
        further: &[usize],
        policy: &Policy,
    ) -> Result<RevokingRows, AllocError>
        requires known { IsFound found.now }
        requires listed { AreByIssuer found.now.items.now policy.now.moment lists.now }
        requires further { ArePositions (IsFurther (map item_of found.now.items.now) target) further.now }
        ensures rows { IfOk result (AreRevoking found.now.items.now policy.now.moment) }
        ensures reached { IfOk result (λ rows. AreReached (IsCertificateAt (map item_of found.now.items.now)) target further.now rows.numbers) }
    {
        let mut serials = SerialRows::new(alloc)?;
        let mut numbers = BTreeMap::new(alloc);
        add_at(
            &mut numbers,
            &mut serials,
            alloc,
            found,
            lists,
            target,
            policy,
        )?;
        for place in further {
            add_at(
                &mut numbers,
                &mut serials,
                alloc,
                found,
                lists,
                *place,
                policy,
            )?;
        }
        let firsts = firsts_of(alloc, &serials.rows)?;
        Ok(RevokingRows {
            rows: serials.rows,
            firsts,
            numbers,
        })
    }

    /// The lists of the row of the certificate at a position, if it has one.
    pub(crate) fn of(&self, place: usize) -> Option<Revokers<'_>>
        requires firsts { AreFirsts self.now.rows.items self.now.firsts.items }
        requires within { (p n : ℕ) → mapped.get nat_cmp self.now.numbers p ≡ Some n → n < length self.now.rows.items }
        ensures found { (xs : List ReadItem) (moment : DateTime) (x : CertificateItem) → AreNumbered xs moment self.now.rows.items self.now.numbers → IsAt xs place (λ z. z ≡ certificate_read x)
            → IfSome result (AreRevokersOf xs moment self.now.rows.items x) }
        ensures only { IsNone result → HasNumber self.now.numbers place → ⊥ }
    {
        let Some(number) = self.numbers.get(&place) else {
            return None;
        };
        let first = self.firsts[*number];
        Some(Revokers {
            number: first,
            lists: row_at(&self.rows, first),
        })
    }
}
