//! Machine integers as INTEGERs (X.690, 8.3).

ghost use Rattle.std.specs.Prelude.{◌≡◌, ◌-◌, if◌then◌else◌, ◌↔◌, ◌^◌, ◌<◌, ◌≤◌, Bool, ℤ, List, ℕ, Some, IsTrue, IsOk, SomeIff, length};
ghost use Rattle.std.specs.Int.Digits.{digits_of, number_from_digits};
ghost use Rattle.asn1_traits.specs.Integers.{turned, unsigned_octets, IsShortest, with_sign_bit, integer_octets, size_of};
ghost use Rattle.asn1_traits.specs.Leaves.{ChecksContent, ReadsContent};
ghost use Rattle.asn1_traits.specs.IntegerReading.{integer_at, is_shortest, GivesInteger};
ghost use Rattle.asn1_traits.specs.IntegerLaws.{IntegerMeans, integer_fits, integer_same};
ghost use Rattle.asn1_traits.specs.Wholes.{whole_of, ReadsWhole, FitsWhole};

use crate::leaf::{DerLeaf, FromLeaf};
use crate::octets::{Octets, positive_len, push_positive};
use crate::read::Tagged;
use crate::write::write_all;
use arrayvec::ArrayVec;
use asn1_core::{DerConstraint, Error, SerializeResult, Tag};
use asn1_device::Sink;
use std::alloc::Global;

/// A whole number by which all integer types are converted: `size` if it isn't negative, else -1
/// less `size`. So each number from -2^128 to 2^128 - 1 has one form.
#[derive(Clone, Copy, Debug, PartialEq, Eq)]
pub struct Whole {
    pub negative: bool,
    pub size: u128,
}

/// An integer type of at most 128 bits, which is read and written as an INTEGER (X.690, 8.3). From
/// this trait it has all readers and writers.
pub trait DerInteger: Tagged + Sized {
    /// The value as a number.
    ghost number: { Self → ℤ };

    /// The number is one of the type.
    ghost in_range: { ℤ → Type 0 };

    /// Whether the number is one of the type, as a test.
    ghost fits: { ℤ → Bool };

    /// Returns the value as a whole number.
    fn to_whole(&self) -> Whole
        ensures number { whole_of result ≡ number self.now }
        ensures range { in_range (number self.now) };

    /// Returns the value of a whole number: `IntegerNegative` or `IntegerTooLarge` if the type has
    /// none.
    fn from_whole(whole: Whole) -> Result<Self, Error>
        ensures { FitsWhole number in_range (whole_of whole) result };

    /// The tag number fits 32 bits.
    ghost low: { Self.tag_number < 2 ^ 32 };

    /// Numbers in range take at most 128 bits.
    ghost small: { (z : ℤ) → in_range z → size_of z < 2 ^ 128 };

    /// The test finds the numbers in range, and no others.
    ghost fitting: { (z : ℤ) → IsTrue (fits z) ↔ in_range z };
}

impl<T: DerInteger> DerLeaf for T {
    ghost content_means = { IntegerMeans T.number T.in_range };

    ghost content_allowed = { IsShortest };

    ghost leaf_form = { λ v. T.in_range (T.number v) };

    ghost content = { λ v. integer_octets (T.number v) };

    ghost low = { T.low };

    ghost fits = { integer_fits T.number T.in_range };

    ghost same = { integer_same T.number T.in_range };

    fn check_content(octets: &[u8]) -> Result<(), Error> {
        check_shortest(octets)
    }

    fn leaf_in_form(&self) -> bool {
        let _ = self.to_whole();
        true
    }

    fn leaf_len(&self) -> SerializeResult<usize> {
        Ok(positive_len(self.to_whole().size))
    }

    fn write_leaf<S: Sink>(&self, writer: &mut S) -> SerializeResult<usize> {
        write_all(writer, whole_octets(self.to_whole()).as_slice())
    }
}

impl<'a, T: DerInteger> FromLeaf<'a> for T {
    fn from_content(_alloc: Global, octets: &'a [u8]) -> Result<T, Error>
        ensures reads { ReadsContent ⊥ (IntegerMeans T.number T.in_range) octets.now result }
        ensures exact { GivesInteger T.number result (integer_at T.fits octets.now) }
    {
        T::from_whole(read_whole(octets)?)
    }
}

/// Returns `Ok(())` if the octets are the shortest two's complement of a number (X.690, 8.3.1 and
/// 8.3.2); else `DerConstraintFailed` with `IntegerEmpty`, `IntegerLeadingZeroes` or
/// `IntegerLeadingFF`.
pub fn check_shortest(octets: &[u8]) -> Result<(), Error>
    ensures checks { ChecksContent IsShortest octets.now result }
    ensures exact { IsOk result ↔ IsTrue (is_shortest octets.now) }
{
    match octets {
        [] => Err(Error::DerConstraintFailed(DerConstraint::IntegerEmpty)),
        [0, next, ..] if *next < 0x80 => Err(Error::DerConstraintFailed(
            DerConstraint::IntegerLeadingZeroes,
        )),
        [0xff, next, ..] if *next >= 0x80 => Err(Error::DerConstraintFailed(
            DerConstraint::IntegerLeadingFF,
        )),
        _ => Ok(()),
    }
}

/// The functions that readers of machine integers compute find what a content means and DER allows,
/// and nothing else.
pub fn integer_functions<T: DerInteger>()
    ensures means { (content : List ℕ) (v : T) → (integer_at T.fits content ≡ Some (T.number v)) ↔ IntegerMeans T.number T.in_range content v }
    ensures allowed { (content : List ℕ) → IsTrue (is_shortest content) ↔ IsShortest content }
{}

// The number of a content: `InvalidLength` of none, `IntegerTooLarge` past 128 bits.
fn read_whole(octets: &[u8]) -> Result<Whole, Error>
    ensures { ReadsWhole octets.now result }
{
    let Some((first, _)) = octets.split_first() else {
        return Err(Error::InvalidLength);
    };
    let negative = *first >= 0x80;
    match read_size(octets, negative) {
        Some(size) => Ok(Whole { negative, size }),
        None => Err(Error::IntegerTooLarge),
    }
}

// The number that the octets make, each of them turned if it is negative; none past 128 bits.
fn read_size(octets: &[u8], negative: bool) -> Option<u128>
    ensures { SomeIff result (number_from_digits 256 (unsigned_octets negative octets.now) < 2 ^ 128) (number_from_digits 256 (unsigned_octets negative octets.now)) }
{
    let mut number = 0u128;
    let mut rest = octets;
    while let Some((octet, after)) = rest.split_first() {
        number = number
            .checked_mul(256)?
            .checked_add(u128::from(unsigned_octet(negative, *octet)))?;
        rest = after;
    }
    Some(number)
}

// The octet, or turned if the number is negative.
fn unsigned_octet(negative: bool, octet: u8) -> u8
    ensures { result ≡ (if negative then 255 - octet else octet) }
{
    if negative { 255 - octet } else { octet }
}

// The octets of a whole number in DER.
fn whole_octets(whole: Whole) -> Octets
    ensures { result.items ≡ integer_octets (whole_of whole) }
{
    let octets = positive_octets(whole.size);
    if whole.negative {
        turned_octets(octets.as_slice())
    } else {
        octets
    }
}

// The octets of a number that isn't negative.
fn positive_octets(number: u128) -> Octets
    ensures octets { result.items ≡ with_sign_bit (digits_of 256 number) }
    ensures short { length result.items ≤ 17 }
{
    let mut octets = ArrayVec::new();
    push_positive(&mut octets, number);
    octets
}

// Each bit turned.
fn turned_octets(octets: &[u8]) -> Octets
    requires { length octets.now ≤ 17 }
    ensures { result.items ≡ turned octets.now }
{
    let mut out = ArrayVec::new();
    for octet in octets {
        out.push(255 - *octet);
    }
    out
}
