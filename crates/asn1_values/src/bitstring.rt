//! `BitString` (X.690, 8.6 and 11.2).

ghost use Rattle.std.specs.Prelude.{◌≡◌, ◌↔◌, ◌-◌, ◌*◌, ◌∷◌, ◌<◌, IsTrue, length};
ghost use Rattle.std.proofs.Common.{lit<};
ghost use Rattle.asn1_traits.specs.Leaves.{ReadsContent, ChecksContent};
ghost use Rattle.asn1_values.specs.Bits.{bit_at, BitsMean, AreUnusedZero, AreStrictBits, IsStrictBitContent, ReadsBits};
ghost use Rattle.asn1_values.specs.BitLaws.{bits_fit, bits_same};
ghost use Rattle.asn1_values.specs.Readers.{Gives, bits_at, check_bits};
ghost use Rattle.asn1_core.specs.Views.{class_number};

use asn1_core::{Class, DerConstraint, Error, SerializeError, SerializeResult, Tag};
use asn1_device::Sink;
use asn1_traits::{DerLeaf, FromLeaf, Tagged, write_all};
use std::alloc::Global;

/// A BIT STRING, borrowed (X.690, 8.6): bit 0 is the highest bit of the first octet.
///
/// Two are equal if their numbers of unused bits and their octets are, unused bits included.
#[derive(Clone, Copy, Debug, PartialEq, Eq)]
pub struct BitString<'a> {
    /// How many of the last octet's lowest bits are not part of the string: 0 to 7 in one that was
    /// read.
    pub unused_bits: u8,
    /// The octets that hold the bits.
    pub content: &'a [u8],
}

impl<'a> BitString<'a> {
    /// Returns the string of the bits in `content`, without the lowest `unused_bits` of its last
    /// octet. It is in DER form if these are 0 to 7 bits that are 0, and none of an empty content
    /// (X.690, 11.2).
    pub fn new(unused_bits: u8, content: &'a [u8]) -> BitString<'a>
        ensures unused { result.unused_bits ≡ unused_bits }
        ensures octets { result.content ≡ content.entry }
    {
        BitString {
            unused_bits,
            content,
        }
    }

    /// Returns whether bit `bit` is 1, counted from 0. Unused bits are returned as they are; after
    /// the last octet every bit is 0.
    pub fn is_set(&self, bit: usize) -> bool
        ensures { result ≡ bit_at self.now.content.now bit }
    {
        match self.content.get(bit / 8) {
            Some(octet) => (*octet >> (7 - bit % 8)) % 2 == 1,
            None => false,
        }
    }

    /// Returns how many bits there are: eight in each octet, less the unused ones.
    pub fn bit_len(&self) -> u128
        ensures { result ≡ 8 * length self.now.content.now - self.now.unused_bits }
    {
        (8 * self.content.len() as u128).saturating_sub(u128::from(self.unused_bits))
    }

    /// Returns the octets that hold the bits.
    pub fn as_ref(&self) -> &'a [u8]
        ensures { result ≡ self.now.content }
    {
        self.content
    }
}

impl<'b> Tagged for BitString<'b> {
    const TAG: Tag = Tag::BitString;

    ghost tag_number = { 3 };

    fn own_class() -> Class
        ensures { class_number result ≡ 0 }
    {
        Class::Universal
    }

    fn own_tag() -> Tag
        ensures { result.0 ≡ 3 }
    {
        Self::TAG
    }
}

impl<'b> DerLeaf for BitString<'b> {
    ghost content_means = { λ content v. BitsMean content v.unused_bits v.content.now };

    ghost content_allowed = { IsStrictBitContent };

    ghost leaf_form = { λ v. AreStrictBits v.unused_bits v.content.now };

    ghost content = { λ v. v.unused_bits ∷ v.content.now };

    ghost low = { lit< tt };

    ghost fits = { λ v. bits_fit v.unused_bits v.content.now };

    ghost same = { λ v w form. bits_same v.unused_bits w.unused_bits v.content.now w.content.now };

    fn check_content(octets: &[u8]) -> Result<(), Error>
        ensures allowed { ChecksContent IsStrictBitContent octets.now result }
        ensures exact { result ≡ check_bits octets.now }
    {
        let bits = match read_bits(octets) {
            Ok(bits) => bits,
            Err(e) => return Err(e),
        };
        if are_unused_zero(bits.unused_bits, bits.content) {
            Ok(())
        } else {
            Err(Error::DerConstraintFailed(DerConstraint::UnusedBitsNotZero))
        }
    }

    fn leaf_in_form(&self) -> bool {
        self.unused_bits < 8
            && (self.unused_bits == 0 || !self.content.is_empty())
            && are_unused_zero(self.unused_bits, self.content)
    }

    fn leaf_len(&self) -> SerializeResult<usize> {
        match self.content.len().checked_add(1) {
            Some(n) => Ok(n),
            None => Err(SerializeError::InvalidLength),
        }
    }

    fn write_leaf<S: Sink>(&self, writer: &mut S) -> SerializeResult<usize> {
        let first = match write_all(writer, &[self.unused_bits]) {
            Ok(n) => n,
            Err(e) => return Err(e),
        };
        let more = match write_all(writer, self.content) {
            Ok(n) => n,
            Err(e) => return Err(e),
        };
        match first.checked_add(more) {
            Some(n) => Ok(n),
            None => Err(SerializeError::InvalidLength),
        }
    }
}

impl<'b> FromLeaf<'b> for BitString<'b> {
    fn from_content(_alloc: Global, octets: &'b [u8]) -> Result<BitString<'b>, Error>
        ensures value { ReadsContent ⊥ (λ content v. BitsMean content v.unused_bits v.content.now) octets.now result }
        ensures exact { Gives (λ v. (v.unused_bits, v.content.now)) result (bits_at octets.now) }
    {
        read_bits(octets)
    }
}

// The bits of a content (X.690, 8.6.2): `InvalidLength` if there is no octet, or unused bits and no
// octet after their number; `BerValueError` if more than 7 are unused.
fn read_bits(octets: &[u8]) -> Result<BitString<'_>, Error>
    ensures read { ReadsBits octets.now result }
    ensures exact { Gives (λ v. (v.unused_bits, v.content.now)) result (bits_at octets.now) }
{
    let Some((unused, content)) = octets.split_first() else {
        return Err(Error::InvalidLength);
    };
    if *unused > 7 {
        return Err(Error::BerValueError);
    }
    if *unused > 0 && content.is_empty() {
        return Err(Error::InvalidLength);
    }
    Ok(BitString::new(*unused, content))
}

// Whether so many of the last octet's lowest bits are 0.
fn are_unused_zero(unused: u8, octets: &[u8]) -> bool
    requires { unused < 8 }
    ensures { IsTrue result ↔ AreUnusedZero unused octets.now }
{
    match octets.last() {
        Some(last) => *last % (1 << unused) == 0,
        None => true,
    }
}
