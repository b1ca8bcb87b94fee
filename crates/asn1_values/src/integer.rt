//! `Integer` (X.690, 8.3).

ghost use Rattle.std.specs.Prelude.{◌≡◌, ◌↔◌, IsTrue, IfOk, IfErr, IsOk, false, pos, length};
ghost use Rattle.std.proofs.Common.{lit<};
ghost use Rattle.asn1_any.specs.Views.{any_of};
ghost use Rattle.asn1_traits.specs.Integers.{IsShortest, SpellsInteger, twos_complement};
ghost use Rattle.asn1_traits.specs.IntegerReading.{is_shortest};
ghost use Rattle.asn1_traits.specs.Leaves.{ReadsContent, ChecksContent};
ghost use Rattle.asn1_values.specs.Contents.{HoldsSome, shortest_fits};
ghost use Rattle.asn1_unsigned.specs.Numbers.{number_of};
ghost use Rattle.asn1_values.specs.Numbers.{IsNegative, RefusesNatural, RefusesUnsigned, RefusesSigned};
ghost use Rattle.asn1_values.specs.Readers.{Gives, some_octets, natural_at, unsigned_at, signed_at};
ghost use Rattle.asn1_core.specs.Views.{class_number, length_of};
ghost use Rattle.asn1_core.specs.declared.length.Length.TheVariants as lengths;

use crate::whole::{is_negative, read_unsigned, read_whole};
use asn1_any::Any;
use asn1_core::{Class, Error, SerializeResult, Tag};
use asn1_device::Sink;
use asn1_traits::{DerInteger, DerLeaf, FromLeaf, Tagged, check_shortest, write_all};
use asn1_unsigned::UnsignedBytes;
use std::alloc::Global;

/// An INTEGER of any size, as its content octets: two's complement, the highest octet first,
/// borrowed (X.690, 8.3). 128 in DER form has the octets `00 80`.
///
/// Two are equal if their octets are. A number has one spelling in DER form; in BER it may have
/// more, with leading octets `00` or `ff`.
#[derive(Clone, Copy, Debug, PartialEq, Eq)]
pub struct Integer<'a> {
    /// The content octets, the highest first.
    pub content: &'a [u8],
}

impl<'a> Integer<'a> {
    /// Returns the integer of these content octets. Any octets are accepted.
    pub fn new(content: &'a [u8]) -> Integer<'a>
        ensures { result.content ≡ content.entry }
    {
        Integer { content }
    }

    /// Returns the content octets.
    pub fn as_ref(&self) -> &'a [u8]
        ensures { result ≡ self.now.content }
    {
        self.content
    }

    /// Returns the element of the integer.
    pub fn any(&self) -> Any<'a>
        ensures element { any_of result ≡ record { class = 0; constructed = false; tag = 2; content = self.now.content.now } }
        ensures length { length_of result.header ≡ lengths.Definite (length self.now.content.now) }
        ensures window { result.content ≡ self.now.content }
    {
        Any::from_tag_and_data(Tag::Integer, self.content)
    }

    /// Returns whether the number is negative. No octets are 0.
    pub fn is_negative(&self) -> bool
        ensures { IsTrue result ↔ IsNegative (twos_complement self.now.content.now) }
    {
        is_negative(self.content)
    }

    /// Returns the number without a sign, of any size, as borrowed octets. `InvalidLength` if there
    /// is no octet, `IntegerNegative` if the number is negative.
    pub fn as_unsigned(&self) -> Result<UnsignedBytes<'a>, Error>
        ensures number { IfOk result (λ v. SpellsInteger self.now.content.now (pos (number_of v))) }
        ensures refused { IfErr result (λ e. RefusesNatural self.now.content.now e) }
        ensures exact { Gives number_of result (natural_at self.now.content.now) }
    {
        if self.content.is_empty() {
            return Err(Error::InvalidLength);
        }
        if self.is_negative() {
            return Err(Error::IntegerNegative);
        }
        Ok(UnsignedBytes::from_bytes_be(self.content))
    }

    /// Returns the number as `u8`. `InvalidLength` if there is no octet, `IntegerNegative` if the
    /// number is negative, `IntegerTooLarge` if it passes 8 bits.
    pub fn as_u8(&self) -> Result<u8, Error>
        ensures number { IfOk result (λ n. SpellsInteger self.now.content.now (pos n)) }
        ensures refused { IfErr result (λ e. RefusesUnsigned 8 self.now.content.now e) }
        ensures exact { result ≡ unsigned_at 8 self.now.content.now }
    {
        let number = match read_unsigned(self.content) {
            Ok(number) => number,
            Err(e) => return Err(e),
        };
        match u8::try_from(number) {
            Ok(number) => Ok(number),
            Err(_) => Err(Error::IntegerTooLarge),
        }
    }

    /// Returns the number as `u16`. `InvalidLength` if there is no octet, `IntegerNegative` if the
    /// number is negative, `IntegerTooLarge` if it passes 16 bits.
    pub fn as_u16(&self) -> Result<u16, Error>
        ensures number { IfOk result (λ n. SpellsInteger self.now.content.now (pos n)) }
        ensures refused { IfErr result (λ e. RefusesUnsigned 16 self.now.content.now e) }
        ensures exact { result ≡ unsigned_at 16 self.now.content.now }
    {
        let number = match read_unsigned(self.content) {
            Ok(number) => number,
            Err(e) => return Err(e),
        };
        match u16::try_from(number) {
            Ok(number) => Ok(number),
            Err(_) => Err(Error::IntegerTooLarge),
        }
    }

    /// Returns the number as `u32`. `InvalidLength` if there is no octet, `IntegerNegative` if the
    /// number is negative, `IntegerTooLarge` if it passes 32 bits.
    pub fn as_u32(&self) -> Result<u32, Error>
        ensures number { IfOk result (λ n. SpellsInteger self.now.content.now (pos n)) }
        ensures refused { IfErr result (λ e. RefusesUnsigned 32 self.now.content.now e) }
        ensures exact { result ≡ unsigned_at 32 self.now.content.now }
    {
        let number = match read_unsigned(self.content) {
            Ok(number) => number,
            Err(e) => return Err(e),
        };
        match u32::try_from(number) {
            Ok(number) => Ok(number),
            Err(_) => Err(Error::IntegerTooLarge),
        }
    }

    /// Returns the number as `u64`. `InvalidLength` if there is no octet, `IntegerNegative` if the
    /// number is negative, `IntegerTooLarge` if it passes 64 bits.
    pub fn as_u64(&self) -> Result<u64, Error>
        ensures number { IfOk result (λ n. SpellsInteger self.now.content.now (pos n)) }
        ensures refused { IfErr result (λ e. RefusesUnsigned 64 self.now.content.now e) }
        ensures exact { result ≡ unsigned_at 64 self.now.content.now }
    {
        let number = match read_unsigned(self.content) {
            Ok(number) => number,
            Err(e) => return Err(e),
        };
        match u64::try_from(number) {
            Ok(number) => Ok(number),
            Err(_) => Err(Error::IntegerTooLarge),
        }
    }

    /// Returns the number as `u128`. `InvalidLength` if there is no octet, `IntegerNegative` if the
    /// number is negative, `IntegerTooLarge` if it passes 128 bits.
    pub fn as_u128(&self) -> Result<u128, Error>
        ensures number { IfOk result (λ n. SpellsInteger self.now.content.now (pos n)) }
        ensures refused { IfErr result (λ e. RefusesUnsigned 128 self.now.content.now e) }
        ensures exact { result ≡ unsigned_at 128 self.now.content.now }
    {
        read_unsigned(self.content)
    }

    /// Returns the number as `i8`. `InvalidLength` if there is no octet, `IntegerTooLarge` if the
    /// number passes 8 bits.
    pub fn as_i8(&self) -> Result<i8, Error>
        ensures number { IfOk result (λ z. SpellsInteger self.now.content.now z) }
        ensures refused { IfErr result (λ e. RefusesSigned 8 self.now.content.now e) }
        ensures exact { result ≡ signed_at 8 self.now.content.now }
    {
        let whole = match read_whole(self.content) {
            Ok(whole) => whole,
            Err(e) => return Err(e),
        };
        match i8::from_whole(whole) {
            Ok(number) => Ok(number),
            Err(_) => Err(Error::IntegerTooLarge),
        }
    }

    /// Returns the number as `i16`. `InvalidLength` if there is no octet, `IntegerTooLarge` if the
    /// number passes 16 bits.
    pub fn as_i16(&self) -> Result<i16, Error>
        ensures number { IfOk result (λ z. SpellsInteger self.now.content.now z) }
        ensures refused { IfErr result (λ e. RefusesSigned 16 self.now.content.now e) }
        ensures exact { result ≡ signed_at 16 self.now.content.now }
    {
        let whole = match read_whole(self.content) {
            Ok(whole) => whole,
            Err(e) => return Err(e),
        };
        match i16::from_whole(whole) {
            Ok(number) => Ok(number),
            Err(_) => Err(Error::IntegerTooLarge),
        }
    }

    /// Returns the number as `i32`. `InvalidLength` if there is no octet, `IntegerTooLarge` if the
    /// number passes 32 bits.
    pub fn as_i32(&self) -> Result<i32, Error>
        ensures number { IfOk result (λ z. SpellsInteger self.now.content.now z) }
        ensures refused { IfErr result (λ e. RefusesSigned 32 self.now.content.now e) }
        ensures exact { result ≡ signed_at 32 self.now.content.now }
    {
        let whole = match read_whole(self.content) {
            Ok(whole) => whole,
            Err(e) => return Err(e),
        };
        match i32::from_whole(whole) {
            Ok(number) => Ok(number),
            Err(_) => Err(Error::IntegerTooLarge),
        }
    }

    /// Returns the number as `i64`. `InvalidLength` if there is no octet, `IntegerTooLarge` if the
    /// number passes 64 bits.
    pub fn as_i64(&self) -> Result<i64, Error>
        ensures number { IfOk result (λ z. SpellsInteger self.now.content.now z) }
        ensures refused { IfErr result (λ e. RefusesSigned 64 self.now.content.now e) }
        ensures exact { result ≡ signed_at 64 self.now.content.now }
    {
        let whole = match read_whole(self.content) {
            Ok(whole) => whole,
            Err(e) => return Err(e),
        };
        match i64::from_whole(whole) {
            Ok(number) => Ok(number),
            Err(_) => Err(Error::IntegerTooLarge),
        }
    }

    /// Returns the number as `i128`. `InvalidLength` if there is no octet, `IntegerTooLarge` if the
    /// number passes 128 bits.
    pub fn as_i128(&self) -> Result<i128, Error>
        ensures number { IfOk result (λ z. SpellsInteger self.now.content.now z) }
        ensures refused { IfErr result (λ e. RefusesSigned 128 self.now.content.now e) }
        ensures exact { result ≡ signed_at 128 self.now.content.now }
    {
        let whole = match read_whole(self.content) {
            Ok(whole) => whole,
            Err(e) => return Err(e),
        };
        match i128::from_whole(whole) {
            Ok(number) => Ok(number),
            Err(_) => Err(Error::IntegerTooLarge),
        }
    }
}

impl<'b> Tagged for Integer<'b> {
    const TAG: Tag = Tag::Integer;

    ghost tag_number = { 2 };

    fn own_class() -> Class
        ensures { class_number result ≡ 0 }
    {
        Class::Universal
    }

    fn own_tag() -> Tag
        ensures { result.0 ≡ 2 }
    {
        Self::TAG
    }
}

impl<'b> DerLeaf for Integer<'b> {
    ghost content_means = { λ content v. HoldsSome content v.content.now };

    ghost content_allowed = { IsShortest };

    ghost leaf_form = { λ v. IsShortest v.content.now };

    ghost content = { λ v. v.content.now };

    ghost low = { lit< tt };

    ghost fits = { λ v. shortest_fits v.content.now };

    ghost same = { λ v w form read. read.1 };

    fn check_content(octets: &[u8]) -> Result<(), Error>
        ensures allowed { ChecksContent IsShortest octets.now result }
        ensures exact { IsOk result ↔ IsTrue (is_shortest octets.now) }
    {
        check_shortest(octets)
    }

    fn leaf_in_form(&self) -> bool {
        check_shortest(self.content).is_ok()
    }

    fn leaf_len(&self) -> SerializeResult<usize> {
        Ok(self.content.len())
    }

    fn write_leaf<S: Sink>(&self, writer: &mut S) -> SerializeResult<usize> {
        write_all(writer, self.content)
    }
}

impl<'b> FromLeaf<'b> for Integer<'b> {
    fn from_content(_alloc: Global, octets: &'b [u8]) -> Result<Integer<'b>, Error>
        ensures value { ReadsContent ⊥ (λ content v. HoldsSome content v.content.now) octets.now result }
        ensures exact { Gives (λ v. v.content.now) result (some_octets octets.now) }
    {
        if octets.is_empty() {
            Err(Error::InvalidLength)
        } else {
            Ok(Integer::new(octets))
        }
    }
}
