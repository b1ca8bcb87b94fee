//! The conversions of an element.

ghost use Rattle.std.specs.Prelude.{◌≡◌, [], pos};
ghost use Rattle.std.specs.Str.{IsUtf8};
ghost use Rattle.asn1_any.specs.BerElements.{BerElement};
ghost use Rattle.asn1_any.specs.Views.{ber_any_of};
ghost use Rattle.asn1_lists.specs.Containers.{HoldsContent};
ghost use Rattle.asn1_strings.specs.Charsets.{IsTextOf, is_printable, is_below_80};
ghost use Rattle.asn1_strings.specs.Texts.{MeansTextOf};
ghost use Rattle.asn1_times.specs.GeneralizedTimes.{GeneralizedMeans};
ghost use Rattle.asn1_times.specs.UtcTimes.{UtcMeans};
ghost use Rattle.asn1_traits.specs.Booleans.{BooleanMeans};
ghost use Rattle.asn1_traits.specs.IntegerLaws.{IntegerMeans};
ghost use Rattle.asn1_traits.specs.Integers.{IsUnsigned};
ghost use Rattle.asn1_traits.specs.Leaves.{MeansOctets};
ghost use Rattle.asn1_values.specs.Bits.{BitsMean};
ghost use Rattle.asn1_values.specs.Contents.{HoldsSome};
ghost use Rattle.asn1_rs.specs.Conversions.{Converts, ConvertsContent, ConvertsUnsigned, ConvertsSigned};

use asn1_any::Any;
use asn1_core::{Err, Error};
use asn1_lists::{Sequence, Set};
use asn1_oid::Oid;
use asn1_strings::{Ia5String, PrintableString, Utf8String};
use asn1_times::{GeneralizedTime, UtcTime};
use asn1_traits::FromAny;
use asn1_values::{BitString, Enumerated, Integer, Null, OctetString};
use std::alloc::Global;

/// What an element means as a value of each type, by BER's rules: each call returns what
/// `try_from_any` of its type does, the value, or `Error` if the element means none. None of them
/// allocates, so none returns `Failure`.
pub trait AnyConversions<'a>: Sized {
    /// The element, with the length in its header.
    ghost element: { Self → BerElement };

    /// Returns the value of a BOOLEAN (X.690, 8.2).
    fn as_bool(&self, alloc: Global) -> Result<bool, Err<Error>>
        ensures { ConvertsContent 1 BooleanMeans (element self.now) result };

    /// Returns the number of an INTEGER (X.690, 8.3) that fits `u8`.
    fn as_u8(&self, alloc: Global) -> Result<u8, Err<Error>>
        ensures { ConvertsUnsigned 8 (element self.now) result };

    /// Returns the number of an INTEGER (X.690, 8.3) that fits `u16`.
    fn as_u16(&self, alloc: Global) -> Result<u16, Err<Error>>
        ensures { ConvertsUnsigned 16 (element self.now) result };

    /// Returns the number of an INTEGER (X.690, 8.3) that fits `u32`.
    fn as_u32(&self, alloc: Global) -> Result<u32, Err<Error>>
        ensures { ConvertsUnsigned 32 (element self.now) result };

    /// Returns the number of an INTEGER (X.690, 8.3) that fits `u64`.
    fn as_u64(&self, alloc: Global) -> Result<u64, Err<Error>>
        ensures { ConvertsUnsigned 64 (element self.now) result };

    /// Returns the number of an INTEGER (X.690, 8.3) that fits `i8`.
    fn as_i8(&self, alloc: Global) -> Result<i8, Err<Error>>
        ensures { ConvertsSigned 8 (element self.now) result };

    /// Returns the number of an INTEGER (X.690, 8.3) that fits `i16`.
    fn as_i16(&self, alloc: Global) -> Result<i16, Err<Error>>
        ensures { ConvertsSigned 16 (element self.now) result };

    /// Returns the number of an INTEGER (X.690, 8.3) that fits `i32`.
    fn as_i32(&self, alloc: Global) -> Result<i32, Err<Error>>
        ensures { ConvertsSigned 32 (element self.now) result };

    /// Returns the number of an INTEGER (X.690, 8.3) that fits `i64`.
    fn as_i64(&self, alloc: Global) -> Result<i64, Err<Error>>
        ensures { ConvertsSigned 64 (element self.now) result };

    /// Returns an INTEGER of any size (X.690, 8.3), its octets borrowed.
    fn integer(self, alloc: Global) -> Result<Integer<'a>, Err<Error>>
        ensures { ConvertsContent 2 (λ content v. HoldsSome content v.content.now) (element self) result };

    /// Returns the number of an ENUMERATED (X.690, 8.4) of 32 bits.
    fn enumerated(self, alloc: Global) -> Result<Enumerated, Err<Error>>
        ensures { ConvertsContent 10 (IntegerMeans (λ v. pos v.0) (IsUnsigned 32)) (element self) result };

    /// Returns a BIT STRING (X.690, 8.6).
    fn bitstring(self, alloc: Global) -> Result<BitString<'a>, Err<Error>>
        ensures { ConvertsContent 3 (λ content v. BitsMean content v.unused_bits v.content.now) (element self) result };

    /// Returns an OCTET STRING (X.690, 8.7).
    fn octetstring(self, alloc: Global) -> Result<OctetString<'a>, Err<Error>>
        ensures { ConvertsContent 4 (MeansOctets (λ v. v.content.now)) (element self) result };

    /// Returns a NULL (X.690, 8.8).
    fn null(self, alloc: Global) -> Result<Null, Err<Error>>
        ensures { ConvertsContent 5 (λ content _. content ≡ []) (element self) result };

    /// Returns an OBJECT IDENTIFIER (X.690, 8.19).
    fn oid(self, alloc: Global) -> Result<Oid<'a>, Err<Error>>
        ensures { ConvertsContent 6 (MeansOctets (λ v. v)) (element self) result };

    /// Returns an OBJECT IDENTIFIER (X.690, 8.19); the element is kept.
    fn as_oid(&self, alloc: Global) -> Result<Oid<'a>, Err<Error>>
        ensures { ConvertsContent 6 (MeansOctets (λ v. v)) (element self.now) result };

    /// Returns a UTCTime (X.690, 11.8).
    fn utctime(self, alloc: Global) -> Result<UtcTime, Err<Error>>
        ensures { ConvertsContent 23 (λ content v. UtcMeans content v.0) (element self) result };

    /// Returns a GeneralizedTime (X.690, 11.7).
    fn generalizedtime(self, alloc: Global) -> Result<GeneralizedTime, Err<Error>>
        ensures { ConvertsContent 24 (λ content v. GeneralizedMeans content v.0) (element self) result };

    /// Returns a SEQUENCE (X.690, 8.9) and its content.
    fn sequence(self, alloc: Global) -> Result<Sequence<'a>, Err<Error>>
        ensures { Converts (HoldsContent 16 (λ v. v.content.now)) (element self) result };

    /// Returns a SET (X.690, 8.11) and its content.
    fn set(self, alloc: Global) -> Result<Set<'a>, Err<Error>>
        ensures { Converts (HoldsContent 17 (λ v. v.content.now)) (element self) result };

    /// Returns a UTF8String (X.690, 8.23).
    fn utf8string(self, alloc: Global) -> Result<Utf8String<'a>, Err<Error>>
        ensures { ConvertsContent 12 (MeansTextOf IsUtf8 (λ v. v.text.now)) (element self) result };

    /// Returns a PrintableString (X.690, 8.23; X.680, 41.4).
    fn printablestring(self, alloc: Global) -> Result<PrintableString<'a>, Err<Error>>
        ensures { ConvertsContent 19 (MeansTextOf (IsTextOf is_printable) (λ v. v.text.now)) (element self) result };

    /// Returns an IA5String (X.690, 8.23).
    fn ia5string(self, alloc: Global) -> Result<Ia5String<'a>, Err<Error>>
        ensures { ConvertsContent 22 (MeansTextOf (IsTextOf is_below_80) (λ v. v.text.now)) (element self) result };
}

impl<'a> AnyConversions<'a> for Any<'a> {
    ghost element = { ber_any_of };

    fn as_bool(&self, alloc: Global) -> Result<bool, Err<Error>> {
        bool::try_from_any(alloc, *self)
    }

    fn as_u8(&self, alloc: Global) -> Result<u8, Err<Error>> {
        u8::try_from_any(alloc, *self)
    }

    fn as_u16(&self, alloc: Global) -> Result<u16, Err<Error>> {
        u16::try_from_any(alloc, *self)
    }

    fn as_u32(&self, alloc: Global) -> Result<u32, Err<Error>> {
        u32::try_from_any(alloc, *self)
    }

    fn as_u64(&self, alloc: Global) -> Result<u64, Err<Error>> {
        u64::try_from_any(alloc, *self)
    }

    fn as_i8(&self, alloc: Global) -> Result<i8, Err<Error>> {
        i8::try_from_any(alloc, *self)
    }

    fn as_i16(&self, alloc: Global) -> Result<i16, Err<Error>> {
        i16::try_from_any(alloc, *self)
    }

    fn as_i32(&self, alloc: Global) -> Result<i32, Err<Error>> {
        i32::try_from_any(alloc, *self)
    }

    fn as_i64(&self, alloc: Global) -> Result<i64, Err<Error>> {
        i64::try_from_any(alloc, *self)
    }

    fn integer(self, alloc: Global) -> Result<Integer<'a>, Err<Error>> {
        Integer::try_from_any(alloc, self)
    }

    fn enumerated(self, alloc: Global) -> Result<Enumerated, Err<Error>> {
        Enumerated::try_from_any(alloc, self)
    }

    fn bitstring(self, alloc: Global) -> Result<BitString<'a>, Err<Error>> {
        BitString::try_from_any(alloc, self)
    }

    fn octetstring(self, alloc: Global) -> Result<OctetString<'a>, Err<Error>> {
        OctetString::try_from_any(alloc, self)
    }

    fn null(self, alloc: Global) -> Result<Null, Err<Error>> {
        Null::try_from_any(alloc, self)
    }

    fn oid(self, alloc: Global) -> Result<Oid<'a>, Err<Error>> {
        Oid::try_from_any(alloc, self)
    }

    fn as_oid(&self, alloc: Global) -> Result<Oid<'a>, Err<Error>> {
        Oid::try_from_any(alloc, *self)
    }

    fn utctime(self, alloc: Global) -> Result<UtcTime, Err<Error>> {
        UtcTime::try_from_any(alloc, self)
    }

    fn generalizedtime(self, alloc: Global) -> Result<GeneralizedTime, Err<Error>> {
        GeneralizedTime::try_from_any(alloc, self)
    }

    fn sequence(self, alloc: Global) -> Result<Sequence<'a>, Err<Error>> {
        Sequence::try_from_any(alloc, self)
    }

    fn set(self, alloc: Global) -> Result<Set<'a>, Err<Error>> {
        Set::try_from_any(alloc, self)
    }

    fn utf8string(self, alloc: Global) -> Result<Utf8String<'a>, Err<Error>> {
        Utf8String::try_from_any(alloc, self)
    }

    fn printablestring(self, alloc: Global) -> Result<PrintableString<'a>, Err<Error>> {
        PrintableString::try_from_any(alloc, self)
    }

    fn ia5string(self, alloc: Global) -> Result<Ia5String<'a>, Err<Error>> {
        Ia5String::try_from_any(alloc, self)
    }
}
