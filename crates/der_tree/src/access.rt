//! What an object holds, asked for by its type.

ghost use Rattle.std.specs.Prelude.{◌≡◌, ◌^◌, ℕ, List, Option, option_map};
ghost use Rattle.der_tree.specs.Access.{Offers, sequence_of, set_of, boolean_of, oid_of, bit_string_of, text_of, octets_of, number_of, below, unsigned_of, TellsUnsigned, sequence_at, set_at, boolean_at, oid_at, bit_string_at, content_in, element_at};
ghost use Rattle.der_tree.specs.Tree.{octets};
ghost use Rattle.der_tree.specs.View.{view, content_view, views};

use crate::numbers;
use crate::object::{BerObject, BerObjectContent};
use asn1_core::Error;
use asn1_oid::Oid;
use asn1_unsigned::UnsignedBytes;

/// Each call returns `BerTypeError` for another case than its own.
impl<'a> BerObjectContent<'a> {
    /// The parts of a SEQUENCE.
    pub fn as_sequence(&self) -> Result<&Vec<BerObject<'a>>, Error>
        ensures { Offers (λ v. views v.now.items) result (sequence_of (content_view self.now)) }
    {
        match self {
            BerObjectContent::Sequence(parts) => Ok(parts),
            _ => Err(Error::BerTypeError),
        }
    }

    /// The parts of a SET.
    pub fn as_set(&self) -> Result<&Vec<BerObject<'a>>, Error>
        ensures { Offers (λ v. views v.now.items) result (set_of (content_view self.now)) }
    {
        match self {
            BerObjectContent::Set(parts) => Ok(parts),
            _ => Err(Error::BerTypeError),
        }
    }

    /// A BOOLEAN.
    pub fn as_bool(&self) -> Result<bool, Error>
        ensures { Offers (λ b. b) result (boolean_of (content_view self.now)) }
    {
        match self {
            BerObjectContent::Boolean(value) => Ok(*value),
            _ => Err(Error::BerTypeError),
        }
    }

    /// An OBJECT IDENTIFIER.
    pub fn as_oid(&self) -> Result<&Oid<'a>, Error>
        ensures { Offers (λ o. o.now) result (oid_of (content_view self.now)) }
    {
        match self {
            BerObjectContent::OID(identifier) => Ok(identifier),
            _ => Err(Error::BerTypeError),
        }
    }

    /// The unused count and the octets of a BIT STRING.
    pub fn as_bitstring(&self) -> Result<(u8, &'a [u8]), Error>
        ensures { Offers (λ p. (p.0, p.1.now)) result (bit_string_of (content_view self.now)) }
    {
        match self {
            BerObjectContent::BitString(unused, octets) => Ok((*unused, octets)),
            _ => Err(Error::BerTypeError),
        }
    }

    /// An INTEGER or an ENUMERATED below 2^32: `IntegerNegative` below 0, `IntegerTooLarge` above.
    pub fn as_u32(&self) -> Result<u32, Error>
        ensures { result ≡ below (2 ^ 32) (number_of (content_view self.now)) }
    {
        let number = self.as_u64()?;
        u32::try_from(number).map_err(|_| Error::IntegerTooLarge)
    }

    /// An INTEGER or an ENUMERATED below 2^64: `IntegerNegative` below 0, `IntegerTooLarge` above.
    pub fn as_u64(&self) -> Result<u64, Error>
        ensures { result ≡ below (2 ^ 64) (number_of (content_view self.now)) }
    {
        match self {
            BerObjectContent::Enum(number) => Ok(*number),
            BerObjectContent::Integer(octets) => {
                if numbers::is_negative_integer(octets) {
                    return Err(Error::IntegerNegative);
                }
                match numbers::number_of(octets) {
                    Some(number) => Ok(number),
                    None => Err(Error::IntegerTooLarge),
                }
            }
            _ => Err(Error::BerTypeError),
        }
    }

    /// An INTEGER of any size: `IntegerNegative` below 0.
    pub fn as_unsigned(&self) -> Result<UnsignedBytes<'a>, Error>
        ensures { TellsUnsigned result (unsigned_of (content_view self.now)) }
    {
        match self {
            BerObjectContent::Integer(octets) => {
                if !numbers::is_negative_integer(octets) {
                    Ok(UnsignedBytes::from_bytes_be(octets))
                } else {
                    Err(Error::IntegerNegative)
                }
            }
            _ => Err(Error::BerTypeError),
        }
    }

    /// A text of the UTF-8, numeric, printable, IA5 or visible kind.
    pub fn as_str(&self) -> Result<&'a str, Error>
        ensures { Offers (λ s. s.now) result (text_of (content_view self.now)) }
    {
        match self {
            BerObjectContent::UTF8String(text) => Ok(text),
            BerObjectContent::NumericString(text) => Ok(text),
            BerObjectContent::PrintableString(text) => Ok(text),
            BerObjectContent::IA5String(text) => Ok(text),
            BerObjectContent::VisibleString(text) => Ok(text),
            _ => Err(Error::BerTypeError),
        }
    }

    /// The octets of every case that holds octets or a text: of a BIT STRING those of the bits, of a raw element its
    /// content.
    pub fn as_slice(&self) -> Result<&'a [u8], Error>
        ensures { Offers (λ s. s.now) result (octets_of (content_view self.now)) }
    {
        match self {
            BerObjectContent::UTF8String(text) => Ok(text.as_bytes()),
            BerObjectContent::NumericString(text) => Ok(text.as_bytes()),
            BerObjectContent::PrintableString(text) => Ok(text.as_bytes()),
            BerObjectContent::IA5String(text) => Ok(text.as_bytes()),
            BerObjectContent::VisibleString(text) => Ok(text.as_bytes()),
            BerObjectContent::Integer(octets) => Ok(octets),
            BerObjectContent::BitString(_, octets) => Ok(octets),
            BerObjectContent::OctetString(octets) => Ok(octets),
            BerObjectContent::ObjectDescriptor(octets) => Ok(octets),
            BerObjectContent::RelativeOID(octets) => Ok(octets),
            BerObjectContent::T61String(octets) => Ok(octets),
            BerObjectContent::VideotexString(octets) => Ok(octets),
            BerObjectContent::UTCTime(octets) => Ok(octets),
            BerObjectContent::GeneralizedTime(octets) => Ok(octets),
            BerObjectContent::GraphicString(octets) => Ok(octets),
            BerObjectContent::GeneralString(octets) => Ok(octets),
            BerObjectContent::UniversalString(octets) => Ok(octets),
            BerObjectContent::BmpString(octets) => Ok(octets),
            BerObjectContent::Unknown(any) => Ok(any.content),
            _ => Err(Error::BerTypeError),
        }
    }
}

/// Each call returns what the content's call of its name returns.
impl<'a> BerObject<'a> {
    /// The octets that the object was read from: header and content.
    pub fn as_raw(&self) -> &'a [u8]
        ensures { result.now ≡ octets (view self.now) }
    {
        self.raw()
    }

    /// The objects of a SEQUENCE, in order (X.690, 8.9).
    ///
    /// # Errors
    ///
    /// `BerTypeError` for any other object.
    pub fn as_sequence(&self) -> Result<&Vec<BerObject<'a>>, Error>
        ensures { Offers (λ v. views v.now.items) result (sequence_at (view self.now)) }
    {
        self.content.as_sequence()
    }

    /// The objects of a SET, in order (X.690, 8.11).
    ///
    /// # Errors
    ///
    /// `BerTypeError` for any other object.
    pub fn as_set(&self) -> Result<&Vec<BerObject<'a>>, Error>
        ensures { Offers (λ v. views v.now.items) result (set_at (view self.now)) }
    {
        self.content.as_set()
    }

    /// The value of a BOOLEAN (X.690, 8.2).
    ///
    /// # Errors
    ///
    /// `BerTypeError` for any other object.
    pub fn as_bool(&self) -> Result<bool, Error>
        ensures { Offers (λ b. b) result (boolean_at (view self.now)) }
    {
        self.content.as_bool()
    }

    /// The value of an OBJECT IDENTIFIER (X.690, 8.19).
    ///
    /// # Errors
    ///
    /// `BerTypeError` for any other object.
    pub fn as_oid(&self) -> Result<&Oid<'a>, Error>
        ensures { Offers (λ o. o.now) result (oid_at (view self.now)) }
    {
        self.content.as_oid()
    }

    /// The number of unused bits of a BIT STRING, and the octets of its bits (X.690, 8.6).
    ///
    /// # Errors
    ///
    /// `BerTypeError` for any other object.
    pub fn as_bitstring(&self) -> Result<(u8, &'a [u8]), Error>
        ensures { Offers (λ p. (p.0, p.1.now)) result (bit_string_at (view self.now)) }
    {
        self.content.as_bitstring()
    }

    /// The value of an INTEGER or ENUMERATED of at most 32 bits (X.690, 8.3 and 8.4).
    ///
    /// # Errors
    ///
    /// `IntegerNegative` below 0, `IntegerTooLarge` from 2^32 on, `BerTypeError` for any other
    /// object.
    pub fn as_u32(&self) -> Result<u32, Error>
        ensures { result ≡ below (2 ^ 32) (number_of (content_in (view self.now))) }
    {
        self.content.as_u32()
    }

    /// The value of an INTEGER or ENUMERATED of at most 64 bits (X.690, 8.3 and 8.4).
    ///
    /// # Errors
    ///
    /// `IntegerNegative` below 0, `IntegerTooLarge` from 2^64 on, `BerTypeError` for any other
    /// object.
    pub fn as_u64(&self) -> Result<u64, Error>
        ensures { result ≡ below (2 ^ 64) (number_of (content_in (view self.now))) }
    {
        self.content.as_u64()
    }

    /// The octets of an INTEGER of any size, most significant first (X.690, 8.3).
    ///
    /// # Errors
    ///
    /// `IntegerNegative` below 0, `BerTypeError` for any other object.
    pub fn as_unsigned(&self) -> Result<UnsignedBytes<'a>, Error>
        ensures { TellsUnsigned result (unsigned_of (content_in (view self.now))) }
    {
        self.content.as_unsigned()
    }

    /// The text of a UTF8String, NumericString, PrintableString, IA5String or VisibleString (X.690,
    /// 8.23).
    ///
    /// # Errors
    ///
    /// `BerTypeError` for any other object.
    pub fn as_str(&self) -> Result<&'a str, Error>
        ensures { Offers (λ s. s.now) result (text_of (content_in (view self.now))) }
    {
        self.content.as_str()
    }

    /// The octets of an object that holds octets or text: of a BIT STRING those of its bits, of an
    /// element that isn't parsed its content.
    ///
    /// # Errors
    ///
    /// `BerTypeError` for any other object.
    pub fn as_slice(&self) -> Result<&'a [u8], Error>
        ensures { Offers (λ s. s.now) result (octets_of (content_in (view self.now))) }
    {
        self.content.as_slice()
    }
}
