//! Objects read by their type. Each reader compares the tag number alone, not the class; the
//! constructed bit and the content follow the rules of that universal type. Each returns `(rest,
//! object)`.
//!
//! Errors, the first that applies: those of `Header::from_der`; `UnexpectedTag`; `Incomplete` with
//! the number of content octets that are missing; those of `leaf_under`, or of `content_under` for
//! sequences and sets. Only these two take memory.

ghost use Rattle.std.specs.Prelude.{◌≡◌, ◌≢◌, ◌^◌, ℕ, List, [], Err, IfOk, IfErr, IsErrAnd};
ghost use Rattle.der_parser.specs.Outcome.{Reads, ReadsOrWants};
ghost use Rattle.der_parser.specs.Refusals.{tagged_at, ReadsWhole, ber_boolean_error};
ghost use Rattle.der_tree.specs.Outcome.{ReadsFront, leaf_error};
ghost use Rattle.der_parser.specs.Typed.{HoldsBerBoolean, ReadsTagged, ReadsDer, ReadsNumber};
ghost use Rattle.der_tree.specs.Access.{number_of, below, content_in};
ghost use Rattle.der_tree.specs.Lengths.{TellsDefinite, lengths_within};
ghost use Rattle.der_tree.specs.Tree.{Tree, Content};
ghost use Rattle.der_tree.specs.View.{element_under, view, content_view};

use crate::element::element_of_tag;
use asn1_core::{Err as Refusal, Error, Header, Tag};
use der_tree::{
    BerObjectContent, BerResult, MAX_RECURSION, content_under, leaf_under, object_with,
};
use std::alloc::Global;

/// Reads an element without parts, of this tag number.
fn leaf_of_tag(i: &[u8], tag: Tag) -> BerResult<'_>
    requires sequence { tag.0 ≢ 16 }
    requires set { tag.0 ≢ 17 }
    ensures read { Reads view (ReadsDer tag.0) i.now result }
    ensures refused { ReadsWhole leaf_error (tagged_at tag.0 i.now) result }
    ensures lengths { IfOk result (λ p. TellsDefinite p.1) }
{
    let (rest, element) = element_of_tag(i, tag)?;
    match leaf_under(element.header, element.content) {
        Ok(content) => Ok((rest, object_with(element.header, content, element.raw))),
        Err(e) => Err(Refusal::Error(e)),
    }
}

/// Reads an element of this tag number, and its parts.
fn object_of_tag<'a>(alloc: Global, i: &'a [u8], tag: Tag) -> BerResult<'a>
    ensures read { ReadsOrWants view (ReadsDer tag.0) i.now result }
    ensures front { ReadsFront (tagged_at tag.0 i.now) result }
    ensures lengths { IfOk result (λ p. TellsDefinite p.1) }
{
    let (rest, element) = element_of_tag(i, tag)?;
    let content = content_under(alloc, element.header, element.content, MAX_RECURSION - 1)?;
    Ok((rest, object_with(element.header, content, element.raw)))
}

/// Returns a BOOLEAN of BER under this header: one octet, `00` for false and any other for true.
fn ber_boolean<'a>(header: Header, content: &'a [u8]) -> Result<BerObjectContent<'a>, Error>
    ensures found { IfOk result (λ c. HoldsBerBoolean (element_under header content.now) (content_view c)) }
    ensures none { IfErr result (λ e. (e ≢ Error.OutOfMemory)
        × ((c : Content) → HoldsBerBoolean (element_under header content.now) c → ⊥)) }
    ensures refused { IfErr result (λ e. e ≡ ber_boolean_error (element_under header content.now)) }
    ensures lengths { IfOk result (λ c. lengths_within c ≡ []) }
{
    if header.is_constructed() {
        return Err(Error::ConstructUnexpected);
    }
    match content {
        [octet] => Ok(BerObjectContent::Boolean(*octet != 0)),
        _ => Err(Error::InvalidLength),
    }
}

/// Reads a BOOLEAN of BER: one octet, `00` for false and any other for true (X.690, 8.2).
///
/// Returns `(rest, object)`. Errors, the first that applies: those of `Header::from_der`;
/// `UnexpectedTag`; `Incomplete` with the number of content octets that are missing;
/// `ConstructUnexpected` for a constructed element; `InvalidLength` for a content of another
/// length.
pub fn parse_ber_bool(i: &[u8]) -> BerResult<'_>
    ensures read { Reads view (ReadsTagged 1 HoldsBerBoolean) i.now result }
    ensures refused { ReadsWhole ber_boolean_error (tagged_at 1 i.now) result }
    ensures lengths { IfOk result (λ p. TellsDefinite p.1) }
{
    let (rest, element) = element_of_tag(i, Tag::Boolean)?;
    match ber_boolean(element.header, element.content) {
        Ok(content) => Ok((rest, object_with(element.header, content, element.raw))),
        Err(e) => Err(Refusal::Error(e)),
    }
}

/// Reads a BOOLEAN: one octet, `00` or `ff` (X.690, 8.2 and 11.1).
///
/// Returns `(rest, object)`. Errors, the first that applies: those of `Header::from_der`;
/// `UnexpectedTag`; `Incomplete` with the number of content octets that are missing; those of
/// `leaf_under`.
pub fn parse_der_bool(i: &[u8]) -> BerResult<'_>
    ensures read { Reads view (ReadsDer 1) i.now result }
    ensures refused { ReadsWhole leaf_error (tagged_at 1 i.now) result }
    ensures lengths { IfOk result (λ p. TellsDefinite p.1) }
{
    leaf_of_tag(i, Tag::Boolean)
}

/// Reads an INTEGER in the fewest octets (X.690, 8.3), as `02 01 05`.
///
/// Returns `(rest, object)`. Errors, the first that applies: those of `Header::from_der`;
/// `UnexpectedTag`; `Incomplete` with the number of content octets that are missing; those of
/// `leaf_under`.
pub fn parse_der_integer(i: &[u8]) -> BerResult<'_>
    ensures read { Reads view (ReadsDer 2) i.now result }
    ensures refused { ReadsWhole leaf_error (tagged_at 2 i.now) result }
    ensures lengths { IfOk result (λ p. TellsDefinite p.1) }
{
    leaf_of_tag(i, Tag::Integer)
}

/// Reads an INTEGER below 2^32, as a number: `IntegerNegative` below 0, `IntegerTooLarge` above
/// (X.690, 8.3).
///
/// Returns `(rest, number)`. Errors, the first that applies: those of `Header::from_der`;
/// `UnexpectedTag`; `Incomplete` with the number of content octets that are missing; those of
/// `leaf_under`; `IntegerNegative` and `IntegerTooLarge`.
pub fn parse_der_u32(i: &[u8]) -> BerResult<'_, u32>
    ensures read { Reads (λ v. v) (ReadsNumber (2 ^ 32)) i.now result }
    ensures front { ReadsFront (tagged_at 2 i.now) result }
    ensures refused { (t : Tree) (rest : List ℕ) (e : Error) → ReadsDer 2 i.now t rest
        → below (2 ^ 32) (number_of (content_in t)) ≡ Err e → IsErrAnd result (λ r. r ≡ Refusal.Error e) }
{
    let (rest, object) = parse_der_integer(i)?;
    match object.as_u32() {
        Ok(number) => Ok((rest, number)),
        Err(e) => Err(Refusal::Error(e)),
    }
}

/// Reads an ENUMERATED that isn't negative and below 2^64, in the fewest octets (X.690, 8.4).
///
/// Returns `(rest, object)`. Errors, the first that applies: those of `Header::from_der`;
/// `UnexpectedTag`; `Incomplete` with the number of content octets that are missing; those of
/// `leaf_under`.
pub fn parse_der_enum(i: &[u8]) -> BerResult<'_>
    ensures read { Reads view (ReadsDer 10) i.now result }
    ensures refused { ReadsWhole leaf_error (tagged_at 10 i.now) result }
    ensures lengths { IfOk result (λ p. TellsDefinite p.1) }
{
    leaf_of_tag(i, Tag::Enumerated)
}

/// Reads a BIT STRING whose unused bits are 0 (X.690, 8.6 and 11.2).
///
/// Returns `(rest, object)`. Errors, the first that applies: those of `Header::from_der`;
/// `UnexpectedTag`; `Incomplete` with the number of content octets that are missing; those of
/// `leaf_under`.
pub fn parse_der_bitstring(i: &[u8]) -> BerResult<'_>
    ensures read { Reads view (ReadsDer 3) i.now result }
    ensures refused { ReadsWhole leaf_error (tagged_at 3 i.now) result }
    ensures lengths { IfOk result (λ p. TellsDefinite p.1) }
{
    leaf_of_tag(i, Tag::BitString)
}

/// Reads an OCTET STRING (X.690, 8.7).
///
/// Returns `(rest, object)`. Errors, the first that applies: those of `Header::from_der`;
/// `UnexpectedTag`; `Incomplete` with the number of content octets that are missing; those of
/// `leaf_under`.
pub fn parse_der_octetstring(i: &[u8]) -> BerResult<'_>
    ensures read { Reads view (ReadsDer 4) i.now result }
    ensures refused { ReadsWhole leaf_error (tagged_at 4 i.now) result }
    ensures lengths { IfOk result (λ p. TellsDefinite p.1) }
{
    leaf_of_tag(i, Tag::OctetString)
}

/// Reads a NULL, which has no content (X.690, 8.8).
///
/// Returns `(rest, object)`. Errors, the first that applies: those of `Header::from_der`;
/// `UnexpectedTag`; `Incomplete` with the number of content octets that are missing; those of
/// `leaf_under`.
pub fn parse_der_null(i: &[u8]) -> BerResult<'_>
    ensures read { Reads view (ReadsDer 5) i.now result }
    ensures refused { ReadsWhole leaf_error (tagged_at 5 i.now) result }
    ensures lengths { IfOk result (λ p. TellsDefinite p.1) }
{
    leaf_of_tag(i, Tag::Null)
}

/// Reads an OBJECT IDENTIFIER in the fewest octets (X.690, 8.19), as `06 02 2a 03`.
///
/// Returns `(rest, object)`. Errors, the first that applies: those of `Header::from_der`;
/// `UnexpectedTag`; `Incomplete` with the number of content octets that are missing; those of
/// `leaf_under`.
pub fn parse_der_oid(i: &[u8]) -> BerResult<'_>
    ensures read { Reads view (ReadsDer 6) i.now result }
    ensures refused { ReadsWhole leaf_error (tagged_at 6 i.now) result }
    ensures lengths { IfOk result (λ p. TellsDefinite p.1) }
{
    leaf_of_tag(i, Tag::Oid)
}

/// Reads a SEQUENCE of objects of at most 49 levels (X.690, 8.9), as `30 03 02 01 05`.
///
/// Returns `(rest, object)`. Errors, the first that applies: those of `Header::from_der`;
/// `UnexpectedTag`; `Incomplete` with the number of content octets that are missing; those of
/// `content_under`, `Failure(OutOfMemory)` among them.
pub fn parse_der_sequence<'a>(alloc: Global, i: &'a [u8]) -> BerResult<'a>
    ensures read { ReadsOrWants view (ReadsDer 16) i.now result }
    ensures front { ReadsFront (tagged_at 16 i.now) result }
    ensures lengths { IfOk result (λ p. TellsDefinite p.1) }
{
    object_of_tag(alloc, i, Tag::Sequence)
}

/// Reads a SET of objects of at most 49 levels, in any order (X.690, 8.11), as `31 00`.
///
/// Returns `(rest, object)`. Errors, the first that applies: those of `Header::from_der`;
/// `UnexpectedTag`; `Incomplete` with the number of content octets that are missing; those of
/// `content_under`, `Failure(OutOfMemory)` among them.
pub fn parse_der_set<'a>(alloc: Global, i: &'a [u8]) -> BerResult<'a>
    ensures read { ReadsOrWants view (ReadsDer 17) i.now result }
    ensures front { ReadsFront (tagged_at 17 i.now) result }
    ensures lengths { IfOk result (λ p. TellsDefinite p.1) }
{
    object_of_tag(alloc, i, Tag::Set)
}

/// Reads a UTF8String (X.690, 8.23.10).
///
/// Returns `(rest, object)`. Errors, the first that applies: those of `Header::from_der`;
/// `UnexpectedTag`; `Incomplete` with the number of content octets that are missing; those of
/// `leaf_under`.
pub fn parse_der_utf8string(i: &[u8]) -> BerResult<'_>
    ensures read { Reads view (ReadsDer 12) i.now result }
    ensures refused { ReadsWhole leaf_error (tagged_at 12 i.now) result }
    ensures lengths { IfOk result (λ p. TellsDefinite p.1) }
{
    leaf_of_tag(i, Tag::Utf8String)
}

/// Reads a PrintableString: letters, digits, space and ' ( ) + , - . / : = ? (X.680, 41.4).
///
/// Returns `(rest, object)`. Errors, the first that applies: those of `Header::from_der`;
/// `UnexpectedTag`; `Incomplete` with the number of content octets that are missing; those of
/// `leaf_under`.
pub fn parse_der_printablestring(i: &[u8]) -> BerResult<'_>
    ensures read { Reads view (ReadsDer 19) i.now result }
    ensures refused { ReadsWhole leaf_error (tagged_at 19 i.now) result }
    ensures lengths { IfOk result (λ p. TellsDefinite p.1) }
{
    leaf_of_tag(i, Tag::PrintableString)
}

/// Reads an IA5String: octets below hex 80 (X.680, 41).
///
/// Returns `(rest, object)`. Errors, the first that applies: those of `Header::from_der`;
/// `UnexpectedTag`; `Incomplete` with the number of content octets that are missing; those of
/// `leaf_under`.
pub fn parse_der_ia5string(i: &[u8]) -> BerResult<'_>
    ensures read { Reads view (ReadsDer 22) i.now result }
    ensures refused { ReadsWhole leaf_error (tagged_at 22 i.now) result }
    ensures lengths { IfOk result (λ p. TellsDefinite p.1) }
{
    leaf_of_tag(i, Tag::Ia5String)
}

/// Reads a UniversalString: any octets.
///
/// Returns `(rest, object)`. Errors, the first that applies: those of `Header::from_der`;
/// `UnexpectedTag`; `Incomplete` with the number of content octets that are missing; those of
/// `leaf_under`.
pub fn parse_der_universalstring(i: &[u8]) -> BerResult<'_>
    ensures read { Reads view (ReadsDer 28) i.now result }
    ensures refused { ReadsWhole leaf_error (tagged_at 28 i.now) result }
    ensures lengths { IfOk result (λ p. TellsDefinite p.1) }
{
    leaf_of_tag(i, Tag::UniversalString)
}

/// Reads a BMPString: any octets.
///
/// Returns `(rest, object)`. Errors, the first that applies: those of `Header::from_der`;
/// `UnexpectedTag`; `Incomplete` with the number of content octets that are missing; those of
/// `leaf_under`.
pub fn parse_der_bmpstring(i: &[u8]) -> BerResult<'_>
    ensures read { Reads view (ReadsDer 30) i.now result }
    ensures refused { ReadsWhole leaf_error (tagged_at 30 i.now) result }
    ensures lengths { IfOk result (λ p. TellsDefinite p.1) }
{
    leaf_of_tag(i, Tag::BmpString)
}

/// Reads a T61String, also called TeletexString: any octets.
///
/// Returns `(rest, object)`. Errors, the first that applies: those of `Header::from_der`;
/// `UnexpectedTag`; `Incomplete` with the number of content octets that are missing; those of
/// `leaf_under`.
pub fn parse_der_t61string(i: &[u8]) -> BerResult<'_>
    ensures read { Reads view (ReadsDer 20) i.now result }
    ensures refused { ReadsWhole leaf_error (tagged_at 20 i.now) result }
    ensures lengths { IfOk result (λ p. TellsDefinite p.1) }
{
    leaf_of_tag(i, Tag::T61String)
}

/// Reads a UTCTime: YYMMDDHHMMSSZ, a date and time of the calendar (X.690, 11.8).
///
/// Returns `(rest, object)`. Errors, the first that applies: those of `Header::from_der`;
/// `UnexpectedTag`; `Incomplete` with the number of content octets that are missing; those of
/// `leaf_under`.
pub fn parse_der_utctime(i: &[u8]) -> BerResult<'_>
    ensures read { Reads view (ReadsDer 23) i.now result }
    ensures refused { ReadsWhole leaf_error (tagged_at 23 i.now) result }
    ensures lengths { IfOk result (λ p. TellsDefinite p.1) }
{
    leaf_of_tag(i, Tag::UtcTime)
}

/// Reads a GeneralizedTime: YYYYMMDDHHMMSSZ, a date and time of the calendar, or with a fraction of
/// the second (X.690, 11.7).
///
/// Returns `(rest, object)`. Errors, the first that applies: those of `Header::from_der`;
/// `UnexpectedTag`; `Incomplete` with the number of content octets that are missing; those of
/// `leaf_under`.
pub fn parse_der_generalizedtime(i: &[u8]) -> BerResult<'_>
    ensures read { Reads view (ReadsDer 24) i.now result }
    ensures refused { ReadsWhole leaf_error (tagged_at 24 i.now) result }
    ensures lengths { IfOk result (λ p. TellsDefinite p.1) }
{
    leaf_of_tag(i, Tag::GeneralizedTime)
}
