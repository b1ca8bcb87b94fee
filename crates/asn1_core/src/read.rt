//! Reading identifier and length octets from the front of a slice.
//!
//! Each reader returns what a function on lists of `specs/Reading.antt` returns, errors included;
//! the meaning is in the contracts of the public readers of `Header`.

ghost use Rattle.std.specs.Prelude.{◌≡◌, ◌+◌, ◌*◌, ◌/◌, ◌^◌, ◌<◌, SomeIff, IfOk, IfSome, Ok};
ghost use Rattle.std.specs.Int.Digits.{number_from_digits};
ghost use Rattle.asn1_core.specs.Answers.{Gives};
ghost use Rattle.asn1_core.specs.Reading.{high_tag_after, tag_at, identity_at, size_at, length_at, ber_header_at, header_at, is_short_identifier, is_short_length, strict_at};
ghost use Rattle.asn1_core.specs.Views.{class_number, definite_size, identity_of, head_of, ber_head_of, IsDefinite};

use crate::class::Class;
use crate::error::{DerConstraint, Error, Needed};
use crate::header::Header;
use crate::length::Length;
use crate::outcome::{Err as Refusal, ParseResult};
use crate::tag::Tag;

/// The class, the constructed bit and the tag number of identifier octets.
#[derive(Clone, Copy)]
struct Identifier {
    class: Class,
    constructed: bool,
    tag: u32,
}

// The number with one more digit of base 128, if it fits.
fn with_digit(number: u32, digit: u8) -> Option<u32>
    ensures { SomeIff result (number * 128 + digit < 2 ^ 32) (number * 128 + digit) }
{
    number.checked_mul(128)?.checked_add(u32::from(digit))
}

// The digits of a high tag number (X.690, 8.1.2.4.2).
#[tactic(auto, unfolding(crate::specs::Reading::high_tag_after))]
fn high_tag(octets: &[u8]) -> ParseResult<'_, u32>
    ensures { Gives (λ r. (r.1, r.0.now)) result (high_tag_after 0 octets.now) }
{
    let mut rest = octets;
    let mut tag = 0;
    while let Some((octet, after)) = rest.split_first() {
        let Some(next) = with_digit(tag, *octet % 128) else {
            return Err(Refusal::Error(Error::InvalidTag));
        };
        if *octet < 128 {
            return Ok((after, next));
        }
        tag = next;
        rest = after;
    }
    Err(Refusal::Error(Error::InvalidTag))
}

// The tag number, from the low five bits of the first octet and the octets after it.
fn tag_number(low: u8, rest: &[u8]) -> ParseResult<'_, u32>
    ensures { Gives (λ r. (r.1, r.0.now)) result (tag_at low rest.now) }
{
    if low < 31 {
        Ok((rest, u32::from(low)))
    } else {
        high_tag(rest)
    }
}

// The class of a first octet.
fn class_of(octet: u8) -> Class
    ensures { class_number result ≡ octet / 64 }
{
    match octet >> 6 {
        0 => Class::Universal,
        1 => Class::Application,
        2 => Class::ContextSpecific,
        _ => Class::Private,
    }
}

// The identifier octets (X.690, 8.1.2).
#[tactic(auto, unfolding(crate::specs::Reading::identity_at))]
fn read_identifier(i: &[u8]) -> ParseResult<'_, Identifier>
    ensures { Gives (λ r. (identity_of r.1, r.0.now)) result (identity_at i.now) }
{
    let Some((octet, rest)) = i.split_first() else {
        return Err(Refusal::Incomplete(Needed::Size(1)));
    };
    let (after, tag) = tag_number(*octet & 0x1f, rest)?;
    let found = Identifier {
        class: class_of(*octet),
        constructed: (*octet >> 5) & 1 == 1,
        tag,
    };
    Ok((after, found))
}

// The number of these digits of base 256, if it fits; most lengths have one digit or two.
#[inline]
fn number_of(digits: &[u8]) -> Option<usize>
    ensures { SomeIff result (number_from_digits 256 digits.now < 2 ^ 64) (number_from_digits 256 digits.now) }
{
    match digits {
        [digit] => Some(usize::from(*digit)),
        [high, low] => Some(usize::from(*high) * 256 + usize::from(*low)),
        _ => large_number_of(digits),
    }
}

// The number of any count of digits of base 256, one after the other, if it fits.
fn large_number_of(digits: &[u8]) -> Option<usize>
    ensures { SomeIff result (number_from_digits 256 digits.now < 2 ^ 64) (number_from_digits 256 digits.now) }
{
    let mut number = 0usize;
    let mut rest = digits;
    while let Some((digit, after)) = rest.split_first() {
        number = number.checked_mul(256)?.checked_add(usize::from(*digit))?;
        rest = after;
    }
    Some(number)
}

// The octets of a long length, `count` of them (X.690, 8.1.3.5).
#[tactic(auto, unfolding(crate::specs::Reading::size_at))]
fn long_length(count: usize, octets: &[u8]) -> ParseResult<'_, Length>
    ensures { Gives (λ r. (definite_size r.1, r.0.now)) result (size_at count octets.now) }
{
    if octets.len() < count {
        return Err(Refusal::Incomplete(Needed::Size(count - octets.len())));
    }
    let (digits, rest) = octets.split_at(count);
    match number_of(digits) {
        Some(n) => Ok((rest, Length::Definite(n))),
        None => Err(Refusal::Error(Error::InvalidLength)),
    }
}

// The length octets (X.690, 8.1.3).
#[tactic(auto, unfolding(crate::specs::Reading::length_at))]
fn read_length(i: &[u8]) -> ParseResult<'_, Length>
    ensures { Gives (λ r. (definite_size r.1, r.0.now)) result (length_at i.now) }
{
    let Some((octet, rest)) = i.split_first() else {
        return Err(Refusal::Incomplete(Needed::Size(1)));
    };
    match *octet {
        0..=127 => Ok((rest, Length::Definite(usize::from(*octet)))),
        128 => Ok((rest, Length::Indefinite)),
        255 => Err(Refusal::Error(Error::InvalidLength)),
        _ => long_length(usize::from(*octet - 128), rest),
    }
}

// The header of an identifier and a length.
fn header_of(identifier: Identifier, length: Length) -> Header
    ensures class { result.class ≡ identifier.class }
    ensures constructed { result.constructed ≡ identifier.constructed }
    ensures tag { result.tag.0 ≡ identifier.tag }
    ensures length { result.length ≡ length }
{
    Header::new(
        identifier.class,
        identifier.constructed,
        Tag(identifier.tag),
        length,
    )
}

// The header of two octets that begins the octets: a low tag number and a short length
// (X.690, 8.1.2.2 and 8.1.3.4). It is read alike by all rules.
#[inline]
#[tactic(auto, unfolding(crate::specs::Reading::identity_at, crate::specs::Reading::length_at, crate::specs::Reading::ber_header_at, crate::specs::Reading::header_at, crate::specs::Reading::strict_at))]
fn short_header(i: &[u8]) -> Option<(&[u8], Header)>
    ensures ber { IfSome result (λ r. ber_header_at i.now ≡ Ok (ber_head_of r.1, r.0.now)) }
    ensures definite { IfSome result (λ r. header_at i.now ≡ Ok (head_of r.1, r.0.now)) }
    ensures strict { IfSome result (λ r. strict_at i.now ≡ Ok (head_of r.1, r.0.now)) }
    ensures length { IfSome result (λ r. IsDefinite r.1.length) }
{
    let [octet, size, rest @ ..] = i else {
        return None;
    };
    let low = *octet & 0x1f;
    if low == 31 || *size >= 128 {
        return None;
    }
    let header = Header::new(
        class_of(*octet),
        (*octet >> 5) & 1 == 1,
        Tag(u32::from(low)),
        Length::Definite(usize::from(*size)),
    );
    Some((rest, header))
}

// The answer with its header put together anew, field by field. So a caller that reads short
// headers in line keeps the fields in registers, and copies no header through memory.
#[inline(always)]
fn by_fields(read: ParseResult<'_, Header>) -> ParseResult<'_, Header>
    ensures { result ≡ read.entry }
{
    match read {
        Ok((rest, header)) => {
            let length = match header.length() {
                Length::Definite(n) => Length::Definite(n),
                Length::Indefinite => Length::Indefinite,
            };
            let whole = Header::new(
                header.class(),
                header.is_constructed(),
                header.tag(),
                length,
            );
            Ok((rest, whole))
        }
        Err(refusal) => Err(refusal),
    }
}

/// Reads a BER header.
#[inline]
pub(crate) fn ber_header(i: &[u8]) -> ParseResult<'_, Header>
    ensures { Gives (λ r. (ber_head_of r.1, r.0.now)) result (ber_header_at i.now) }
{
    match short_header(i) {
        Some(read) => Ok(read),
        None => by_fields(long_ber_header(i)),
    }
}

// A BER header, octet by octet. It stays a function of its own, so that callers hold the form of
// two octets alone.
#[inline(never)]
#[tactic(auto, unfolding(crate::specs::Reading::ber_header_at))]
fn long_ber_header(i: &[u8]) -> ParseResult<'_, Header>
    ensures { Gives (λ r. (ber_head_of r.1, r.0.now)) result (ber_header_at i.now) }
{
    let (after, identifier) = read_identifier(i)?;
    let (rest, length) = read_length(after)?;
    if length == Length::Indefinite && !identifier.constructed {
        return Err(Refusal::Error(Error::ConstructExpected));
    }
    Ok((rest, header_of(identifier, length)))
}

/// Reads a header of definite length, in any of its forms.
#[inline]
pub(crate) fn definite_header(i: &[u8]) -> ParseResult<'_, Header>
    ensures exact { Gives (λ r. (head_of r.1, r.0.now)) result (header_at i.now) }
    ensures definite { IfOk result (λ r. IsDefinite r.1.length) }
{
    match short_header(i) {
        Some(read) => Ok(read),
        None => by_fields(long_definite_header(i)),
    }
}

// A header of definite length, octet by octet, apart as `long_ber_header` is.
#[inline(never)]
#[tactic(auto, unfolding(crate::specs::Reading::header_at))]
fn long_definite_header(i: &[u8]) -> ParseResult<'_, Header>
    ensures exact { Gives (λ r. (head_of r.1, r.0.now)) result (header_at i.now) }
    ensures definite { IfOk result (λ r. IsDefinite r.1.length) }
{
    let (after, identifier) = read_identifier(i)?;
    let (rest, length) = read_length(after)?;
    match length {
        Length::Definite(_) => Ok((rest, header_of(identifier, length))),
        Length::Indefinite => Err(Refusal::Error(Error::DerConstraintFailed(
            DerConstraint::IndefiniteLength,
        ))),
    }
}

// Whether the identifier that begins the octets, for this tag number, is the shortest
// (X.690, 8.1.2.2 and 8.1.2.4.2).
fn has_short_identifier(i: &[u8], tag: u32) -> bool
    ensures { result ≡ is_short_identifier i.now tag }
{
    match i {
        [octet, next, ..] => *octet & 0x1f < 31 || (tag > 30 && *next != 128),
        _ => true,
    }
}

// Whether the length that begins the octets, for this number, is the shortest (X.690, 10.1).
fn has_short_length(i: &[u8], size: usize) -> bool
    ensures { result ≡ is_short_length i.now size }
{
    match i {
        [octet, next, ..] => *octet < 128 || (size > 127 && *next != 0),
        _ => true,
    }
}

/// Reads a header in its shortest form.
#[inline]
pub(crate) fn strict_header(i: &[u8]) -> ParseResult<'_, Header>
    ensures exact { Gives (λ r. (head_of r.1, r.0.now)) result (strict_at i.now) }
    ensures definite { IfOk result (λ r. IsDefinite r.1.length) }
{
    match short_header(i) {
        Some(read) => Ok(read),
        None => by_fields(long_strict_header(i)),
    }
}

// A header of shortest form, octet by octet, apart as `long_ber_header` is.
#[inline(never)]
#[tactic(auto, unfolding(crate::specs::Reading::strict_at))]
fn long_strict_header(i: &[u8]) -> ParseResult<'_, Header>
    ensures exact { Gives (λ r. (head_of r.1, r.0.now)) result (strict_at i.now) }
    ensures definite { IfOk result (λ r. IsDefinite r.1.length) }
{
    let (after, identifier) = read_identifier(i)?;
    if !has_short_identifier(i, identifier.tag) {
        return Err(Refusal::Error(Error::InvalidTag));
    }
    let (rest, length) = read_length(after)?;
    let Length::Definite(size) = length else {
        return Err(Refusal::Error(Error::DerConstraintFailed(DerConstraint::IndefiniteLength)));
    };
    if !has_short_length(after, size) {
        return Err(Refusal::Error(Error::InvalidLength));
    }
    Ok((rest, header_of(identifier, length)))
}
