//! The numbers of two's complement octets.

ghost use Rattle.std.specs.Prelude.{◌≡◌, ◌-◌, ◌^◌, ◌<◌, if◌then◌else◌, IfOk, IfErr, pos};
ghost use Rattle.std.specs.Option.{SomeIff};
ghost use Rattle.std.specs.Int.Digits.{number_from_digits};
ghost use Rattle.asn1_traits.specs.Integers.{unsigned_octets, SpellsInteger};
ghost use Rattle.asn1_traits.specs.Wholes.{whole_of};
ghost use Rattle.asn1_values.specs.Numbers.{first_bit, RefusesUnsigned, RefusesSigned};
ghost use Rattle.asn1_values.specs.Readers.{Gives, unsigned_at, signed_at};

use asn1_core::Error;
use asn1_traits::Whole;

/// Returns whether the first bit is 1.
pub(crate) fn is_negative(octets: &[u8]) -> bool
    ensures { result ≡ first_bit octets.now }
{
    match octets.first() {
        Some(first) => *first >= 0x80,
        None => false,
    }
}

/// Returns the number, without a sign: `InvalidLength` for no octet, `IntegerNegative` for a
/// negative number, `IntegerTooLarge` past 128 bits.
pub(crate) fn read_unsigned(octets: &[u8]) -> Result<u128, Error>
    ensures number { IfOk result (λ n. SpellsInteger octets.now (pos n)) }
    ensures refused { IfErr result (λ e. RefusesUnsigned 128 octets.now e) }
    ensures exact { result ≡ unsigned_at 128 octets.now }
{
    if octets.is_empty() {
        return Err(Error::InvalidLength);
    }
    if is_negative(octets) {
        return Err(Error::IntegerNegative);
    }
    match read_size(octets, false) {
        Some(size) => Ok(size),
        None => Err(Error::IntegerTooLarge),
    }
}

/// Returns the number, with its sign: `InvalidLength` for no octet, `IntegerTooLarge` past 128
/// bits.
pub(crate) fn read_whole(octets: &[u8]) -> Result<Whole, Error>
    ensures number { IfOk result (λ w. SpellsInteger octets.now (whole_of w)) }
    ensures refused { IfErr result (λ e. RefusesSigned 129 octets.now e) }
    ensures exact { Gives whole_of result (signed_at 129 octets.now) }
{
    if octets.is_empty() {
        return Err(Error::InvalidLength);
    }
    let negative = is_negative(octets);
    match read_size(octets, negative) {
        Some(size) => Ok(Whole { negative, size }),
        None => Err(Error::IntegerTooLarge),
    }
}

// The number that the octets make, each of them turned if it is negative; none past 128 bits.
fn read_size(octets: &[u8], negative: bool) -> Option<u128>
    ensures { SomeIff result (number_from_digits 256 (unsigned_octets negative octets.now) < 2 ^ 128) (number_from_digits 256 (unsigned_octets negative octets.now)) }
{
    let mut number = 0u128;
    let mut rest = octets;
    while let Some((octet, after)) = rest.split_first() {
        number = number
            .checked_mul(256)?
            .checked_add(u128::from(digit(negative, *octet)))?;
        rest = after;
    }
    Some(number)
}

// The octet, or turned if the number is negative.
fn digit(negative: bool, octet: u8) -> u8
    ensures { result ≡ (if negative then 255 - octet else octet) }
{
    if negative { 255 - octet } else { octet }
}
