//! Integers and enumerated values.

ghost use Rattle.std.specs.Prelude.{◌≡◌, ℕ, ◌^◌, ◌<◌, ◌*◌, ◌+◌, MatchOption, Option, ◌↔◌, IsTrue};
ghost use Rattle.std.specs.Option.{SomeIff};
ghost use Rattle.std.specs.Int.Digits.{number_from_digits};
ghost use Rattle.der_tree.specs.Access.{below, integer_at};
ghost use Rattle.der_tree.specs.Table.{is_shortest, is_negative, IsEnumerated};

use asn1_core::Error;

/// Whether the octets are a two's complement number in the fewest octets (X.690, 8.3).
pub fn is_shortest_integer(content: &[u8]) -> bool
    ensures { result ≡ is_shortest content.now }
{
    match content {
        [] => false,
        [_] => true,
        [first, second, ..] => !(*first == 0 && *second < 128)
            && !(*first == 255 && *second >= 128),
    }
}

/// Whether the octets begin with bit 1.
pub fn is_negative_integer(content: &[u8]) -> bool
    ensures { result ≡ is_negative content.now }
{
    match content {
        [] => false,
        [first, ..] => *first >= 128,
    }
}

/// The number with these digits of base 256, or none past 64 bits.
pub fn number_of(content: &[u8]) -> Option<u64>
    ensures { let n = number_from_digits 256 content.now in SomeIff result (n < 2 ^ 64) n }
{
    let mut number = 0u64;
    let mut rest = content;
    while let Some((digit, after)) = rest.split_first() {
        number = number.checked_mul(256)?.checked_add(u64::from(*digit))?;
        rest = after;
    }
    Some(number)
}

/// The number of an INTEGER's content octets (X.690, 8.3): `BerValueError` if they aren't the
/// fewest, `IntegerNegative` below 0, `IntegerTooLarge` from 2^32 on.
pub fn u32_of(content: &[u8]) -> Result<u32, Error>
    ensures { result ≡ below (2 ^ 32) (integer_at content.now) }
{
    if !is_shortest_integer(content) {
        return Err(Error::BerValueError);
    }
    if is_negative_integer(content) {
        return Err(Error::IntegerNegative);
    }
    match number_of(content) {
        Some(number) => u32::try_from(number).map_err(|_| Error::IntegerTooLarge),
        None => Err(Error::IntegerTooLarge),
    }
}

/// The number of an enumerated value (X.690, 8.4), if it is not negative and below 2^64.
pub(crate) fn enumerated_of(content: &[u8]) -> Option<u64>
    ensures { MatchOption result (IsEnumerated content.now → ⊥)
        (λ n. (n ≡ number_from_digits 256 content.now) × IsEnumerated content.now) }
{
    if !is_shortest_integer(content) || is_negative_integer(content) {
        return None;
    }
    number_of(content)
}

/// Whether the octets are the content of such an enumerated value.
pub(crate) fn is_enumerated(content: &[u8]) -> bool
    ensures { IsTrue result ↔ IsEnumerated content.now }
{
    match enumerated_of(content) {
        Some(_) => true,
        None => false,
    }
}
