//! Numbers in decimal, each in its one spelling.

ghost use Rattle.std.specs.Prelude.{◌≡◌, ◌↔◌, ◌<◌, ◌^◌, ℕ, Some, IfSome, IsSome, IsTrue, length, slice_index};
ghost use Rattle.std.specs.Char.{IsAsciiDigit};
ghost use Rattle.std.specs.Fmt.{decimal};
ghost use Rattle.std.specs.List.{AllByRecursion};

/// Whether each octet is a decimal digit of ASCII.
fn is_digits(octets: &[u8]) -> bool
    ensures { IsTrue result ↔ AllByRecursion IsAsciiDigit octets.now }
{
    octets.iter().all(|octet| octet.is_ascii_digit())
}

/// The octets as text, if they are decimal digits of ASCII.
fn digits_of(octets: &[u8]) -> Option<&str>
    ensures found { IfSome result (λ digits. digits.now ≡ octets.now) }
    ensures digits { IfSome result (λ digits. AllByRecursion IsAsciiDigit digits.now) }
    ensures only { AllByRecursion IsAsciiDigit octets.now → IsSome result }
{
    if !is_digits(octets) {
        return None;
    }
    str::from_utf8(octets).ok()
}

/// Whether a zero comes before other octets.
fn has_zero_in_front(octets: &[u8]) -> bool
    ensures { IsTrue result ↔ ((1 < length octets.now) × (slice_index octets.now 0 ≡ 48)) }
{
    octets.len() > 1 && octets[0] == b'0'
}

/// The number that the octets write in decimal, with no zero in front of other digits.
pub(crate) fn number_of(octets: &[u8]) -> Option<usize>
    ensures found { IfSome result (λ n. (n < 2 ^ 64) × (octets.now ≡ decimal n)) }
    ensures only { (n : ℕ) → n < 2 ^ 64 → octets.now ≡ decimal n → result ≡ Some n }
{
    let digits = digits_of(octets)?;
    if has_zero_in_front(octets) {
        return None;
    }
    digits.parse::<usize>().ok()
}

/// `number_of`, if it is below 2^32.
pub(crate) fn limit_of(octets: &[u8]) -> Option<u32>
    ensures found { IfSome result (λ n. (n < 2 ^ 32) × (octets.now ≡ decimal n)) }
    ensures only { (n : ℕ) → n < 2 ^ 32 → octets.now ≡ decimal n → result ≡ Some n }
{
    let number = number_of(octets)?;
    if number > u32::MAX as usize {
        return None;
    }
    Some(number as u32)
}
