//! Digests from hex digits. Which digit it is decides no branch, since no processor could guess it.

ghost use Rattle.std.specs.Prelude.{◌≡◌, ◌<◌, ◌≤◌, ℕ, List, Ok, Err, Some, None, IfSome, IfNone, IsSomeAnd};
ghost use Rattle.hex.specs.Hex.{decode_sized, hex_digit_value, pair_value};
ghost use Rattle.hex.specs.declared.error.FromHexError.{FromHexError};

/// How many hex digits a digest has.
pub(crate) const DIGITS: usize = 64;

/// The value of each hex digit, in either case of letters, and 16 for each other octet.
const VALUES: &[u8; 256] = &[
    16, 16, 16, 16, 16, 16, 16, 16, 16, 16, 16, 16, 16, 16, 16, 16, 16, 16, 16, 16, 16, 16, 16, 16,
    16, 16, 16, 16, 16, 16, 16, 16, 16, 16, 16, 16, 16, 16, 16, 16, 16, 16, 16, 16, 16, 16, 16, 16,
    0, 1, 2, 3, 4, 5, 6, 7, 8, 9, 16, 16, 16, 16, 16, 16, 16, 10, 11, 12, 13, 14, 15, 16, 16, 16,
    16, 16, 16, 16, 16, 16, 16, 16, 16, 16, 16, 16, 16, 16, 16, 16, 16, 16, 16, 16, 16, 16, 16, 10,
    11, 12, 13, 14, 15, 16, 16, 16, 16, 16, 16, 16, 16, 16, 16, 16, 16, 16, 16, 16, 16, 16, 16, 16,
    16, 16, 16, 16, 16, 16, 16, 16, 16, 16, 16, 16, 16, 16, 16, 16, 16, 16, 16, 16, 16, 16, 16, 16,
    16, 16, 16, 16, 16, 16, 16, 16, 16, 16, 16, 16, 16, 16, 16, 16, 16, 16, 16, 16, 16, 16, 16, 16,
    16, 16, 16, 16, 16, 16, 16, 16, 16, 16, 16, 16, 16, 16, 16, 16, 16, 16, 16, 16, 16, 16, 16, 16,
    16, 16, 16, 16, 16, 16, 16, 16, 16, 16, 16, 16, 16, 16, 16, 16, 16, 16, 16, 16, 16, 16, 16, 16,
    16, 16, 16, 16, 16, 16, 16, 16, 16, 16, 16, 16, 16, 16, 16, 16, 16, 16, 16, 16, 16, 16, 16, 16,
    16, 16, 16, 16, 16, 16, 16, 16, 16, 16, 16, 16, 16, 16,
];

fn value_of(digit: u8) -> u8
    ensures there { result ≤ 15 → hex_digit_value digit ≡ Some result }
    ensures none { 15 < result → hex_digit_value digit ≡ None }
{
    VALUES[digit as usize]
}

/// The octet of two digits, the first of which is its high half.
fn octet_of(high: u8, low: u8) -> Option<u8>
    ensures found { IfSome result (λ octet. (place : ℕ) → pair_value high low place ≡ Ok octet) }
    ensures none { IfNone result ((place : ℕ) → (e : FromHexError) × (pair_value high low place ≡ Err e)) }
{
    let first = value_of(high);
    let second = value_of(low);
    if first > 15 {
        return None;
    }
    if second > 15 {
        return None;
    }
    Some(first * 16 + second)
}

/// The digest of these hex digits, none if they aren't 64 or one of them is no hex digit.
pub(crate) fn digest_of(digits: &[u8]) -> Option<[u8; 32]>
    ensures found { IfSome result (λ digest. decode_sized digits.now 32 ≡ Ok digest) }
    ensures only { (digest : List ℕ) → decode_sized digits.now 32 ≡ Ok digest → IsSomeAnd result (λ r. r ≡ digest) }
{
    if digits.len() != DIGITS {
        return None;
    }
    let mut digest = [0u8; 32];
    for place in 0..32usize {
        digest[place] = octet_of(digits[2 * place], digits[2 * place + 1])?;
    }
    Some(digest)
}
