//! The front of an input: a whole item, the beginning of one, or neither.
ghost use Rattle.std.specs.Prelude.{◌≡◌, ℕ, ◌+◌, ◌*◌, ◌^◌, ◌<◌, ◌≤◌, ◌∷◌, length};
ghost use Rattle.std.specs.Int.Digits.{number_from_digits};
ghost use Rattle.cert_framing.specs.Fronts.{StandsAtFront, IsLeastLength};

use asn1_core::fewest_digits;

/// The identifier octet of a SEQUENCE: universal class, constructed, tag number 16 (X.690, 8.1.2
/// and 8.9.1).
const SEQUENCE: u8 = 0x30;

/// What an input begins with.
#[derive(Clone, Copy, Debug, PartialEq, Eq)]
pub(crate) enum Front {
    /// An item of this number of octets.
    Whole(usize),
    /// Octets that are a proper prefix of an item, and nothing after them.
    Part,
    /// Nothing that is an item or could become one.
    Nothing,
}

/// Returns what the octets begin with, if an item has at most `limit` content octets.
pub(crate) fn front_of(limit: u32, octets: &[u8]) -> Front
    ensures { StandsAtFront limit octets.now result }
{
    match octets {
        [] => Front::Part,
        [SEQUENCE] => Front::Part,
        [SEQUENCE, first, rest @ ..] => {
            if *first < 0x80 {
                short_front(limit, *first, rest)
            } else {
                long_front(limit, usize::from(*first - 0x80), rest)
            }
        }
        _ => Front::Nothing,
    }
}

/// Returns the front of a sequence whose length is `size`, in the short form, and is followed by
/// `rest`.
fn short_front(limit: u32, size: u8, rest: &[u8]) -> Front
    requires { size < 128 }
    ensures { StandsAtFront limit (48 ∷ size ∷ rest.now) result }
{
    if u32::from(size) > limit {
        return Front::Nothing;
    }
    let size = usize::from(size);
    if rest.len() < size {
        Front::Part
    } else {
        Front::Whole(2 + size)
    }
}

/// Returns the front of a sequence whose length is in the long form, in `count` octets, the first
/// of `rest`.
fn long_front(limit: u32, count: usize, rest: &[u8]) -> Front
    requires { count < 128 }
    ensures { StandsAtFront limit (48 ∷ (128 + count) ∷ rest.now) result }
{
    if count == 0 || count > 4 {
        return Front::Nothing;
    }
    let (known, _) = rest.split_at(rest.len().min(count));
    let Some(least) = least_length(count, known) else {
        return Front::Nothing;
    };
    if least > u64::from(limit) {
        return Front::Nothing;
    }
    let size = count + least as usize;
    if rest.len() < size {
        Front::Part
    } else {
        Front::Whole(2 + size)
    }
}

/// Returns the least length that takes `count` octets in the long form and begins with the `known`
/// ones; `None` if there is no such length.
fn least_length(count: usize, known: &[u8]) -> Option<u64>
    requires some { 0 < count }
    requires few { count ≤ 4 }
    requires within { length known.now ≤ count }
    ensures { IsLeastLength known.now count result }
{
    // a law: digits whose first isn't 0 are the digits of the number that they make
    fewest_digits();
    match known {
        [] => Some(if count == 1 {
            0x80
        } else {
            raised(1, count - 1)
        }),
        [first, ..] => {
            if *first == 0 || (count == 1 && *first < 0x80) {
                return None;
            }
            Some(raised(number_of(known), count - known.len()))
        }
    }
}

/// Returns the number that at most four octets write, the highest first.
fn number_of(octets: &[u8]) -> u64
    requires { length octets.now ≤ 4 }
    ensures value { result ≡ number_from_digits 256 octets.now }
    ensures small { result < 2 ^ 32 }
{
    match octets {
        [] => 0,
        [a] => u64::from(*a),
        [a, b] => u64::from(*a) * 0x100 + u64::from(*b),
        [a, b, c] => (u64::from(*a) * 0x100 + u64::from(*b)) * 0x100 + u64::from(*c),
        [a, b, c, d] => ((u64::from(*a) * 0x100 + u64::from(*b)) * 0x100 + u64::from(*c)) * 0x100
            + u64::from(*d),
        _ => unreachable!(),
    }
}

/// Returns the number with `places` octets of zeros after it.
fn raised(number: u64, places: usize) -> u64
    requires low { number < 2 ^ 32 }
    requires few { places < 4 }
    ensures { result ≡ number * 256 ^ places }
{
    match places {
        0 => number,
        1 => number * 0x100,
        2 => number * 0x1_0000,
        _ => number * 0x100_0000,
    }
}
