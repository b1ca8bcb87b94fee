//! Content octets of an object identifier, tested and read without memory.
ghost use Rattle.std.specs.Prelude.{◌≡◌, ◌↔◌, ◌^◌, ◌<◌, true, [], length, IsTrue, MatchOption};
ghost use Rattle.std.specs.Option.{SomeIff};
ghost use Rattle.asn1_oid.specs.Identifier.{IsOidContent};
ghost use Rattle.asn1_oid.specs.Reading.{is_strict, is_small_after, pushed, numbers_after, SplitsFirst};

/// Returns whether the octets are the content of a strict object identifier (X.690, 8.19.1 and
/// 8.19.2): there is an octet, the last is below hex 80, and no subidentifier begins with hex 80.
/// Numbers may have any size. For example `2a 86 48`, the content of 1.2.840, is strict; `2a 80 01`
/// isn't. It takes no memory, and time linear in the octets.
pub fn is_oid_content(octets: &[u8]) -> bool
    ensures { IsTrue result ↔ IsOidContent octets.now }
{
    strict(octets)
}

fn strict(octets: &[u8]) -> bool
    ensures { result ≡ is_strict octets.now }
{
    let mut within = false;
    for octet in octets {
        if !within && *octet == 0x80 {
            return false;
        }
        within = *octet >= 0x80;
    }
    !octets.is_empty() && !within
}

/// Returns the number with the low seven bits of `octet` after it; `None` past 64 bits.
fn push_digit(number: u64, octet: u8) -> Option<u64>
    ensures { SomeIff result (pushed number octet < 2 ^ 64) (pushed number octet) }
{
    number.checked_mul(128)?.checked_add(u64::from(octet % 128))
}

/// Returns whether each subidentifier is strict and below 2^64.
pub(crate) fn small(octets: &[u8]) -> bool
    ensures { result ≡ is_small_after 0 octets.now }
{
    let mut number = 0u64;
    for octet in octets {
        let Some(next) = push_digit(number, *octet) else {
            return false;
        };
        if *octet < 0x80 {
            number = 0;
        } else if next == 0 {
            return false;
        } else {
            number = next;
        }
    }
    number == 0
}

/// Returns how many subidentifiers end in the octets.
pub(crate) fn count_ends(octets: &[u8]) -> usize
    ensures { result ≡ length (numbers_after 0 octets.now) }
{
    octets.iter().filter(|octet| **octet < 0x80).count()
}

/// Returns the first subidentifier, and the octets after it.
pub(crate) fn read_subidentifier(octets: &[u8]) -> Option<(u64, &[u8])>
    requires { is_small_after 0 octets.now ≡ true }
    ensures { MatchOption result (numbers_after 0 octets.now ≡ [])
        (λ r. SplitsFirst octets.now r.0 r.1.now) }
{
    let mut number = 0u64;
    let mut rest = octets;
    while let Some((octet, after)) = rest.split_first() {
        number = number * 128 + u64::from(*octet % 128);
        rest = after;
        if *octet < 0x80 {
            return Some((number, rest));
        }
    }
    None
}
