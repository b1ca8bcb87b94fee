//! The type `UnsignedBytes`.
ghost use Rattle.std.specs.Prelude.{◌≡◌, ◌^◌, ◌<◌};
ghost use Rattle.std.specs.Option.{SomeIff};
ghost use Rattle.std.specs.Int.Digits.{number_from_digits, digits_of};
ghost use Rattle.asn1_unsigned.specs.Octets.{NoLeadingZero};

/// An unsigned integer of any size, as borrowed octets, the highest first, without leading zero
/// octets: 0 has no octets. It takes no memory.
///
/// Two values compare, and hash, as their numbers.
#[derive(Clone, Copy, Debug)]
pub struct UnsignedBytes<'a> {
    octets: &'a [u8],
    ghost shortest: { digits_of 256 (number_from_digits 256 octets.now) ≡ octets.now },
}

impl<'a> UnsignedBytes<'a> {
    ghost use Rattle.asn1_unsigned.specs.Numbers.{number_of};

    /// Returns the number that the octets make in base 256, the highest first. Leading zero octets
    /// are left out; no octets are 0.
    pub fn from_bytes_be(octets: &'a [u8]) -> UnsignedBytes<'a>
        ensures { number_of result ≡ number_from_digits 256 octets.now }
    {
        let kept = trim(octets);
        UnsignedBytes { octets: kept }
    }

    /// Returns the octets of the number, the highest first and not 0; for 0 there are none.
    pub fn as_bytes(&self) -> &'a [u8]
        ensures shortest { result.now ≡ digits_of 256 (number_of self.now) }
        ensures number { number_from_digits 256 result.now ≡ number_of self.now }
    {
        self.octets
    }

    /// Returns the number, or `None` if it passes 64 bits.
    pub fn as_u64(&self) -> Option<u64>
        ensures { SomeIff result (number_of self.now < 2 ^ 64) (number_of self.now) }
    {
        read_u64(self.octets)
    }
}

// Returns the octets after the leading zeros.
fn trim(octets: &[u8]) -> &[u8]
    ensures number { number_from_digits 256 result.now ≡ number_from_digits 256 octets.now }
    ensures first { NoLeadingZero result.now }
{
    let mut rest = octets;
    while let Some((octet, after)) = rest.split_first() {
        if *octet != 0 {
            return rest;
        }
        rest = after;
    }
    rest
}

// The number of the octets, or none past 64 bits.
fn read_u64(octets: &[u8]) -> Option<u64>
    ensures { SomeIff result (number_from_digits 256 octets.now < 2 ^ 64) (number_from_digits 256 octets.now) }
{
    let mut number = 0u64;
    let mut rest = octets;
    while let Some((octet, after)) = rest.split_first() {
        number = number.checked_mul(256)?.checked_add(u64::from(*octet))?;
        rest = after;
    }
    Some(number)
}
