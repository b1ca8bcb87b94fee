//! The strict octets of a header, in a buffer of their greatest length.

ghost use Rattle.std.specs.Prelude.{◌≡◌, ◌+◌, ◌<◌, ◌≤◌, ℕ, List, [], ◌∷◌, ◌++◌, length, drop};
ghost use Rattle.std.specs.Int.Digits.{digits_of};
ghost use Rattle.asn1_core.specs.Digits.{continued};
ghost use Rattle.asn1_core.specs.Strict.{lead, strict_identifier, strict_length};

use std::marker::Model;

/// The octets of a strict header, kept without an allocation: at most 15, since a tag number of 32
/// bits has at most 5 digits of base 128 and a length of 64 bits at most 8 digits of base 256.
#[derive(Drop)]
pub struct HeaderOctets {
    octets: [u8; 15],
    start: usize,
}

impl Model for HeaderOctets {
    ghost Value = { List ℕ };

    ghost view = { λ o. drop o.start o.octets };

    ghost invariant = { λ o. o.start ≤ 15 };
}

impl HeaderOctets {
    /// Returns the octets.
    pub fn as_slice(&self) -> &[u8]
        ensures octets { result.now ≡ self.now }
        ensures few { length result.now ≤ 15 }
    {
        &self.octets[self.start..]
    }

    /// Returns an empty buffer.
    pub(crate) fn new() -> HeaderOctets
        ensures { result ≡ [] }
    {
        HeaderOctets {
            octets: [0; 15],
            start: 15,
        }
    }

    // One octet more in front.
    fn put(&mut self, octet: u8)
        requires { length self.old < 15 }
        ensures { self.new ≡ octet ∷ self.old }
    {
        self.start -= 1;
        self.octets[self.start] = octet;
    }

    // The digits of a number in base 256, in front.
    fn put_number(&mut self, number: usize)
        requires { length (digits_of 256 number) + length self.old ≤ 15 }
        ensures { self.new ≡ digits_of 256 number ++ self.old }
    {
        let mut left = number;
        while left > 0 {
            self.put((left % 256) as u8);
            left /= 256;
        }
    }

    // The digits of a tag number in base 128 as octets, in front (X.690, 8.1.2.4.2).
    fn put_tag(&mut self, tag: u32)
        requires some { 0 < tag }
        requires room { length (digits_of 128 tag) + length self.old ≤ 15 }
        ensures { self.new ≡ continued (digits_of 128 tag) ++ self.old }
    {
        self.put((tag % 128) as u8);
        let mut left = tag / 128;
        while left > 0 {
            self.put(128 + (left % 128) as u8);
            left /= 128;
        }
    }

    /// Puts the strict length of `size` content octets into an empty buffer (X.690, 10.1).
    pub(crate) fn put_length(&mut self, size: usize)
        requires { self.old ≡ [] }
        ensures length { self.new ≡ strict_length size }
        ensures few { length self.new ≤ 9 }
    {
        if size < 128 {
            self.put(size as u8);
        } else {
            self.put_number(size);
            let count = self.as_slice().len();
            self.put(128 + count as u8);
        }
    }

    /// Puts the strict identifier of a class's number, a constructed bit and a tag number before
    /// the octets that are there.
    pub(crate) fn put_identifier(&mut self, class: u8, constructed: bool, tag: u32)
        requires class { class < 4 }
        requires room { length self.old ≤ 9 }
        ensures { self.new ≡ strict_identifier class constructed tag ++ self.old }
    {
        let bit = if constructed { 32 } else { 0 };
        if tag < 31 {
            self.put(64 * class + bit + tag as u8);
        } else {
            self.put_tag(tag);
            self.put(64 * class + bit + 31);
        }
    }
}
