//! Keys.

use crate::called::Called;
use crate::kinds::{Check, OfKey};
use crate::validator::certificate::add_judged;
use crate::words::{Words, add_error, add_made, add_words_before};
use rows_hex::{Added, add_hex};
use x509_names::{PublicKey, RSAPublicKey, SubjectPublicKeyInfo};

impl Words for SubjectPublicKeyInfo<'_> {
    fn add_words(&self, text: &mut String) -> Added {
        self.algorithm.add_words(text)?;
        text.push_str(", ")?;
        self.subject_public_key.add_words(text)?;
        text.push_str(" of ")?;
        add_hex(text, self.raw)
    }
}

impl Words for RSAPublicKey<'_> {
    fn add_words(&self, text: &mut String) -> Added {
        add_numbers(text, self)?;
        write!(text, ", {} bits", self.key_size())
    }
}

/// Adds the contents of a key's two numbers.
fn add_numbers(text: &mut String, key: &RSAPublicKey<'_>) -> Added {
    text.push_str("modulus ")?;
    add_hex(text, key.modulus)?;
    text.push_str(", exponent ")?;
    add_hex(text, key.exponent)
}

/// Adds the exponent of a key with these octets as its exponent.
pub(crate) fn add_exponent(text: &mut String, octets: &[u8]) -> Added {
    let key = RSAPublicKey {
        modulus: b"\x03",
        exponent: octets,
    };
    match key.try_exponent() {
        Ok(number) => write!(text, "{number}"),
        Err(error) => add_error(text, &error),
    }
}

impl Called<OfKey> for SubjectPublicKeyInfo<'_> {
    fn add_called(&self, text: &mut String, call: OfKey, rest: &[u8]) -> Added {
        match call {
            OfKey::Words => add_words_before(text, self, rest),
            // what the key's octets are by their algorithm, and the key's size
            OfKey::Parsed => add_made(text, self.parsed()),
            OfKey::Structure => add_judged(text, Check::Structure, self),
        }
    }
}

impl Words for PublicKey<'_> {
    /// The kind of the key, its octets, and its size.
    fn add_words(&self, text: &mut String) -> Added {
        add_kind(text, self)?;
        write!(text, ", {} bits", self.key_size())
    }
}

/// Adds the kind of a key, and its octets.
fn add_kind(text: &mut String, key: &PublicKey<'_>) -> Added {
    let (kind, octets) = match key {
        PublicKey::RSA(key) => return add_numbers(text, key),
        PublicKey::EC(point) => ("EC ", point.data()),
        PublicKey::DSA(octets) => ("DSA ", *octets),
        PublicKey::GostR3410(octets) => ("GostR3410 ", *octets),
        PublicKey::GostR3410_2012(octets) => ("GostR3410_2012 ", *octets),
        PublicKey::Unknown(octets) => ("Unknown ", *octets),
    };
    text.push_str(kind)?;
    add_hex(text, octets)
}
