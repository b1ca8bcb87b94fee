//! Strings whose characters take two or four octets each, read as text.

ghost use Rattle.std.specs.Prelude.{◌≡◌, ◌↔◌, ◌^◌, ◌<◌, ◌++◌, ◌⊎◌, ℕ, List, IsTrue, IfOk, IfErr, MatchOption, length, refl, string_bytes};
ghost use Rattle.std.specs.Char.{IsScalar};
ghost use Rattle.asn1_traits.specs.Leaves.{ChecksContent, ReadsContent};
ghost use Rattle.asn1_traits.specs.Writes.{IsLong, Measures, Writes};
ghost use Rattle.asn1_strings.specs.Texts.{TestsCharset};
ghost use Rattle.asn1_strings.specs.Wide.{octets_of, wide_octets, MeansWide, IsWideText, BeginsWithChar, BeginsWithNone, ReadsWide};

use asn1_core::{Class, Error, SerializeError, SerializeResult, Tag};
use asn1_device::Sink;
use asn1_traits::{DerLeaf, FromLeaf, Tagged, write_all};
use std::alloc::{AllocError, Global};
use std::convert::AsStr;
use std::marker::PhantomData;

/// The octets of one character, high ones first.
#[derive(Clone, Copy, Debug, PartialEq, Eq, Drop)]
pub enum CharOctets {
    Two([u8; 2]),
    Four([u8; 4]),
}

impl CharOctets {
    /// Returns the octets.
    pub fn as_slice(&self) -> &[u8]
        ensures { result.now ≡ octets_of self.now }
    {
        match self {
            CharOctets::Two(octets) => octets,
            CharOctets::Four(octets) => octets,
        }
    }
}

/// A string type whose characters take two or four octets each.
pub trait WideForm: Tagged {
    /// The octets of a character.
    ghost char_octets: { ℕ → List ℕ };

    /// Returns the octets of the character.
    fn octets_of_char(character: char) -> CharOctets
        ensures { octets_of result ≡ char_octets character };

    /// Reads one character from the front of `octets`. Returns it and the octets after it; `None`
    /// if no character begins there.
    fn first_char<'a>(octets: &'a [u8]) -> Option<(char, &'a [u8])>
        ensures { MatchOption result (BeginsWithNone char_octets octets.now) (λ p. BeginsWithChar char_octets octets.now p.0 p.1.now) };

    /// The tag number fits 32 bits.
    ghost low: { Self.tag_number < 2 ^ 32 };

    /// Each character takes an octet or more.
    ghost some_octet: { (c : ℕ) → 0 < length (char_octets c) };

    /// At most one character begins the octets.
    ghost one_char: { (c d : ℕ) (r s : List ℕ) → IsScalar c → IsScalar d → char_octets c ++ r ≡ char_octets d ++ s → (c ≡ d) × (r ≡ s) };
}

/// A string of a type whose content is its characters in the form `F`. It owns the text, as UTF-8.
#[derive(Drop)]
#[derive_where(Clone, Debug, PartialEq, Eq)]
pub struct WideString<F> {
    /// The text.
    pub text: String,
    form: PhantomData<F>,
}

impl<F> WideString<F> {
    /// Returns the string of this text.
    pub fn new(text: String) -> WideString<F>
        ensures { string_bytes result.text ≡ string_bytes text }
    {
        WideString {
            text,
            form: PhantomData,
        }
    }

    /// Returns the text.
    pub fn as_str(&self) -> &str
        ensures { result.now ≡ string_bytes self.now.text }
    {
        self.text.as_str()
    }

    /// Returns the text that the string owns.
    pub fn into_string(self) -> String
        ensures { string_bytes result ≡ string_bytes self.text }
    {
        self.text
    }

    /// Returns a copy of the text. The only error is out of memory.
    pub fn string(&self, alloc: Global) -> Result<String, AllocError>
        ensures { IfOk result (λ s. string_bytes s ≡ string_bytes self.now.text) }
    {
        String::from_str(alloc, self.text.as_str())
    }
}

impl<F> From<String> for WideString<F> {
    ghost from_gives = { λ text string. string_bytes string.text ≡ string_bytes text };

    fn from(text: String) -> WideString<F> {
        WideString::new(text)
    }
}

impl<F> AsStr for WideString<F> {
    ghost text = { λ string. string_bytes string.text };

    fn as_str(&self) -> &str {
        WideString::as_str(self)
    }
}

impl<F: WideForm> WideString<F> {
    /// Returns `Ok(())` if the octets are those of some text, else `StringInvalidCharset`.
    pub fn test_valid_charset(octets: &[u8]) -> Result<(), Error>
        ensures { TestsCharset (IsWideText F.char_octets) octets.now result }
    {
        let mut rest = octets;
        while !rest.is_empty() {
            match F::first_char(rest) {
                Some((_, after)) => rest = after,
                None => return Err(Error::StringInvalidCharset),
            }
        }
        Ok(())
    }
}

// The text whose octets these are. `StringInvalidCharset` if there is none; `OutOfMemory` if
// memory ran out.
fn read_text<F: WideForm>(alloc: Global, octets: &[u8]) -> Result<String, Error>
    ensures { ReadsWide F.char_octets string_bytes octets.now result }
{
    let mut text = String::new(alloc);
    let mut rest = octets;
    while !rest.is_empty() {
        match F::first_char(rest) {
            Some((character, after)) => match text.push(character) {
                Ok(()) => rest = after,
                Err(_) => return Err(Error::OutOfMemory),
            },
            None => return Err(Error::StringInvalidCharset),
        }
    }
    Ok(text)
}

// How many octets the text has. `InvalidLength` if `usize` can't count them.
fn text_len<F: WideForm>(text: &str) -> SerializeResult<usize>
    ensures { Measures (wide_octets F.char_octets text.now) result }
{
    let mut total = 0usize;
    let mut rest = text.chars();
    while let Some(character) = rest.next() {
        let octets = F::octets_of_char(character);
        total = match total.checked_add(octets.as_slice().len()) {
            Some(n) => n,
            None => return Err(SerializeError::InvalidLength),
        };
    }
    Ok(total)
}

// Writes the octets of the text, and returns their number.
fn write_text<F: WideForm, S: Sink>(text: &str, writer: &mut S) -> SerializeResult<usize>
    ensures { Writes (S.contents writer.old) (S.contents writer.new) (S.failures writer.old) (S.failures writer.new)
        (IsLong (wide_octets F.char_octets text.now)) ⊥ ⊥ (wide_octets F.char_octets text.now) result }
{
    let mut total = 0usize;
    let mut rest = text.chars();
    while let Some(character) = rest.next() {
        let octets = F::octets_of_char(character);
        let n = match write_all(writer, octets.as_slice()) {
            Ok(n) => n,
            Err(e) => return Err(e),
        };
        total = match total.checked_add(n) {
            Some(n) => n,
            None => return Err(SerializeError::InvalidLength),
        };
    }
    Ok(total)
}

impl<F: WideForm> Tagged for WideString<F> {
    const TAG: Tag = F::TAG;

    ghost tag_number = { F.tag_number };

    fn own_class() -> Class {
        Class::Universal
    }

    fn own_tag() -> Tag {
        F::own_tag()
    }
}

impl<F: WideForm> DerLeaf for WideString<F> {
    ghost content_means = { MeansWide F.char_octets (λ v. string_bytes v.text) };

    ghost content_allowed = { λ _. Unit {0} };

    ghost leaf_form = { λ _. Unit {0} };

    ghost content = { λ v. wide_octets F.char_octets (string_bytes v.text) };

    ghost content_grows = { Unit {0} };

    ghost low = { F.low };

    ghost fits = { λ v _. (tt, refl) };

    ghost same = { λ v w _ read. read };

    fn check_content(_octets: &[u8]) -> Result<(), Error> {
        Ok(())
    }

    fn leaf_in_form(&self) -> bool {
        true
    }

    fn leaf_len(&self) -> SerializeResult<usize> {
        text_len::<F>(self.text.as_str())
    }

    fn write_leaf<S: Sink>(&self, writer: &mut S) -> SerializeResult<usize> {
        write_text::<F, S>(self.text.as_str(), writer)
    }
}

impl<'a, F: WideForm> FromLeaf<'a> for WideString<F> {
    fn from_content(alloc: Global, octets: &'a [u8]) -> Result<WideString<F>, Error>
        ensures value { ReadsContent (Unit {0}) (MeansWide F.char_octets (λ v. string_bytes v.text)) octets.now result }
        ensures refused { IfErr result (λ e. (e ≡ Error.OutOfMemory) ⊎ (e ≡ Error.StringInvalidCharset)) }
    {
        match read_text::<F>(alloc, octets) {
            Ok(text) => Ok(WideString::new(text)),
            Err(e) => Err(e),
        }
    }
}
