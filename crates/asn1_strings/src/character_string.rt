//! Character strings whose content is UTF-8 as it is, and is borrowed.

ghost use Rattle.std.specs.Prelude.{◌≡◌, ◌↔◌, ◌^◌, ◌<◌, ℕ, Bool, true, List, IsTrue, IfOk, IfErr, refl, string_bytes};
ghost use Rattle.std.specs.List.{list_all};
ghost use Rattle.std.specs.Str.{IsUtf8};
ghost use Rattle.asn1_traits.specs.Leaves.{ChecksContent, ReadsContent};
ghost use Rattle.asn1_strings.specs.CharsetLaws.{text_is_utf8};
ghost use Rattle.asn1_strings.specs.Charsets.{IsTextOf};
ghost use Rattle.asn1_strings.specs.Texts.{MeansTextOf, TestsCharset};
ghost use Rattle.asn1_strings.specs.Readers.{charset_at, text_at, Gives};
ghost use Rattle.asn1_core.specs.Views.{class_number};

use asn1_core::{Class, Error, SerializeResult, Tag};
use asn1_device::Sink;
use asn1_traits::{DerLeaf, FromLeaf, Tagged, write_all};
use std::alloc::{AllocError, Global};
use std::convert::AsStr;
use std::marker::PhantomData;

/// A string type whose content is UTF-8 of its character set (X.680, 41).
pub trait TestValidCharset: Tagged {
    /// The octets are text of these characters.
    ghost is_text: { List ℕ → Type 0 };

    /// Whether the octets are text of these characters, as a test.
    ghost passes: { List ℕ → Bool };

    /// Returns `Ok(())` if the octets are text of these characters, else `StringInvalidCharset`.
    fn test_valid_charset(octets: &[u8]) -> Result<(), Error>
        ensures { TestsCharset is_text octets.now result };

    /// The tag number fits 32 bits.
    ghost low: { Self.tag_number < 2 ^ 32 };

    /// The test finds text of these characters, and nothing else.
    ghost telling: { (octets : List ℕ) → IsTrue (passes octets) ↔ is_text octets };

    /// Text of these characters is UTF-8.
    ghost utf8: { (octets : List ℕ) → is_text octets → IsUtf8 octets };
}

/// A character set each of whose characters is one octet, below hex 80.
pub trait OctetCharset: Tagged {
    /// The octet is a character of the set.
    ghost has_octet: { ℕ → Bool };

    /// Returns whether the octet is a character of the set.
    fn has(octet: u8) -> bool
        ensures { result ≡ has_octet octet };

    /// The tag number fits 32 bits.
    ghost low_tag: { Self.tag_number < 2 ^ 32 };

    /// Octets of the set are below hex 80.
    ghost ascii: { (octet : ℕ) → has_octet octet ≡ true → octet < 128 };
}

impl<T: OctetCharset> TestValidCharset for T {
    ghost is_text = { IsTextOf T.has_octet };

    ghost passes = { list_all T.has_octet };

    ghost low = { T.low_tag };

    ghost telling = { λ octets. (λ h. h, λ h. h) };

    ghost utf8 = { text_is_utf8 T.has_octet T.ascii };

    fn test_valid_charset(octets: &[u8]) -> Result<(), Error> {
        if has_all::<T>(octets) {
            Ok(())
        } else {
            Err(Error::StringInvalidCharset)
        }
    }
}

fn has_all<T: OctetCharset>(octets: &[u8]) -> bool
    ensures { result ≡ list_all T.has_octet octets.now }
{
    octets.iter().all(|octet| T::has(*octet))
}

/// A string of a type whose content is its UTF-8 octets. `C` is the character set.
#[derive(Drop)]
#[derive_where(Clone, Copy, Debug, PartialEq, Eq)]
pub struct CharacterString<'a, C> {
    /// The text. `new` accepts any; it is in DER form if the type has its characters.
    pub text: &'a str,
    of: PhantomData<C>,
}

impl<'a, C> CharacterString<'a, C> {
    /// Returns the string of this text. Characters that the type lacks are accepted, and aren't
    /// written.
    pub const fn new(text: &'a str) -> CharacterString<'a, C>
        ensures { result.text.now ≡ text.now }
    {
        CharacterString {
            text,
            of: PhantomData,
        }
    }

    /// Returns the text.
    pub const fn as_str(&self) -> &'a str
        ensures { result.now ≡ self.now.text.now }
    {
        self.text
    }

    /// Returns a copy of the text. The only error is out of memory.
    pub fn string(&self, alloc: Global) -> Result<String, AllocError>
        ensures { IfOk result (λ s. string_bytes s ≡ self.now.text.now) }
    {
        String::from_str(alloc, self.text)
    }
}

impl<'a, C> From<&'a str> for CharacterString<'a, C> {
    ghost from_gives = { λ text string. string.text.now ≡ text.now };

    fn from(text: &'a str) -> CharacterString<'a, C> {
        CharacterString::new(text)
    }
}

impl<'a, C> AsStr for CharacterString<'a, C> {
    ghost text = { λ string. string.text.now };

    fn as_str(&self) -> &str {
        CharacterString::as_str(self)
    }
}

impl<'a, C: TestValidCharset> CharacterString<'a, C> {
    /// Returns `Ok(())` if the octets are text of the type's characters, else
    /// `StringInvalidCharset`.
    pub fn test_valid_charset(octets: &[u8]) -> Result<(), Error>
        ensures test { TestsCharset C.is_text octets.now result }
        ensures exact { result ≡ charset_at C.passes octets.now }
    {
        C::test_valid_charset(octets)
    }
}

impl<'b, C: TestValidCharset> Tagged for CharacterString<'b, C> {
    const TAG: Tag = C::TAG;

    ghost tag_number = { C.tag_number };

    fn own_class() -> Class
        ensures { class_number result ≡ 0 }
    {
        Class::Universal
    }

    fn own_tag() -> Tag
        ensures { result.0 ≡ C.tag_number }
    {
        C::own_tag()
    }
}

impl<'b, C: TestValidCharset> DerLeaf for CharacterString<'b, C> {
    ghost content_means = { MeansTextOf C.is_text (λ v. v.text.now) };

    ghost content_allowed = { λ _. Unit {0} };

    ghost leaf_form = { λ v. C.is_text v.text.now };

    ghost content = { λ v. v.text.now };

    ghost low = { C.low };

    ghost fits = { λ v form. (tt, (refl, form)) };

    ghost same = { λ v w _ read. read.0 };

    fn check_content(octets: &[u8]) -> Result<(), Error>
        ensures { ChecksContent (λ _. Unit {0}) octets.now result }
    {
        Ok(())
    }

    fn leaf_in_form(&self) -> bool {
        C::test_valid_charset(self.text.as_bytes()).is_ok()
    }

    fn leaf_len(&self) -> SerializeResult<usize> {
        Ok(self.text.len())
    }

    fn write_leaf<S: Sink>(&self, writer: &mut S) -> SerializeResult<usize> {
        write_all(writer, self.text.as_bytes())
    }
}

impl<'b, C: TestValidCharset> FromLeaf<'b> for CharacterString<'b, C> {
    fn from_content(_alloc: Global, octets: &'b [u8]) -> Result<CharacterString<'b, C>, Error>
        ensures value { ReadsContent ⊥ (MeansTextOf C.is_text (λ v. v.text.now)) octets.now result }
        ensures refused { IfErr result (λ e. e ≡ Error.StringInvalidCharset) }
        ensures exact { Gives (λ v. v.text.now) result (text_at C.passes octets.now) }
    {
        if let Err(e) = Self::test_valid_charset(octets) {
            return Err(e);
        }
        match str::from_utf8(octets) {
            Ok(text) => Ok(CharacterString::new(text)),
            Err(_) => Err(Error::StringInvalidCharset),
        }
    }
}
