//! Headers of elements: identifier and length octets (X.690, 8.1.2 and 8.1.3).

ghost use Rattle.std.specs.Prelude.{◌≡◌, ◌+◌, ◌^◌, ◌<◌, ◌≤◌, ◌↔◌, length, not, ℕ, List, ◌++◌, IsTrue, IsOk, IfOk, IfErr, IsOkAnd, IsSome, IfSome, Some};
ghost use Rattle.std.proofs.Common.{rules};
ghost use Rattle.std.specs.Cmp.Rules.{comparing};

use crate::class::Class;
use crate::count::HeaderCount;
use crate::error::Error;
use crate::length::Length;
use crate::octets::HeaderOctets;
use crate::outcome::ParseResult;
use crate::read;
use crate::tag::Tag;

/// The header of an element: its class, its constructed bit, its tag number and its length
/// (X.690, 8.1.1). It holds no octets, so one header may come from several spellings.
///
/// Two headers are equal if class, constructed bit and tag number are; the length isn't compared.
#[derive(Clone, Copy, Debug)]
pub struct Header {
    class: Class,
    constructed: bool,
    tag: Tag,
    length: Length,
}

impl Header {
    ghost use Rattle.asn1_core.specs.Strict.{Head, IsHead, strict_header};
    ghost use Rattle.asn1_core.specs.Lenient.{SpellsHeader, BerHead, IsBerHead, SpellsBerHeader};
    ghost use Rattle.asn1_core.specs.Missing.{HasHeader, HasBerHeader, HasStrictHeader, IsMissing};
    ghost use Rattle.asn1_core.specs.Answers.{Gives, TakesNoMemory};
    ghost use Rattle.asn1_core.specs.Counts.{attempts};
    ghost use Rattle.asn1_core.specs.Reading.{header_at, ber_header_at, strict_at};
    ghost use Rattle.asn1_core.specs.Views.{IsDefinite, is_constructed_tag, head_of, ber_head_of, class_of, constructed_of, tag_of, length_of, with_class_of, with_constructed_of, with_tag_of, with_length_of};

    /// Returns the header of these parts. Any parts are accepted, also those that no element has.
    pub fn new(class: Class, constructed: bool, tag: Tag, length: Length) -> Header
        ensures class { class_of result ≡ class }
        ensures constructed { constructed_of result ≡ constructed }
        ensures tag { tag_of result ≡ tag }
        ensures length { length_of result ≡ length }
    {
        Header {
            class,
            constructed,
            tag,
            length,
        }
    }

    /// Returns a universal header of length 0: constructed for the tag numbers 16 and 17 (SEQUENCE
    /// and SET), primitive for all others.
    pub fn new_simple(tag: Tag) -> Header
        ensures class { class_of result ≡ Class.Universal }
        ensures constructed { constructed_of result ≡ is_constructed_tag tag.0 }
        ensures tag { tag_of result ≡ tag }
        ensures length { length_of result ≡ Length.Definite 0 }
    {
        let constructed = tag.0 == Tag::Sequence.0 || tag.0 == Tag::Set.0;
        Header::new(Class::Universal, constructed, tag, Length::Definite(0))
    }

    /// Returns the header with another class.
    pub fn with_class(self, class: Class) -> Header
        ensures { result ≡ with_class_of self class }
    {
        Header { class, ..self }
    }

    /// Returns the header with another constructed bit.
    pub fn with_constructed(self, constructed: bool) -> Header
        ensures { result ≡ with_constructed_of self constructed }
    {
        Header {
            constructed,
            ..self
        }
    }

    /// Returns the header with another tag number.
    pub fn with_tag(self, tag: Tag) -> Header
        ensures { result ≡ with_tag_of self tag }
    {
        Header { tag, ..self }
    }

    /// Returns the header with another length.
    pub fn with_length(self, length: Length) -> Header
        ensures { result ≡ with_length_of self length }
    {
        Header { length, ..self }
    }

    /// Reads a header by the rules of BER (X.690, 8.1.2 and 8.1.3) from the front of `i`. Returns
    /// `(rest, header)`.
    ///
    /// A definite length has 1 to 126 length octets in its long form, leading zeros allowed, and
    /// fits `usize`; the indefinite form is for constructed elements. A tag number is below 2^32,
    /// and its high form may be longer than need be. For example `30 80` is a SEQUENCE's header of
    /// indefinite length. It takes no memory, and time linear in the header's octets.
    ///
    /// # Errors
    ///
    /// The first that applies: `Incomplete` if `i` is empty; `InvalidTag` if a high tag number ends
    /// early or passes 32 bits; `Incomplete` if the length ends early; `InvalidLength` if it begins
    /// with `ff` or doesn't fit `usize`; `ConstructExpected` for the indefinite form on a primitive
    /// element.
    #[inline]
    pub fn from_ber(i: &[u8]) -> ParseResult<'_, Header>
        ensures found { IfOk result (λ r. IsBerHead (ber_head_of r.1)
            × ((octets : List ℕ) × SpellsBerHeader octets (ber_head_of r.1) × (i.now ≡ octets ++ r.0.now))) }
        ensures only { (octets rest : List ℕ) (h : BerHead) → IsBerHead h → SpellsBerHeader octets h
            → i.now ≡ octets ++ rest → IsOkAnd result (λ r. (ber_head_of r.1 ≡ h) × (r.0.now ≡ rest)) }
        ensures shorter { IfOk result (λ r. length r.0.now + 2 ≤ length i.now) }
        ensures missing { IfErr result (IsMissing HasBerHeader i.now) }
        ensures memory { IfErr result TakesNoMemory }
        ensures exact { Gives (λ r. (ber_head_of r.1, r.0.now)) result (ber_header_at i.now) }
    {
        read::ber_header(i)
    }

    /// Reads a header of definite length, in any of its forms, from the front of `i` (X.690, 8.1.2
    /// and 8.1.3). Returns `(rest, header)`.
    ///
    /// It is lenient: the high form of the tag number and the length may be longer than need be, as
    /// in `30 81 03`, a SEQUENCE's header of length 3. `strict` rejects these. It takes no memory,
    /// and time linear in the header's octets.
    ///
    /// # Errors
    ///
    /// The first that applies: `Incomplete` if `i` is empty; `InvalidTag` if a high tag number ends
    /// early or passes 32 bits; `Incomplete` if the length ends early; `InvalidLength` if it begins
    /// with `ff` or doesn't fit `usize`; `DerConstraintFailed(IndefiniteLength)` for the indefinite
    /// form (X.690, 10.1).
    #[inline]
    pub fn from_der(i: &[u8]) -> ParseResult<'_, Header>
        ensures found { IfOk result (λ r. IsHead (head_of r.1)
            × ((octets : List ℕ) × SpellsHeader octets (head_of r.1) × (i.now ≡ octets ++ r.0.now))) }
        ensures definite { IfOk result (λ r. IsDefinite (length_of r.1)) }
        ensures only { (octets rest : List ℕ) (h : Head) → IsHead h → SpellsHeader octets h
            → i.now ≡ octets ++ rest → IsOkAnd result (λ r. (head_of r.1 ≡ h) × (r.0.now ≡ rest)) }
        ensures shorter { IfOk result (λ r. length r.0.now + 2 ≤ length i.now) }
        ensures missing { IfErr result (IsMissing HasHeader i.now) }
        ensures memory { IfErr result TakesNoMemory }
        ensures exact { Gives (λ r. (head_of r.1, r.0.now)) result (header_at i.now) }
    {
        read::definite_header(i)
    }

    /// Reads a header in its one shortest form from the front of `i` (X.690, 8.1.2.2, 8.1.2.4.2 and
    /// 10.1), as `30 03`. Returns `(rest, header)`. It takes no memory, and time linear in the
    /// header's octets.
    ///
    /// # Errors
    ///
    /// The first that applies: `Incomplete` if `i` is empty; `InvalidTag` if a high tag number ends
    /// early, passes 32 bits, is longer than need be or is below 31; `Incomplete` if the length
    /// ends early; `InvalidLength` if it begins with `ff`, doesn't fit `usize` or is longer than
    /// need be; `DerConstraintFailed(IndefiniteLength)` for the indefinite form.
    #[inline]
    pub fn strict(i: &[u8]) -> ParseResult<'_, Header>
        ensures found { IfOk result (λ r. IsHead (head_of r.1)
            × (i.now ≡ strict_header (head_of r.1) ++ r.0.now)) }
        ensures definite { IfOk result (λ r. IsDefinite (length_of r.1)) }
        ensures only { (h : Head) (rest : List ℕ) → IsHead h → i.now ≡ strict_header h ++ rest
            → IsOkAnd result (λ r. (head_of r.1 ≡ h) × (r.0.now ≡ rest)) }
        ensures shorter { IfOk result (λ r. length r.0.now + 2 ≤ length i.now) }
        ensures missing { IfErr result (IsMissing HasStrictHeader i.now) }
        ensures memory { IfErr result TakesNoMemory }
        ensures exact { Gives (λ r. (head_of r.1, r.0.now)) result (strict_at i.now) }
    {
        read::strict_header(i)
    }

    /// Returns the octets of the header in its shortest form (X.690, 8.1.2.2, 8.1.2.4.2 and 10.1),
    /// at most 15; `None` for the indefinite form. It takes no memory.
    pub fn strict_octets(&self) -> Option<HeaderOctets>
        ensures definite { IsSome result ↔ IsDefinite (length_of self.now) }
        ensures octets { IfSome result (λ octets. octets ≡ strict_header (head_of self.now)) }
    {
        let Length::Definite(size) = self.length else {
            return None;
        };
        let mut octets = HeaderOctets::new();
        octets.put_length(size);
        octets.put_identifier(self.class as u8, self.constructed, self.tag.0);
        Some(octets)
    }

    /// Reads what `from_der` reads, with its errors, and adds one header attempt to `count`.
    #[inline]
    pub fn from_der_counted<'a>(i: &'a [u8], count: &mut HeaderCount) -> ParseResult<'a, Header>
        requires { attempts count.old + 1 < 2 ^ 128 }
        ensures count { attempts count.new ≡ attempts count.old + 1 }
        ensures found { IfOk result (λ r. IsHead (head_of r.1)
            × ((octets : List ℕ) × SpellsHeader octets (head_of r.1) × (i.now ≡ octets ++ r.0.now))) }
        ensures definite { IfOk result (λ r. IsDefinite (length_of r.1)) }
        ensures only { (octets rest : List ℕ) (h : Head) → IsHead h → SpellsHeader octets h
            → i.now ≡ octets ++ rest → IsOkAnd result (λ r. (head_of r.1 ≡ h) × (r.0.now ≡ rest)) }
        ensures shorter { IfOk result (λ r. length r.0.now + 2 ≤ length i.now) }
        ensures missing { IfErr result (IsMissing HasHeader i.now) }
        ensures memory { IfErr result TakesNoMemory }
        ensures exact { Gives (λ r. (head_of r.1, r.0.now)) result (header_at i.now) }
    {
        count.raise();
        Header::from_der(i)
    }

    /// Reads what `strict` reads, with its errors, and adds one header attempt to `count`.
    #[inline]
    pub fn strict_counted<'a>(i: &'a [u8], count: &mut HeaderCount) -> ParseResult<'a, Header>
        requires { attempts count.old + 1 < 2 ^ 128 }
        ensures count { attempts count.new ≡ attempts count.old + 1 }
        ensures found { IfOk result (λ r. IsHead (head_of r.1)
            × (i.now ≡ strict_header (head_of r.1) ++ r.0.now)) }
        ensures definite { IfOk result (λ r. IsDefinite (length_of r.1)) }
        ensures only { (h : Head) (rest : List ℕ) → IsHead h → i.now ≡ strict_header h ++ rest
            → IsOkAnd result (λ r. (head_of r.1 ≡ h) × (r.0.now ≡ rest)) }
        ensures shorter { IfOk result (λ r. length r.0.now + 2 ≤ length i.now) }
        ensures missing { IfErr result (IsMissing HasStrictHeader i.now) }
        ensures memory { IfErr result TakesNoMemory }
        ensures exact { Gives (λ r. (head_of r.1, r.0.now)) result (strict_at i.now) }
    {
        let read = Header::strict(i);
        count.raise();
        read
    }

    /// Returns the class.
    pub fn class(&self) -> Class
        ensures { result ≡ class_of self.now }
    {
        self.class
    }

    /// Returns the constructed bit.
    pub fn constructed(&self) -> bool
        ensures { result ≡ constructed_of self.now }
    {
        self.constructed
    }

    /// Returns the tag number.
    pub fn tag(&self) -> Tag
        ensures { result ≡ tag_of self.now }
    {
        self.tag
    }

    /// Returns the length of the content: a number of octets, or the indefinite form.
    pub fn length(&self) -> Length
        ensures { result ≡ length_of self.now }
    {
        self.length
    }

    /// Returns whether the constructed bit is 0.
    pub fn is_primitive(&self) -> bool
        ensures { result ≡ not (constructed_of self.now) }
    {
        !self.constructed
    }

    /// Returns whether the constructed bit is 1.
    pub fn is_constructed(&self) -> bool
        ensures { result ≡ constructed_of self.now }
    {
        self.constructed
    }

    /// Returns `Ok(())` if the class is `class`, else `UnexpectedClass` with both classes.
    pub fn assert_class(&self, class: Class) -> Result<(), Error>
        ensures ok { IsOk result ↔ (class_of self.now ≡ class) }
        ensures err { IfErr result (λ e. e ≡ Error.UnexpectedClass (Some class) (class_of self.now)) }
    {
        self.class.assert_eq(class)
    }

    /// Returns `Ok(())` if the tag number is `tag`, else `UnexpectedTag` with both numbers.
    pub fn assert_tag(&self, tag: Tag) -> Result<(), Error>
        ensures ok { IsOk result ↔ (tag_of self.now ≡ tag) }
        ensures err { IfErr result (λ e. e ≡ Error.UnexpectedTag (Some tag) (tag_of self.now)) }
    {
        self.tag.assert_eq(tag)
    }

    /// Returns `Ok(())` if the constructed bit is 0, else `ConstructUnexpected`.
    pub fn assert_primitive(&self) -> Result<(), Error>
        ensures ok { IsOk result ↔ IsTrue (not (constructed_of self.now)) }
        ensures err { IfErr result (λ e. e ≡ Error.ConstructUnexpected) }
    {
        if self.constructed {
            Err(Error::ConstructUnexpected)
        } else {
            Ok(())
        }
    }

    /// Returns `Ok(())` if the constructed bit is 1, else `ConstructExpected`.
    pub fn assert_constructed(&self) -> Result<(), Error>
        ensures ok { IsOk result ↔ IsTrue (constructed_of self.now) }
        ensures err { IfErr result (λ e. e ≡ Error.ConstructExpected) }
    {
        if self.constructed {
            Ok(())
        } else {
            Err(Error::ConstructExpected)
        }
    }

    /// Returns whether the class is `Universal`.
    pub fn is_universal(&self) -> bool
        ensures { IsTrue result ↔ (class_of self.now ≡ Class.Universal) }
    {
        self.class == Class::Universal
    }

    /// Returns whether the class is `Application`.
    pub fn is_application(&self) -> bool
        ensures { IsTrue result ↔ (class_of self.now ≡ Class.Application) }
    {
        self.class == Class::Application
    }

    /// Returns whether the class is `ContextSpecific`.
    pub fn is_contextspecific(&self) -> bool
        ensures { IsTrue result ↔ (class_of self.now ≡ Class.ContextSpecific) }
    {
        self.class == Class::ContextSpecific
    }

    /// Returns whether the class is `Private`.
    pub fn is_private(&self) -> bool
        ensures { IsTrue result ↔ (class_of self.now ≡ Class.Private) }
    {
        self.class == Class::Private
    }

    /// Returns `Ok(())` if the length is a number of octets, else `IndefiniteLengthUnexpected`.
    pub fn assert_definite(&self) -> Result<(), Error>
        ensures ok { IsOk result ↔ IsDefinite (length_of self.now) }
        ensures err { IfErr result (λ e. e ≡ Error.IndefiniteLengthUnexpected) }
    {
        self.length.assert_definite()
    }
}

/// The universal header of a tag number with length 0, as `new_simple` makes it.
impl From<Tag> for Header {
    ghost use Rattle.asn1_core.specs.Views.{IsSimpleHeader};

    ghost from_gives = { IsSimpleHeader };

    fn from(tag: Tag) -> Header {
        Header::new_simple(tag)
    }
}

impl PartialEq for Header {
    ghost use Rattle.asn1_core.specs.Views.{same_kind};

    ghost eq = { same_kind };

    ghost laws = { Prim.search (comparing, rules) };

    fn eq(&self, other: &Header) -> bool {
        self.class == other.class && self.constructed == other.constructed && self.tag == other.tag
    }
}

impl Eq for Header {
    ghost laws = { Prim.search (comparing, rules) };
}
