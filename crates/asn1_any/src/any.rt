//! `Any`, an element of any type, and its readers.

ghost use Rattle.std.specs.Prelude.{◌≡◌, ◌+◌, ◌-◌, ◌^◌, ◌<◌, ◌≤◌, ◌++◌, ℕ, List, length, IfOk, IfErr, IsOkAnd, Ok};
ghost use Rattle.asn1_core.specs.Answers.{Gives, TakesNoMemory};
ghost use Rattle.asn1_core.specs.Counts.{attempts};
ghost use Rattle.asn1_core.specs.Elements.{Element};
ghost use Rattle.asn1_core.specs.Missing.{IsMissing};
ghost use Rattle.asn1_core.specs.Views.{class_of, tag_of, length_of, is_constructed_tag};
ghost use Rattle.asn1_any.specs.DerElements.{BeginsWithElement, HasElement};
ghost use Rattle.asn1_any.specs.BerElements.{BerElement, BeginsWithBerElement, HasBerElement};
ghost use Rattle.asn1_any.specs.Reading.{der_element_at, ber_element_at, ber_levels_at};
ghost use Rattle.asn1_any.specs.Views.{any_of, ber_any_of};

use crate::read::{self, MAX_RECURSION};
use asn1_core::{Class, Err as Refusal, Error, Header, HeaderCount, Length, ParseResult, Tag};

/// An element: its header and its content octets, a window of the octets that were read
/// (X.690, 8.1.1). It takes no memory.
///
/// Two are equal if class, constructed bit, tag number and content are; the length in the header
/// isn't compared.
#[derive(Clone, Copy, Debug, PartialEq, Eq)]
pub struct Any<'a> {
    /// Class, constructed bit, tag number and length.
    pub header: Header,
    /// The content octets, without end-of-contents octets.
    pub content: &'a [u8],
}

impl<'a> Any<'a> {
    /// Returns the element of this header and this content. The header's length isn't compared with
    /// the content's.
    pub fn new(header: Header, content: &'a [u8]) -> Any<'a>
        ensures { result ≡ record { header = header; content = content.entry } }
    {
        Any { header, content }
    }

    /// Returns a universal element of this tag number: constructed for 16 and 17 (SEQUENCE and
    /// SET), else primitive. Its header has the content's length.
    pub fn from_tag_and_data(tag: Tag, content: &'a [u8]) -> Any<'a>
        ensures element { any_of result ≡ record { class = 0; constructed = is_constructed_tag tag.0; tag = tag.0; content = content.now } }
        ensures length { length_of result.header ≡ Length.Definite (length content.now) }
        ensures window { result.content ≡ content.entry }
    {
        let header = Header::new_simple(tag).with_length(Length::Definite(content.len()));
        Any::new(header, content)
    }

    /// Reads an element of definite length from the front of `i`. Returns `(rest, element)`.
    ///
    /// Its header may be in any of its definite forms, as `05 81 00`, a NULL whose length is longer
    /// than need be; nothing is required of the content. It takes no memory, and time linear in the
    /// header's octets.
    ///
    /// # Errors
    ///
    /// Those of `Header::from_der`; then `Incomplete` with the number of content octets that are
    /// missing.
    pub fn from_der(i: &'a [u8]) -> ParseResult<'a, Any<'a>>
        ensures found { IfOk result (λ r. BeginsWithElement i.now (any_of r.1) r.0.now) }
        ensures length { IfOk result (λ r. length_of r.1.header ≡ Length.Definite (length r.1.content.now)) }
        ensures only { (e : Element) (rest : List ℕ) → BeginsWithElement i.now e rest
            → IsOkAnd result (λ r. (any_of r.1 ≡ e) × (r.0.now ≡ rest)) }
        ensures shorter { IfOk result (λ r. length r.1.content.now + 2 + length r.0.now ≤ length i.now) }
        ensures missing { IfErr result (IsMissing HasElement i.now) }
        ensures memory { IfErr result TakesNoMemory }
        ensures exact { Gives (λ r. (any_of r.1, r.0.now)) result (der_element_at i.now) }
    {
        read::der_element(i)
    }

    /// Reads what `from_der` reads, with its errors, and adds one header attempt to `count`.
    pub fn from_der_counted(i: &'a [u8], count: &mut HeaderCount) -> ParseResult<'a, Any<'a>>
        requires { attempts count.old + 1 < 2 ^ 128 }
        ensures count { attempts count.new ≡ attempts count.old + 1 }
        ensures found { IfOk result (λ r. BeginsWithElement i.now (any_of r.1) r.0.now) }
        ensures length { IfOk result (λ r. length_of r.1.header ≡ Length.Definite (length r.1.content.now)) }
        ensures only { (e : Element) (rest : List ℕ) → BeginsWithElement i.now e rest
            → IsOkAnd result (λ r. (any_of r.1 ≡ e) × (r.0.now ≡ rest)) }
        ensures shorter { IfOk result (λ r. length r.1.content.now + 2 + length r.0.now ≤ length i.now) }
        ensures missing { IfErr result (IsMissing HasElement i.now) }
        ensures memory { IfErr result TakesNoMemory }
        ensures exact { Gives (λ r. (any_of r.1, r.0.now)) result (der_element_at i.now) }
    {
        read::der_element_counted(i, count)
    }

    /// Reads an element by BER's rules from the front of `i`: of definite length, or of the
    /// indefinite form (X.690, 8.1.3.6), whose content is walked to the `00 00` that ends it.
    /// Returns `(rest, element)`.
    ///
    /// For example `30 80 05 00 00 00` is a SEQUENCE of indefinite length with the content `05 00`.
    /// The content is without the `00 00`, and the header keeps `Length::Indefinite`. At most
    /// `MAX_RECURSION` elements are nested, the outermost counted; those in a definite content
    /// aren't looked at. It takes no memory, and time linear in the element.
    ///
    /// # Errors
    ///
    /// Those of `Header::from_ber`, for the element's header and for each one in it; `BerMaxDepth`
    /// at the header of an element deeper than `MAX_RECURSION`; `Incomplete` with the least number
    /// of octets that are missing.
    pub fn from_ber(i: &'a [u8]) -> ParseResult<'a, Any<'a>>
        ensures found { IfOk result (λ r. BeginsWithBerElement (MAX_RECURSION - 1) i.now (ber_any_of r.1) r.0.now) }
        ensures only { (e : BerElement) (rest : List ℕ) → BeginsWithBerElement (MAX_RECURSION - 1) i.now e rest
            → IsOkAnd result (λ r. (ber_any_of r.1 ≡ e) × (r.0.now ≡ rest)) }

        // With more octets after these an equal element is read, and the rest is longer by those
        // octets.
        ensures stays { IfOk result (λ r. (more : List ℕ)
            → ber_element_at (MAX_RECURSION - 1) (i.now ++ more) ≡ Ok (ber_any_of r.1, r.0.now ++ more)) }
        ensures shorter { IfOk result (λ r. length r.1.content.now + 2 + length r.0.now ≤ length i.now) }
        ensures missing { IfErr result (IsMissing (HasBerElement (MAX_RECURSION - 1)) i.now) }
        ensures memory { IfErr result TakesNoMemory }
        ensures exact { Gives (λ r. (ber_any_of r.1, r.0.now)) result (ber_element_at (MAX_RECURSION - 1) i.now) }
    {
        read::ber_element(i, MAX_RECURSION - 1)
    }

    /// Reads what `from_ber` reads, with at most `levels` nested elements in place of
    /// `MAX_RECURSION`, the outermost counted.
    ///
    /// # Errors
    ///
    /// Those of `Header::from_ber`; `BerMaxDepth` at the header of an element deeper than `levels`;
    /// `Incomplete` with the least number of octets that are missing.
    pub fn from_ber_recursive(i: &'a [u8], levels: usize) -> ParseResult<'a, Any<'a>>
        ensures found { IfOk result (λ r. (0 < levels) × BeginsWithBerElement (levels - 1) i.now (ber_any_of r.1) r.0.now) }
        ensures only { (e : BerElement) (rest : List ℕ) → 0 < levels → BeginsWithBerElement (levels - 1) i.now e rest
            → IsOkAnd result (λ r. (ber_any_of r.1 ≡ e) × (r.0.now ≡ rest)) }
        ensures shorter { IfOk result (λ r. length r.1.content.now + 2 + length r.0.now ≤ length i.now) }
        ensures missing { IfErr result (IsMissing (λ s. (0 < levels) × HasBerElement (levels - 1) s) i.now) }
        ensures memory { IfErr result TakesNoMemory }
        ensures exact { Gives (λ r. (ber_any_of r.1, r.0.now)) result (ber_levels_at levels i.now) }
    {
        if levels == 0 {
            Header::from_ber(i)?;
            return Err(Refusal::Error(Error::BerMaxDepth));
        }
        read::ber_element(i, levels - 1)
    }

    /// Returns the class.
    pub fn class(&self) -> Class
        ensures { result ≡ class_of self.now.header }
    {
        self.header.class()
    }

    /// Returns the tag number.
    pub fn tag(&self) -> Tag
        ensures { result ≡ tag_of self.now.header }
    {
        self.header.tag()
    }

    /// Returns the length in the header, which need not be the content's.
    pub fn length(&self) -> Length
        ensures { result ≡ length_of self.now.header }
    {
        self.header.length()
    }

    /// Returns the content octets.
    pub fn as_bytes(&self) -> &'a [u8]
        ensures { result ≡ self.now.content }
    {
        self.content
    }
}
