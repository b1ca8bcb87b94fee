//! `AttributeTypeAndValue` (RFC 5280, 4.1.2.4).

ghost use Rattle.std.specs.Prelude.{◌≡◌, ◌+◌, ◌^◌, ◌<◌, ◌≤◌, ℕ, List, length, IfOk, IfErr, IsOkAnd};
ghost use Rattle.asn1_core.specs.Counts.{attempts};
ghost use Rattle.asn1_any.specs.CutViews.{HasCountedContent, piece_of};
ghost use Rattle.asn1_any.specs.Views.{any_of};
ghost use Rattle.x509_core.specs.asn1_traits.specs.Elements.{EndsWithinElement};
ghost use Rattle.x509_core.specs.asn1_traits.specs.Reads.{Reads};
ghost use Rattle.x509_core.specs.Answers.{Gives, ElseMemory, naming};
ghost use Rattle.x509_core.specs.Errors.{told};
ghost use Rattle.x509_core.specs.Grammar.{Holds};
ghost use Rattle.x509_core.specs.Reading.{piece_at};
ghost use Rattle.x509_names.specs.Fields.{Attribute};
ghost use Rattle.x509_core.specs.Fronts.{TellsMissing, one_rest};
ghost use Rattle.x509_names.specs.Names as grammar;
ghost use Rattle.x509_names.specs.Reading.{attribute_in, attribute_at};
ghost use Rattle.x509_names.specs.Texts.{IsText, RefusesText};
ghost use Rattle.x509_names.specs.View.{HasCountedValue, attribute_view};

use crate::leaves::next_oid;
use asn1_any::{Any, Element};
use asn1_core::{Err as Refusal, Error, HeaderCount, OutOfMemory};
use asn1_oid::Oid;
use std::alloc::Global;
use x509_core::{
    DerMeaning, FromDer, Parts, X509Error, X509Result, front_element, named, parts_of,
};

/// An attribute of a name: its type and its value (RFC 5280, 4.1.2.4).
#[derive(Debug, Drop, PartialEq, Eq)]
pub struct AttributeTypeAndValue<'a> {
    attr_type: Oid<'a>,
    attr_value: Any<'a>,
}

impl<'a> AttributeTypeAndValue<'a> {
    /// Makes an attribute from its type and value.
    pub fn new(attr_type: Oid<'a>, attr_value: Any<'a>) -> AttributeTypeAndValue<'a>
        ensures { result ≡ record { attr_type = attr_type.entry; attr_value = attr_value.entry } }
    {
        AttributeTypeAndValue {
            attr_type,
            attr_value,
        }
    }

    /// The attribute's type.
    pub fn attr_type(&self) -> &Oid<'a>
        ensures { result.now ≡ self.now.attr_type }
    {
        &self.attr_type
    }

    /// The attribute's value, an element of any type.
    pub fn attr_value(&self) -> &Any<'a>
        ensures { result.now ≡ self.now.attr_value }
    {
        &self.attr_value
    }

    /// The value as text, of a UTF8String, NumericString, PrintableString or IA5String. The octets
    /// must be UTF-8; the alphabet of the string type isn't checked.
    ///
    /// # Errors
    ///
    /// `Der(UnexpectedTag)` for another tag; `InvalidAttributes` if the octets aren't UTF-8.
    pub fn as_str(&self) -> Result<&'a str, X509Error>
        ensures text { IfOk result (λ text. IsText (any_of self.now.attr_value) text.now) }
        ensures only { (text : List ℕ) → IsText (any_of self.now.attr_value) text → IsOkAnd result (λ t. t.now ≡ text) }
        ensures refused { IfErr result (RefusesText (any_of self.now.attr_value)) }
    {
        match self.attr_value.tag().0 {
            12 | 18 | 19 | 22 => match str::from_utf8(self.attr_value.content) {
                Ok(text) => Ok(text),
                Err(_) => Err(X509Error::InvalidAttributes),
            },
            _ => Err(X509Error::Der(Error::unexpected_tag(None, self.attr_value.tag()))),
        }
    }

    /// The content octets of the value.
    pub fn as_slice(&self) -> &'a [u8]
        ensures { result ≡ self.now.attr_value.content }
    {
        self.attr_value.as_bytes()
    }

    /// A copy that borrows the same octets as the attribute.
    ///
    /// # Errors
    ///
    /// Out of memory.
    pub fn clone(&self, alloc: Global) -> Result<AttributeTypeAndValue<'a>, OutOfMemory>
        ensures { IfOk result (λ copy. copy ≡ self.now) }
    {
        let attr_type = self.attr_type.clone(alloc)?;
        Ok(AttributeTypeAndValue {
            attr_type,
            attr_value: self.attr_value,
        })
    }
}

fn next_value<'a>(parts: &mut Parts<'a>) -> Result<Element<'a>, Refusal<X509Error>>
    ensures read { Gives (λ e. (piece_of e, parts.new.octets)) result (naming X509Error.InvalidX509Name (piece_at parts.old.octets)) }
    ensures counted { IfOk result HasCountedContent }
{
    named(parts.next(), X509Error::InvalidX509Name)
}

/// Reads the attribute in an element.
#[tactic(auto, unfolding(crate::specs::Reading::attribute_in))]
pub fn attribute_of<'a>(
    alloc: Global,
    element: Element<'a>,
    count: &mut HeaderCount,
) -> Result<AttributeTypeAndValue<'a>, Refusal<X509Error>>
    requires { attempts count.old + length element.any.content.now < 2 ^ 128 }
    ensures read { Gives attribute_view result (attribute_in (any_of element.entry.any)) }
    ensures counted { IfOk result HasCountedValue }
    ensures grows { attempts count.old ≤ attempts count.new }
    ensures most { attempts count.new ≤ attempts count.old + length element.entry.any.content.now }
{
    let mut parts = parts_of(alloc, 16, element, count)?;
    let attr_type = named(next_oid(&mut parts), X509Error::InvalidX509Name)?;
    let value = next_value(&mut parts)?;
    Ok(AttributeTypeAndValue {
        attr_type,
        attr_value: value.any,
    })
}

impl<'b> DerMeaning for AttributeTypeAndValue<'b> {
    ghost der_reads = { λ i v r. grammar.AttributeTypeAndValue i (attribute_view v) r };

    ghost der_cut = { EndsWithinElement };

    ghost der_grows = { Unit {0} };

    ghost one_rest = { λ i v w r s left right. one_rest (Holds 16 grammar.AttributeParts) i (attribute_view v) (attribute_view w) r s left right };
}

impl<'a> FromDer<'a, X509Error> for AttributeTypeAndValue<'a> {
    /// Reads one attribute from the front of `bytes` (RFC 5280, 4.1.2.4). Returns `(rest,
    /// attribute)`.
    ///
    /// # Errors
    ///
    /// `Incomplete` if `bytes` ends inside the element; `InvalidX509Name` without a type or a
    /// value.
    fn from_der(alloc: Global, bytes: &'a [u8]) -> X509Result<'a, AttributeTypeAndValue<'a>>
        ensures reads { Reads (λ given e. e ≡ told given) (Unit {0}) EndsWithinElement (λ i. i.now)
            (λ i v r. grammar.AttributeTypeAndValue i (attribute_view v) r) bytes.now result }
        ensures exact { Gives (λ r. (attribute_view r.1, r.0.now)) result (attribute_at bytes.now) }
        ensures found { IfOk result (λ r. grammar.AttributeTypeAndValue bytes.now (attribute_view r.1) r.0.now) }
        ensures only { (v : Attribute) (rest : List ℕ) → grammar.AttributeTypeAndValue bytes.now v rest
            → ElseMemory result (λ r. (attribute_view r.1 ≡ v) × (r.0.now ≡ rest)) }
        ensures counted { IfOk result (λ r. HasCountedValue r.1) }
    {
        attribute_at_front(alloc, bytes)
    }
}

fn attribute_at_front<'a>(alloc: Global, i: &'a [u8]) -> X509Result<'a, AttributeTypeAndValue<'a>>
    ensures exact { Gives (λ r. (attribute_view r.1, r.0.now)) result (attribute_at i.now) }
    ensures counted { IfOk result (λ r. HasCountedValue r.1) }
    ensures missing { TellsMissing i.now result }
{
    let mut count = HeaderCount::new();
    let (rest, element) = front_element(i, &mut count)?;
    match attribute_of(alloc, element, &mut count) {
        Ok(attribute) => Ok((rest, attribute)),
        Err(refusal) => Err(Refusal::within(refusal)),
    }
}
