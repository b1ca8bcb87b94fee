//! `RelativeDistinguishedName` (RFC 5280, 4.1.2.4).

ghost use Rattle.std.specs.Prelude.{◌≡◌, ◌+◌, ◌*◌, ◌^◌, ◌<◌, ◌≤◌, ℕ, List, length, All, IfOk, map};
ghost use Rattle.std.specs.Iterator.{Drains, IsFinite};
ghost use Rattle.std.specs.Slice.Iter.{iter_rest};
ghost use Rattle.asn1_core.specs.Counts.{attempts};
ghost use Rattle.asn1_any.specs.Views.{any_of};
ghost use Rattle.x509_core.specs.asn1_traits.specs.Elements.{EndsWithinElement};
ghost use Rattle.x509_core.specs.asn1_traits.specs.Reads.{Reads};
ghost use Rattle.x509_core.specs.Answers.{Gives, ManyGive, ElseMemory};
ghost use Rattle.x509_core.specs.Errors.{told};
ghost use Rattle.x509_core.specs.Grammar.{Holds};
ghost use Rattle.x509_core.specs.Reading.{many_of};
ghost use Rattle.x509_names.specs.Fields.{Attribute};
ghost use Rattle.x509_core.specs.Fronts.{TellsMissing, one_rest};
ghost use Rattle.x509_names.specs.Names as grammar;
ghost use Rattle.x509_names.specs.Reading.{attribute_at, relative_name_in, relative_name_at};
ghost use Rattle.x509_names.specs.View.{HasCountedValue, HasCountedValues, attribute_view, set_view};

use crate::attribute::{AttributeTypeAndValue, attribute_of};
use asn1_any::Element;
use asn1_core::{Err as Refusal, ErrorKind, HeaderCount, OutOfMemory};
use std::alloc::Global;
use std::{cmp, slice};
use x509_core::{
    DerMeaning, FromDer, Parts, X509Error, X509Result, front_element, parts_of, push_in_room,
};

/// A relative distinguished name: a set of attributes in the order of the encoding (RFC 5280,
/// 4.1.2.4). One that was read has at least one.
#[derive(Debug, Drop, PartialEq, Eq)]
pub struct RelativeDistinguishedName<'a> {
    set: Vec<AttributeTypeAndValue<'a>>,
}

impl<'a> RelativeDistinguishedName<'a> {
    /// Makes a set from its attributes.
    pub fn new(set: Vec<AttributeTypeAndValue<'a>>) -> RelativeDistinguishedName<'a>
        ensures { result ≡ record { set = set.entry } }
    {
        RelativeDistinguishedName { set }
    }

    /// Makes a set from the attributes of an iterator.
    ///
    /// # Errors
    ///
    /// Out of memory.
    pub fn try_from_iter<I: Iterator<Item = AttributeTypeAndValue<'a>> + Drop>(
        alloc: Global,
        attributes: I,
    ) -> Result<RelativeDistinguishedName<'a>, OutOfMemory>
        requires can { I.can_next attributes }
        requires ends { IsFinite (I.remaining attributes) }
        ensures { IfOk result (λ set. Drains I.next_gives attributes set.set.items) }
    {
        let mut set = Vec::new(alloc);
        for attribute in attributes {
            set.push(attribute)?;
        }
        Ok(RelativeDistinguishedName { set })
    }

    /// An iterator over the attributes, in the order of the encoding.
    pub fn iter(&self) -> slice::Iter<'_, AttributeTypeAndValue<'a>>
        ensures { iter_rest result ≡ self.now.set.items }
    {
        self.set.iter()
    }

    /// A copy that borrows the same octets as the set.
    ///
    /// # Errors
    ///
    /// Out of memory, for the copied vector.
    pub fn clone(&self, alloc: Global) -> Result<RelativeDistinguishedName<'a>, OutOfMemory>
        ensures { IfOk result (λ copy. copy.set.items ≡ self.now.set.items) }
    {
        let mut set = Vec::new(alloc);
        for attribute in self.set.as_slice() {
            set.push(attribute.clone(alloc)?)?;
        }
        Ok(RelativeDistinguishedName { set })
    }
}

/// The most attributes that room is reserved for at once. Nearly every set has one.
const MOST_ROOM: usize = 4;

/// Reads attributes until none begins.
fn attributes_of<'a>(
    alloc: Global,
    parts: &mut Parts<'a>,
    count: &mut HeaderCount,
) -> Result<Vec<AttributeTypeAndValue<'a>>, Refusal<X509Error>>
    requires { attempts count.old + length parts.old.octets < 2 ^ 128 }
    ensures read { ManyGive (λ v. map attribute_view v.items) result (many_of attribute_at parts.old.octets) parts.new.octets }
    ensures counted { IfOk result (λ v. All HasCountedValue v.items) }
    ensures grows { attempts count.old ≤ attempts count.new }
    ensures most { attempts count.new ≤ attempts count.old + length parts.old.octets }
    ensures shorter { length parts.new.octets ≤ length parts.old.octets }
{
    let room = cmp::min(parts.elements(), MOST_ROOM);
    let mut attributes = Vec::new(alloc);
    while let Some(element) = parts.first() {
        match attribute_of(alloc, element, count) {
            Ok(attribute) => {
                push_in_room(&mut attributes, attribute, room)?;
                parts.advance();
            }
            Err(refusal) => match refusal {
                Refusal::Failure(e) => return Err(Refusal::Failure(e)),
                _ => return Ok(attributes),
            },
        }
    }
    Ok(attributes)
}

/// Reads the set in an element: attributes until none begins, at least one.
#[tactic(auto, unfolding(crate::specs::Reading::relative_name_in))]
pub fn relative_name_of<'a>(
    alloc: Global,
    element: Element<'a>,
    count: &mut HeaderCount,
) -> Result<RelativeDistinguishedName<'a>, Refusal<X509Error>>
    requires { attempts count.old + 2 * length element.any.content.now < 2 ^ 128 }
    ensures read { Gives set_view result (relative_name_in (any_of element.entry.any)) }
    ensures counted { IfOk result HasCountedValues }
    ensures grows { attempts count.old ≤ attempts count.new }
    ensures most { attempts count.new ≤ attempts count.old + 2 * length element.entry.any.content.now }
{
    let mut parts = parts_of(alloc, 17, element, count)?;
    let set = attributes_of(alloc, &mut parts, count)?;
    if set.is_empty() {
        return Err(Refusal::Error(X509Error::NomError(ErrorKind::Many1)));
    }
    Ok(RelativeDistinguishedName { set })
}

impl<'b> DerMeaning for RelativeDistinguishedName<'b> {
    ghost der_reads = { λ i v r. grammar.RelativeDistinguishedName i (set_view v) r };

    ghost der_cut = { EndsWithinElement };

    ghost der_grows = { Unit {0} };

    ghost one_rest = { λ i v w r s left right. one_rest (Holds 17 grammar.RelativeParts) i (set_view v) (set_view w) r s left right };
}

impl<'a> FromDer<'a, X509Error> for RelativeDistinguishedName<'a> {
    /// Reads one relative distinguished name from the front of `bytes` (RFC 5280, 4.1.2.4). Returns
    /// `(rest, set)`. What is no attribute ends the set.
    ///
    /// # Errors
    ///
    /// `Incomplete` if `bytes` ends inside the element; an `Error` if its tag number isn't 17, or
    /// no attribute begins its content; out of memory.
    fn from_der(alloc: Global, bytes: &'a [u8]) -> X509Result<'a, RelativeDistinguishedName<'a>>
        ensures reads { Reads (λ given e. e ≡ told given) (Unit {0}) EndsWithinElement (λ i. i.now)
            (λ i v r. grammar.RelativeDistinguishedName i (set_view v) r) bytes.now result }
        ensures exact { Gives (λ r. (set_view r.1, r.0.now)) result (relative_name_at bytes.now) }
        ensures found { IfOk result (λ r. grammar.RelativeDistinguishedName bytes.now (set_view r.1) r.0.now) }
        ensures only { (v : List Attribute) (rest : List ℕ) → grammar.RelativeDistinguishedName bytes.now v rest
            → ElseMemory result (λ r. (set_view r.1 ≡ v) × (r.0.now ≡ rest)) }
        ensures counted { IfOk result (λ r. HasCountedValues r.1) }
    {
        relative_name_at_front(alloc, bytes)
    }
}

fn relative_name_at_front<'a>(
    alloc: Global,
    i: &'a [u8],
) -> X509Result<'a, RelativeDistinguishedName<'a>>
    ensures exact { Gives (λ r. (set_view r.1, r.0.now)) result (relative_name_at i.now) }
    ensures counted { IfOk result (λ r. HasCountedValues r.1) }
    ensures missing { TellsMissing i.now result }
{
    let mut count = HeaderCount::new();
    let (rest, element) = front_element(i, &mut count)?;
    match relative_name_of(alloc, element, &mut count) {
        Ok(set) => Ok((rest, set)),
        Err(refusal) => Err(Refusal::within(refusal)),
    }
}
