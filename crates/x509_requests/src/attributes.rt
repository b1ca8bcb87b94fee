//! Readers of the attributes of a request (RFC 2986, 4.1).

ghost use Rattle.std.specs.Prelude.{◌≡◌, ◌==◌, ◌<◌, length, All, IfOk, map};
ghost use Rattle.asn1_core.specs.Views.{class_number};
ghost use Rattle.asn1_any.specs.Views.{any_of};
ghost use Rattle.x509_core.specs.Answers.{Gives};
ghost use Rattle.x509_ext.specs.Values.{deeply};
ghost use Rattle.x509_requests.specs.Reading.{attribute_parts_in, attribute_in, attribute_at, all_attributes_at, attributes_at};
ghost use Rattle.x509_requests.specs.View.{attribute_view, IsCountedAttribute, AttributeWantsNoMemory};

use crate::attribute::X509CriAttribute;
use crate::values::values_of;
use asn1_any::Any;
use asn1_core::{Class, Err as Refusal, Error, HeaderCount, Tag};
use std::alloc::Global;
use x509_core::{X509Error, X509Result, front_element, front_header, oid_of, renamed};

/// Reads the type and the values of an attribute from its content.
#[tactic(auto, unfolding(crate::specs::Reading::attribute_parts_in))]
fn parts_within<'a>(
    alloc: Global,
    content: &'a [u8],
) -> Result<X509CriAttribute<'a>, Refusal<X509Error>>
    ensures read { Gives attribute_view result (attribute_parts_in deeply content.now) }
    ensures counted { IfOk result IsCountedAttribute }
    ensures memory { IfOk result AttributeWantsNoMemory }
{
    let mut count = HeaderCount::new();
    let (after_type, element) = front_element(content, &mut count)?;
    let oid = oid_of(element)?;
    let (after_header, header) = front_header(after_type, &mut count)?;
    if header.tag().0 != 17 {
        return Err(Refusal::Error(X509Error::Der(Error::BerTypeError)));
    }
    let (left, parsed_attribute) = values_of(alloc, &oid, after_header)?;
    let value = &after_type[..after_type.len().saturating_sub(left.len())];
    Ok(X509CriAttribute {
        oid,
        value,
        parsed_attribute,
    })
}

/// Reads the attribute in an element.
#[tactic(auto, unfolding(crate::specs::Reading::attribute_in))]
fn attribute_of<'a>(alloc: Global, any: Any<'a>) -> Result<X509CriAttribute<'a>, Refusal<X509Error>>
    ensures read { Gives attribute_view result (attribute_in deeply (any_of any.entry)) }
    ensures counted { IfOk result IsCountedAttribute }
    ensures memory { IfOk result AttributeWantsNoMemory }
{
    let is_sequence = match any.class() {
        Class::Universal => any.header.is_constructed() && any.tag().0 == Tag::Sequence.0,
        Class::Application => false,
        Class::ContextSpecific => false,
        Class::Private => false,
    };
    if is_sequence {
        parts_within(alloc, any.content)
    } else {
        Err(Refusal::Error(X509Error::Der(Error::BerTypeError)))
    }
}

/// Reads one attribute in BER from the front. Returns `(rest, attribute)`.
#[tactic(auto, unfolding(crate::specs::Reading::attribute_at))]
pub(crate) fn front_attribute<'a>(
    alloc: Global,
    i: &'a [u8],
) -> X509Result<'a, X509CriAttribute<'a>>
    ensures read { Gives (λ r. (attribute_view r.1, r.0.now)) result (attribute_at deeply i.now) }
    ensures counted { IfOk result (λ r. IsCountedAttribute r.1) }
    ensures memory { IfOk result (λ r. AttributeWantsNoMemory r.1) }
    ensures shorter { IfOk result (λ r. length r.0.now < length i.now) }
{
    match Any::from_ber(i) {
        Ok((rest, any)) => {
            let attribute = attribute_of(alloc, any)?;
            Ok((rest, attribute))
        }
        Err(refusal) => Err(Refusal::convert(refusal)),
    }
}

/// Reads attributes to the end.
fn all_attributes<'a>(
    alloc: Global,
    octets: &'a [u8],
) -> Result<Vec<X509CriAttribute<'a>>, Refusal<X509Error>>
    ensures read { Gives (λ v. map attribute_view v.items) result (all_attributes_at deeply octets.now) }
    ensures counted { IfOk result (λ v. All IsCountedAttribute v.items) }
    ensures memory { IfOk result (λ v. All AttributeWantsNoMemory v.items) }
{
    let mut attributes = Vec::new(alloc);
    let mut left = octets;
    while !left.is_empty() {
        match front_attribute(alloc, left) {
            Ok((rest, attribute)) => {
                attributes.push(attribute)?;
                left = rest;
            }
            Err(refusal) => match refusal {
                Refusal::Failure(e) => return Err(Refusal::Failure(e)),
                _ => return Err(Refusal::Error(X509Error::Der(Error::InvalidLength))),
            },
        }
    }
    Ok(attributes)
}

fn is_context(class: Class) -> bool
    ensures { result ≡ (class_number class == 2) }
{
    match class {
        Class::Universal => false,
        Class::Application => false,
        Class::ContextSpecific => true,
        Class::Private => false,
    }
}

/// Reads the attributes under a context-specific header of tag number 0, to the end. The header's
/// length isn't used.
///
/// # Errors
///
/// `InvalidAttributes` without such a header, or for anything but attributes; out of memory.
#[tactic(auto, unfolding(crate::specs::Reading::attributes_at))]
pub(crate) fn attributes_of<'a>(
    alloc: Global,
    left: &'a [u8],
) -> Result<Vec<X509CriAttribute<'a>>, Refusal<X509Error>>
    ensures read { Gives (λ v. map attribute_view v.items) result (attributes_at deeply left.now) }
    ensures counted { IfOk result (λ v. All IsCountedAttribute v.items) }
    ensures memory { IfOk result (λ v. All AttributeWantsNoMemory v.items) }
{
    let mut count = HeaderCount::new();
    match front_header(left, &mut count) {
        Ok((after, header)) => {
            if !is_context(header.class()) || header.tag().0 != 0 {
                return Err(Refusal::Error(X509Error::InvalidAttributes));
            }
            all_attributes(alloc, after)
        }
        Err(refusal) => Err(renamed(refusal, X509Error::InvalidAttributes)),
    }
}
