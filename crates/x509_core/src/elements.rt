//! Readers of single elements: headers, whole elements, and contents by tag number.

ghost use Rattle.std.specs.Prelude.{◌≡◌, ◌+◌, ◌^◌, ◌<◌, ◌≤◌, length, IfOk, IfErr};
ghost use Rattle.asn1_core.specs.Counts.{attempts};
ghost use Rattle.asn1_core.specs.declared.error.Needed.{Needed};
ghost use Rattle.asn1_core.specs.Views.{head_of, length_of, IsDefinite};
ghost use Rattle.asn1_any.specs.CutViews.{HasCountedContent, piece_of};
ghost use Rattle.asn1_any.specs.Views.{any_of};
ghost use Rattle.asn1_traits.specs.Elements.{EndsWithinElement};
ghost use Rattle.x509_core.specs.Answers.{Gives, IsName, Named, Cuts, renamed};
ghost use Rattle.x509_core.specs.Fronts.{TellsMissing, TakesNoMemory};
ghost use Rattle.x509_core.specs.Reading.{piece_at, front_header_at, content_in, leaf_in, oid_in};

use crate::error::X509Error;
use crate::parts::Parts;
use asn1_any::{Any, Element};
use asn1_core::{Err as Refusal, Error, Header, HeaderCount, Tag};
use asn1_oid::Oid;
use std::alloc::Global;

/// Reads one header from the front. Returns `(rest, header)`.
#[tactic(auto, unfolding(crate::specs::Reading::front_header_at))]
pub fn front_header<'a>(
    i: &'a [u8],
    count: &mut HeaderCount,
) -> Result<(&'a [u8], Header), Refusal<X509Error>>
    requires { attempts count.old + 1 < 2 ^ 128 }
    ensures read { Gives (λ r. (head_of r.1, r.0.now)) result (front_header_at i.now) }
    ensures memory { IfErr result TakesNoMemory }
    ensures count { attempts count.new ≡ attempts count.old + 1 }
    ensures shorter { IfOk result (λ r. length r.0.now + 2 ≤ length i.now) }
    ensures definite { IfOk result (λ r. IsDefinite (length_of r.1)) }
{
    match Header::from_der_counted(i, count) {
        Ok((after, header)) => Ok((after, header)),
        Err(refusal) => Err(Refusal::convert(refusal)),
    }
}

/// Reads one element from the front. Returns `(rest, element)`.
///
/// # Errors
///
/// `Incomplete` exactly if the octets end inside the element.
#[tactic(auto, unfolding(crate::specs::Reading::piece_at))]
pub fn front_element<'a>(
    i: &'a [u8],
    count: &mut HeaderCount,
) -> Result<(&'a [u8], Element<'a>), Refusal<X509Error>>
    requires { attempts count.old + 1 < 2 ^ 128 }
    ensures read { Gives (λ r. (piece_of r.1, r.0.now)) result (piece_at i.now) }
    ensures missing { TellsMissing i.now result }
    ensures memory { IfErr result TakesNoMemory }
    ensures whole { IfOk result (λ _. (n : Needed) → EndsWithinElement i.now n → ⊥) }
    ensures count { attempts count.new ≡ attempts count.old + 1 }
    ensures shorter { IfOk result (λ r. length r.1.octets.now + length r.0.now ≡ length i.now) }
    ensures content { IfOk result (λ r. length r.1.any.content.now + 2 ≤ length r.1.octets.now) }
    ensures counted { IfOk result (λ r. HasCountedContent r.1) }
{
    match Any::from_der_counted(i, count) {
        Ok((rest, any)) => {
            let (octets, _) = i.split_at(i.len() - rest.len());
            Ok((rest, Element { octets, any }))
        }
        Err(refusal) => Err(Refusal::convert(refusal)),
    }
}

/// Cuts the content of an element of this tag number into its parts.
///
/// # Errors
///
/// `Der(UnexpectedTag)` for another tag number; out of memory.
#[inline(always)]
pub fn parts_of<'a>(
    alloc: Global,
    tag: u32,
    element: Element<'a>,
    count: &mut HeaderCount,
) -> Result<Parts<'a>, Refusal<X509Error>>
    requires { attempts count.old + length element.any.content.now < 2 ^ 128 }
    ensures read { Gives (λ p. p.octets) result (content_in tag (any_of element.entry.any)) }
    ensures least { IfOk result (λ p. attempts count.old + p.elements ≤ attempts count.new) }
    ensures grows { attempts count.old ≤ attempts count.new }
    ensures most { attempts count.new ≤ attempts count.old + length element.entry.any.content.now }
{
    if element.any.tag().0 != tag {
        return Err(Refusal::Error(X509Error::Der(Error::unexpected_tag(
            Some(Tag(tag)),
            element.any.tag(),
        ))));
    }
    match Parts::cut(alloc, element.any.content, count) {
        Ok(parts) => Ok(parts),
        Err(e) => Err(Refusal::Failure(X509Error::from(e))),
    }
}

/// Cuts a content into its elements.
#[inline(always)]
pub fn cut_all<'a>(
    alloc: Global,
    content: &'a [u8],
    count: &mut HeaderCount,
) -> Result<Parts<'a>, Refusal<X509Error>>
    requires { attempts count.old + length content.now < 2 ^ 128 }
    ensures octets { Cuts content.now result }
    ensures least { IfOk result (λ p. attempts count.old + p.elements ≤ attempts count.new) }
    ensures grows { attempts count.old ≤ attempts count.new }
    ensures most { attempts count.new ≤ attempts count.old + length content.now }
{
    match Parts::cut(alloc, content, count) {
        Ok(parts) => Ok(parts),
        Err(e) => Err(Refusal::Failure(X509Error::from(e))),
    }
}

/// Replaces the error of a refusal by `name`; out of memory is kept.
pub fn renamed(refusal: Refusal<X509Error>, name: X509Error) -> Refusal<X509Error>
    requires { IsName name }
    ensures { result ≡ renamed refusal name }
{
    match refusal {
        Refusal::Failure(e) => Refusal::Failure(e),
        _ => Refusal::Error(name),
    }
}

/// The content octets of a primitive element of this tag number, of any class.
pub fn leaf_of<'a>(tag: u32, any: Any<'a>) -> Result<&'a [u8], Refusal<X509Error>>
    ensures read { Gives (λ c. c.now) result (leaf_in tag (any_of any.entry)) }
    ensures memory { IfErr result TakesNoMemory }
{
    if any.tag().0 != tag || any.header.is_constructed() {
        return Err(Refusal::Error(X509Error::Der(Error::InvalidTag)));
    }
    Ok(any.content)
}

/// The OBJECT IDENTIFIER in an element.
pub fn oid_of<'a>(element: Element<'a>) -> Result<Oid<'a>, Refusal<X509Error>>
    ensures read { Gives (λ o. o) result (oid_in (any_of element.entry.any)) }
    ensures memory { IfErr result TakesNoMemory }
{
    let content = leaf_of(6, element.any)?;
    Ok(Oid::new(content))
}

/// Replaces the error of a refusal by `name`; out of memory is kept.
pub fn named<T: Drop>(
    answer: Result<T, Refusal<X509Error>>,
    name: X509Error,
) -> Result<T, Refusal<X509Error>>
    requires { IsName name }
    ensures { Named name answer result }
{
    match answer {
        Ok(value) => Ok(value),
        Err(Refusal::Failure(e)) => Err(Refusal::Failure(e)),
        Err(Refusal::Incomplete(_)) => Err(Refusal::Error(name)),
        Err(Refusal::Error(_)) => Err(Refusal::Error(name)),
    }
}
