//! Optional fields of parameters, by their tag numbers.

ghost use Rattle.std.specs.Prelude.{◌≡◌, List, ℕ, Some, IfOk, IfErr, IfSome, option_map};
ghost use Rattle.asn1_any.specs.Views.{any_of};
ghost use Rattle.asn1_core.specs.Views.{head_of};
ghost use Rattle.x509_core.specs.Answers.{Gives};
ghost use Rattle.x509_core.specs.Fronts.{TakesNoMemory};
ghost use Rattle.x509_names.specs.Reading.{algorithm_at};
ghost use Rattle.x509_names.specs.View.{HasCountedParameters, algorithm_view};
ghost use Rattle.x509_algorithms.specs.Answers.{HasPart, WantsFor};
ghost use Rattle.x509_algorithms.specs.Reading.{tagged_content, tagged_at, inner_at, explicit_in, explicit_behind, explicit_content, explicit_by, number_at};

use asn1_any::Any;
use asn1_core::{Err as Refusal, Error, Header, HeaderCount};
use asn1_traits::FromDer;
use std::alloc::Global;
use x509_core::{X509Error, X509Result, front_element, front_header};
use x509_ext_flags::InhibitAnyPolicy;
use x509_items::is_of_class;
use x509_names::AlgorithmIdentifier;

/// Reads the content of a context-specific element of this tag number. Returns `(rest, content)`;
/// `None` if no octet is left, or an element of another tag number is next.
#[tactic(auto, unfolding(crate::specs::Reading::tagged_content))]
fn content_at_front<'a>(tag: u32, i: &'a [u8]) -> X509Result<'a, Option<&'a [u8]>>
    ensures read { Gives (λ r. (option_map (λ c. c.now) r.1, r.0.now)) result (tagged_content tag i.now) }
    ensures memory { IfErr result TakesNoMemory }
{
    if i.is_empty() {
        return Ok((i, None));
    }
    let mut count = HeaderCount::new();
    let (rest, element) = front_element(i, &mut count)?;
    if element.any.tag().0 != tag {
        return Ok((i, None));
    }
    if !is_of_class(element.any.class(), 2) {
        return Err(Refusal::Error(X509Error::Der(Error::InvalidTag)));
    }
    Ok((rest, Some(element.any.content)))
}

fn inner_algorithm<'a>(
    alloc: Global,
    content: Option<&'a [u8]>,
) -> Result<Option<AlgorithmIdentifier<'a>>, Refusal<X509Error>>
    ensures read { Gives (option_map algorithm_view) result (inner_at algorithm_at (option_map (λ c. c.now) content.entry)) }
    ensures counted { IfOk result (λ a. IfSome a HasCountedParameters) }
    ensures memory { IfErr result (WantsFor ((c : List ℕ) × (option_map (λ c. c.now) content.entry ≡ Some c))) }
{
    let Some(content) = content else {
        return Ok(None);
    };
    match AlgorithmIdentifier::from_der(alloc, content) {
        Ok((_, algorithm)) => Ok(Some(algorithm)),
        Err(refusal) => Err(Refusal::within(refusal)),
    }
}

/// Reads an optional algorithm under this tag number. Returns `(rest, algorithm)`.
pub(crate) fn next_algorithm<'a>(
    alloc: Global,
    tag: u32,
    i: &'a [u8],
) -> X509Result<'a, Option<AlgorithmIdentifier<'a>>>
    ensures read { Gives (λ r. (option_map algorithm_view r.1, r.0.now)) result (tagged_at tag algorithm_at i.now) }
    ensures counted { IfOk result (λ r. IfSome r.1 HasCountedParameters) }
    ensures memory { IfErr result (WantsFor (HasPart tag i.now)) }
{
    let (rest, content) = content_at_front(tag, i)?;
    let algorithm = inner_algorithm(alloc, content)?;
    Ok((rest, algorithm))
}

/// The content of a constructed, context-specific element of this tag number.
fn explicit_of<'a>(tag: u32, any: Any<'a>) -> Result<&'a [u8], Refusal<X509Error>>
    ensures read { Gives (λ c. c.now) result (explicit_in tag (any_of any.entry)) }
    ensures memory { IfErr result TakesNoMemory }
{
    if is_of_class(any.class(), 2) && any.header.is_constructed() && any.tag().0 == tag {
        return Ok(any.content);
    }
    Err(Refusal::Error(X509Error::Der(Error::InvalidTag)))
}

/// Reads the content of the element with this header; `None` if it has another tag number.
fn content_behind<'a>(tag: u32, i: &'a [u8], header: Header) -> X509Result<'a, Option<&'a [u8]>>
    ensures read { Gives (λ r. (option_map (λ c. c.now) r.1, r.0.now)) result (explicit_behind tag i.now (head_of header)) }
    ensures memory { IfErr result TakesNoMemory }
{
    if header.tag().0 != tag {
        return Ok((i, None));
    }
    let mut count = HeaderCount::new();
    let (rest, element) = front_element(i, &mut count)?;
    let content = explicit_of(tag, element.any)?;
    Ok((rest, Some(content)))
}

#[tactic(auto, unfolding(crate::specs::Reading::explicit_content))]
fn explicit_at_front<'a>(tag: u32, i: &'a [u8]) -> X509Result<'a, Option<&'a [u8]>>
    ensures read { Gives (λ r. (option_map (λ c. c.now) r.1, r.0.now)) result (explicit_content tag i.now) }
    ensures memory { IfErr result TakesNoMemory }
{
    if i.is_empty() {
        return Ok((i, None));
    }
    let mut count = HeaderCount::new();
    let (_, header) = front_header(i, &mut count)?;
    content_behind(tag, i, header)
}

fn inner_number<'a>(
    alloc: Global,
    content: Option<&'a [u8]>,
) -> Result<Option<u32>, Refusal<X509Error>>
    ensures read { Gives (λ n. n) result (inner_at number_at (option_map (λ c. c.now) content.entry)) }
    ensures memory { IfErr result TakesNoMemory }
{
    let Some(content) = content else {
        return Ok(None);
    };
    match InhibitAnyPolicy::from_der(alloc, content) {
        Ok((_, number)) => Ok(Some(number.skip_certs)),
        Err(refusal) => Err(Refusal::within(refusal)),
    }
}

/// Reads an optional unsigned number of 32 bits under this explicit tag. Returns `(rest, number)`.
pub(crate) fn next_number<'a>(alloc: Global, tag: u32, i: &'a [u8]) -> X509Result<'a, Option<u32>>
    ensures read { Gives (λ r. (r.1, r.0.now)) result (explicit_by tag number_at i.now) }
    ensures memory { IfErr result TakesNoMemory }
{
    let (rest, content) = explicit_at_front(tag, i)?;
    let number = inner_number(alloc, content)?;
    Ok((rest, number))
}
