//! `AlgorithmIdentifier` (RFC 5280, 4.1.1.2).

ghost use Rattle.std.specs.Prelude.{◌≡◌, ◌+◌, ◌^◌, ◌<◌, ◌≤◌, ℕ, List, length, IfOk, IfSome, option_map};
ghost use Rattle.asn1_core.specs.Counts.{attempts};
ghost use Rattle.asn1_any.specs.CutViews.{HasOwnLength};
ghost use Rattle.asn1_any.specs.Views.{any_of};
ghost use Rattle.x509_core.specs.asn1_traits.specs.Elements.{EndsWithinElement};
ghost use Rattle.x509_core.specs.asn1_traits.specs.Reads.{Reads};
ghost use Rattle.x509_core.specs.Answers.{Gives, ElseMemory};
ghost use Rattle.x509_core.specs.Errors.{told};
ghost use Rattle.x509_core.specs.Grammar.{Holds};
ghost use Rattle.x509_names.specs.Fields.{Algorithm};
ghost use Rattle.x509_core.specs.Fronts.{TellsMissing, one_rest};
ghost use Rattle.x509_names.specs.Names as grammar;
ghost use Rattle.x509_names.specs.Reading.{algorithm_in, algorithm_at, parameters_at};
ghost use Rattle.x509_names.specs.View.{HasCountedParameters, algorithm_view};

use crate::leaves::next_oid;
use asn1_any::{Any, Element};
use asn1_core::{Err as Refusal, HeaderCount, OutOfMemory};
use asn1_oid::Oid;
use std::alloc::Global;
use x509_core::{
    DerMeaning, FromDer, Parts, X509Error, X509Result, front_element, named, parts_of,
};

/// An algorithm and its optional parameters (RFC 5280, 4.1.1.2), borrowed from the octets that it
/// was read from. Parameters are present if any octet follows the identifier.
#[derive(Debug, Drop, PartialEq, Eq)]
pub struct AlgorithmIdentifier<'a> {
    /// The identifier of the algorithm.
    pub algorithm: Oid<'a>,
    /// The parameters: an element whose meaning depends on the algorithm.
    pub parameters: Option<Any<'a>>,
}

impl<'a> AlgorithmIdentifier<'a> {
    /// Makes an algorithm from its identifier and parameters.
    pub fn new(algorithm: Oid<'a>, parameters: Option<Any<'a>>) -> AlgorithmIdentifier<'a>
        ensures { result ≡ record { algorithm = algorithm.entry; parameters = parameters.entry } }
    {
        AlgorithmIdentifier {
            algorithm,
            parameters,
        }
    }

    /// The identifier of the algorithm.
    pub fn oid(&self) -> &Oid<'a>
        ensures { result.now ≡ self.now.algorithm }
    {
        &self.algorithm
    }

    /// The parameters, or `None` if there are none.
    pub fn parameters(&self) -> Option<&Any<'a>>
        ensures { option_map (λ p. p.now) result ≡ self.now.parameters }
    {
        self.parameters.as_ref()
    }

    /// A copy that borrows the same octets as the algorithm.
    ///
    /// # Errors
    ///
    /// Out of memory.
    pub fn clone(&self, alloc: Global) -> Result<AlgorithmIdentifier<'a>, OutOfMemory>
        ensures { IfOk result (λ copy. copy ≡ self.now) }
    {
        let algorithm = self.algorithm.clone(alloc)?;
        Ok(AlgorithmIdentifier {
            algorithm,
            parameters: self.parameters,
        })
    }
}

fn next_parameters<'a>(parts: &mut Parts<'a>) -> Result<Option<Any<'a>>, Refusal<X509Error>>
    ensures read { Gives (λ p. (option_map any_of p, parts.new.octets)) result (parameters_at parts.old.octets) }
    ensures counted { IfOk result (λ p. IfSome p HasOwnLength) }
{
    if parts.left().is_empty() {
        return Ok(None);
    }
    let element = parts.next()?;
    Ok(Some(element.any))
}

/// Reads the AlgorithmIdentifier in an element.
///
/// # Errors
///
/// `InvalidAlgorithmIdentifier` without an identifier; another `Error` if the tag number isn't 16,
/// or the parameters are malformed; out of memory.
#[tactic(auto, unfolding(crate::specs::Reading::algorithm_in))]
pub fn algorithm_of<'a>(
    alloc: Global,
    element: Element<'a>,
    count: &mut HeaderCount,
) -> Result<AlgorithmIdentifier<'a>, Refusal<X509Error>>
    requires { attempts count.old + length element.any.content.now < 2 ^ 128 }
    ensures read { Gives algorithm_view result (algorithm_in (any_of element.entry.any)) }
    ensures counted { IfOk result HasCountedParameters }
    ensures least { IfOk result (λ _. attempts count.old + 1 ≤ attempts count.new) }
    ensures grows { attempts count.old ≤ attempts count.new }
    ensures most { attempts count.new ≤ attempts count.old + length element.entry.any.content.now }
{
    let mut parts = parts_of(alloc, 16, element, count)?;
    let algorithm = named(next_oid(&mut parts), X509Error::InvalidAlgorithmIdentifier)?;
    let parameters = next_parameters(&mut parts)?;
    Ok(AlgorithmIdentifier {
        algorithm,
        parameters,
    })
}

/// Reads an AlgorithmIdentifier from the front of `parts`.
///
/// # Errors
///
/// `InvalidAlgorithmIdentifier` without an identifier; another `Error` if the tag number isn't 16,
/// or the parameters are malformed; out of memory.
pub fn next_algorithm<'a>(
    alloc: Global,
    parts: &mut Parts<'a>,
    count: &mut HeaderCount,
) -> Result<AlgorithmIdentifier<'a>, Refusal<X509Error>>
    requires { attempts count.old + length parts.old.octets < 2 ^ 128 }
    ensures read { Gives (λ v. (algorithm_view v, parts.new.octets)) result (algorithm_at parts.old.octets) }
    ensures counted { IfOk result HasCountedParameters }
    ensures elements { IfOk result (λ _. parts.old.elements ≡ parts.new.elements + 1) }
    ensures least { IfOk result (λ _. attempts count.old + 1 ≤ attempts count.new) }
    ensures grows { attempts count.old ≤ attempts count.new }
    ensures ends { length parts.new.octets ≤ length parts.old.octets }
    ensures most { attempts count.new + length parts.new.octets ≤ attempts count.old + length parts.old.octets }
{
    let element = parts.next()?;
    algorithm_of(alloc, element, count)
}

impl<'b> DerMeaning for AlgorithmIdentifier<'b> {
    ghost der_reads = { λ i v r. grammar.AlgorithmIdentifier i (algorithm_view v) r };

    ghost der_cut = { EndsWithinElement };

    ghost der_grows = { Unit {0} };

    ghost one_rest = { λ i v w r s left right. one_rest (Holds 16 grammar.AlgorithmParts) i (algorithm_view v) (algorithm_view w) r s left right };
}

impl<'a> FromDer<'a, X509Error> for AlgorithmIdentifier<'a> {
    /// Reads one AlgorithmIdentifier from the front of `bytes` (RFC 5280, 4.1.1.2). Returns `(rest,
    /// algorithm)`.
    ///
    /// # Errors
    ///
    /// `Incomplete` if `bytes` ends inside the element; `InvalidAlgorithmIdentifier` without an
    /// identifier.
    fn from_der(alloc: Global, bytes: &'a [u8]) -> X509Result<'a, AlgorithmIdentifier<'a>>
        ensures reads { Reads (λ given e. e ≡ told given) (Unit {0}) EndsWithinElement (λ i. i.now)
            (λ i v r. grammar.AlgorithmIdentifier i (algorithm_view v) r) bytes.now result }
        ensures exact { Gives (λ r. (algorithm_view r.1, r.0.now)) result (algorithm_at bytes.now) }
        ensures found { IfOk result (λ r. grammar.AlgorithmIdentifier bytes.now (algorithm_view r.1) r.0.now) }
        ensures only { (v : Algorithm) (rest : List ℕ) → grammar.AlgorithmIdentifier bytes.now v rest
            → ElseMemory result (λ r. (algorithm_view r.1 ≡ v) × (r.0.now ≡ rest)) }
        ensures counted { IfOk result (λ r. HasCountedParameters r.1) }
    {
        algorithm_at_front(alloc, bytes)
    }
}

fn algorithm_at_front<'a>(alloc: Global, i: &'a [u8]) -> X509Result<'a, AlgorithmIdentifier<'a>>
    ensures exact { Gives (λ r. (algorithm_view r.1, r.0.now)) result (algorithm_at i.now) }
    ensures counted { IfOk result (λ r. HasCountedParameters r.1) }
    ensures missing { TellsMissing i.now result }
{
    let mut count = HeaderCount::new();
    let (rest, element) = front_element(i, &mut count)?;
    match algorithm_of(alloc, element, &mut count) {
        Ok(algorithm) => Ok((rest, algorithm)),
        Err(refusal) => Err(Refusal::within(refusal)),
    }
}
