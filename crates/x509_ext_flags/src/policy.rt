//! `PolicyConstraints` (RFC 5280, 4.2.1.11) and `InhibitAnyPolicy` (RFC 5280, 4.2.1.14).

ghost use Rattle.std.specs.Prelude.{◌≡◌, ◌<◌, ℕ, List, length, IfOk, IfErr};
ghost use Rattle.asn1_any.specs.CutViews.{piece_of};
ghost use Rattle.asn1_any.specs.Views.{any_of};
ghost use Rattle.x509_core.specs.asn1_traits.specs.Elements.{EndsWithinElement};
ghost use Rattle.x509_core.specs.asn1_traits.specs.Reads.{Reads};
ghost use Rattle.x509_core.specs.Answers.{Gives, ElseMemory};
ghost use Rattle.x509_core.specs.Errors.{told};
ghost use Rattle.x509_core.specs.Fronts.{TakesNoMemory, TellsMissing, one_rest};
ghost use Rattle.std.specs.Prelude.{option_map, Ok};
ghost use Rattle.x509_core.specs.Grammar.{Holds};
ghost use Rattle.x509_core.specs.Leaves.{Leaf};
ghost use Rattle.x509_core.specs.Reading.{next};
ghost use Rattle.x509_items.specs.Reading.{maybe_of};
ghost use Rattle.x509_ext_flags.specs.Extensions as grammar;
ghost use Rattle.x509_ext_flags.specs.Numbers.{IsNumber};
ghost use Rattle.x509_ext_flags.specs.Reading.{element_number, tagged_number_in, inhibit_at, policy_parts_at, policy_constraints_in, policy_constraints_at};
ghost use Rattle.x509_ext_flags.specs.Values as values;
ghost use Rattle.x509_ext_flags.specs.View.{inhibit_view, policy_constraints_view};

use crate::numbers::number_of;
use asn1_any::{Any, Element};
use asn1_core::{Err as Refusal, Error, HeaderCount};
use std::alloc::Global;
use x509_core::{DerMeaning, FromDer, X509Error, X509Result, front_element, leaf_of};
use x509_items::{content_of, optional};

/// A policyConstraints: from where on a policy is required, and mapping is forbidden (RFC 5280,
/// 4.2.1.11).
#[derive(Clone, Debug, Drop, PartialEq, Eq)]
pub struct PolicyConstraints {
    /// After so many certificates an acceptable policy is required; `None` for never.
    pub require_explicit_policy: Option<u32>,
    /// After so many certificates policy mapping is forbidden; `None` for never.
    pub inhibit_policy_mapping: Option<u32>,
}

/// An inhibitAnyPolicy: from where on anyPolicy no longer counts (RFC 5280, 4.2.1.14).
#[derive(Clone, Debug, Drop, PartialEq, Eq)]
pub struct InhibitAnyPolicy {
    /// The number of certificates after which anyPolicy no longer counts.
    pub skip_certs: u32,
}

// The number of a primitive element of this tag number.
fn tagged_number(tag: u32, any: Any<'_>) -> Result<u32, Refusal<X509Error>>
    ensures read { Gives (λ n. n) result (element_number tag (any_of any.entry)) }
    ensures memory { IfErr result TakesNoMemory }
{
    let content = leaf_of(tag, any)?;
    match number_of(content) {
        Some(number) => Ok(number),
        None => Err(Refusal::Error(X509Error::Der(Error::IntegerTooLarge))),
    }
}

fn number_at_front<'a>(tag: u32, i: &'a [u8]) -> X509Result<'a, u32>
    ensures { Gives (λ r. (r.1, r.0.now)) result (next (tagged_number_in tag) i.now) }
{
    let mut count = HeaderCount::new();
    let (rest, element) = front_element(i, &mut count)?;
    let number = tagged_number(tag, element.any)?;
    Ok((rest, number))
}

// A number under this tag number, or none.
fn next_number<'a>(tag: u32, i: &'a [u8]) -> X509Result<'a, Option<u32>>
    ensures { Gives (λ r. (r.1, r.0.now)) result (Ok (maybe_of (next (tagged_number_in tag)) i.now)) }
{
    optional(i, number_at_front(tag, i))
}

fn inhibit_of(any: Any<'_>) -> Result<InhibitAnyPolicy, Refusal<X509Error>>
    ensures read { Gives inhibit_view result (element_number 2 (any_of any.entry)) }
    ensures memory { IfErr result TakesNoMemory }
{
    let skip_certs = tagged_number(2, any)?;
    Ok(InhibitAnyPolicy { skip_certs })
}

#[tactic(auto, unfolding(crate::specs::Reading::policy_parts_at))]
fn policy_parts<'a>(i: &'a [u8]) -> X509Result<'a, PolicyConstraints>
    ensures { Gives (λ r. (policy_constraints_view r.1, r.0.now)) result (policy_parts_at i.now) }
{
    let (i, require_explicit_policy) = next_number(0, i)?;
    let (i, inhibit_policy_mapping) = next_number(1, i)?;
    if !i.is_empty() {
        return Err(Refusal::Error(X509Error::Der(Error::InvalidLength)));
    }
    Ok((
        i,
        PolicyConstraints {
            require_explicit_policy,
            inhibit_policy_mapping,
        },
    ))
}

fn constraints_of(element: Element<'_>) -> Result<PolicyConstraints, Refusal<X509Error>>
    ensures { Gives policy_constraints_view result (policy_constraints_in (piece_of element.entry)) }
{
    let content = content_of(16, element.any)?;
    let (_, constraints) = policy_parts(content)?;
    Ok(constraints)
}

impl DerMeaning for PolicyConstraints {
    ghost der_reads = { λ i v r. grammar.PolicyConstraints i (policy_constraints_view v) r };

    ghost der_cut = { EndsWithinElement };

    ghost der_grows = { Unit {0} };

    ghost one_rest = { λ i v w r s left right. one_rest (Holds 16 grammar.PolicyConstraintsParts) i (policy_constraints_view v) (policy_constraints_view w) r s left right };
}

impl<'a> FromDer<'a, X509Error> for PolicyConstraints {
    /// Reads one policyConstraints from the front of `bytes`. Returns `(rest, constraints)`.
    ///
    /// # Errors
    ///
    /// `Incomplete` if `bytes` ends inside the element; an `Error` if it is malformed, also if
    /// octets remain in its content.
    fn from_der(_alloc: Global, bytes: &'a [u8]) -> X509Result<'a, PolicyConstraints>
        ensures reads { Reads (λ given e. e ≡ told given) (Unit {0}) EndsWithinElement (λ i. i.now)
            (λ i v r. grammar.PolicyConstraints i (policy_constraints_view v) r) bytes.now result }
        ensures exact { Gives (λ r. (policy_constraints_view r.1, r.0.now)) result (policy_constraints_at bytes.now) }
        ensures found { IfOk result (λ r. grammar.PolicyConstraints bytes.now (policy_constraints_view r.1) r.0.now) }
        ensures only { (v : values.PolicyConstraints) (rest : List ℕ) → grammar.PolicyConstraints bytes.now v rest
            → ElseMemory result (λ r. (policy_constraints_view r.1 ≡ v) × (r.0.now ≡ rest)) }
    {
        constraints_at_front(bytes)
    }
}

fn constraints_at_front<'a>(i: &'a [u8]) -> X509Result<'a, PolicyConstraints>
    ensures exact { Gives (λ r. (policy_constraints_view r.1, r.0.now)) result (policy_constraints_at i.now) }
    ensures missing { TellsMissing i.now result }
    ensures shorter { IfOk result (λ r. length r.0.now < length i.now) }
{
    let mut count = HeaderCount::new();
    let (rest, element) = front_element(i, &mut count)?;
    match constraints_of(element) {
        Ok(value) => Ok((rest, value)),
        Err(refusal) => Err(Refusal::within(refusal)),
    }
}

impl DerMeaning for InhibitAnyPolicy {
    ghost der_reads = { λ i v r. grammar.InhibitAnyPolicy i (inhibit_view v) r };

    ghost der_cut = { EndsWithinElement };

    ghost one_rest = { λ i v w r s left right. one_rest (Leaf 2 IsNumber) i (inhibit_view v) (inhibit_view w) r s left right };
}

impl<'a> FromDer<'a, X509Error> for InhibitAnyPolicy {
    /// Reads one inhibitAnyPolicy from the front of `bytes`: an unsigned INTEGER of 32 bits in its
    /// shortest form. Returns `(rest, number)`.
    ///
    /// # Errors
    ///
    /// `Incomplete` if `bytes` ends inside the element; an `Error` if it is anything else.
    fn from_der(_alloc: Global, bytes: &'a [u8]) -> X509Result<'a, InhibitAnyPolicy>
        ensures reads { Reads (λ given e. e ≡ told given) ⊥ EndsWithinElement (λ i. i.now)
            (λ i v r. grammar.InhibitAnyPolicy i (inhibit_view v) r) bytes.now result }
        ensures exact { Gives (λ r. (inhibit_view r.1, r.0.now)) result (inhibit_at bytes.now) }
        ensures memory { IfErr result TakesNoMemory }
        ensures found { IfOk result (λ r. grammar.InhibitAnyPolicy bytes.now (inhibit_view r.1) r.0.now) }
        ensures only { (v : ℕ) (rest : List ℕ) → grammar.InhibitAnyPolicy bytes.now v rest
            → ElseMemory result (λ r. (inhibit_view r.1 ≡ v) × (r.0.now ≡ rest)) }
    {
        inhibit_at_front(bytes)
    }
}

fn inhibit_at_front<'a>(i: &'a [u8]) -> X509Result<'a, InhibitAnyPolicy>
    ensures exact { Gives (λ r. (inhibit_view r.1, r.0.now)) result (inhibit_at i.now) }
    ensures missing { TellsMissing i.now result }
    ensures shorter { IfOk result (λ r. length r.0.now < length i.now) }
    ensures memory { IfErr result TakesNoMemory }
{
    let mut count = HeaderCount::new();
    let (rest, element) = front_element(i, &mut count)?;
    match inhibit_of(element.any) {
        Ok(value) => Ok((rest, value)),
        Err(refusal) => Err(Refusal::within(refusal)),
    }
}
