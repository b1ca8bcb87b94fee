//! A policyMappings: pairs of policies that the issuer considers equivalent (RFC 5280, 4.2.1.5).

ghost use Rattle.std.specs.Prelude.{◌≡◌, ◌<◌, ℕ, List, length, IfOk, IfErr};
ghost use Rattle.asn1_any.specs.CutViews.{piece_of};
ghost use Rattle.asn1_any.specs.Views.{any_of};
ghost use Rattle.x509_core.specs.asn1_traits.specs.Elements.{EndsWithinElement};
ghost use Rattle.x509_core.specs.asn1_traits.specs.Reads.{Reads};
ghost use Rattle.x509_core.specs.Answers.{Gives, ElseMemory};
ghost use Rattle.x509_core.specs.Errors.{told};
ghost use Rattle.x509_core.specs.Fronts.{TakesNoMemory, TellsMissing, one_rest};
ghost use Rattle.std.specs.Prelude.{map};
ghost use Rattle.x509_core.specs.Grammar.{ToEnd};
ghost use Rattle.x509_items.specs.Grammar.{HoldsSequence};
ghost use Rattle.x509_ext_policies.specs.Policies as grammar;
ghost use Rattle.x509_ext_policies.specs.Reading.{mapping_parts_at, mapping_in, mapping_at, mappings_in, mappings_at};
ghost use Rattle.x509_ext_policies.specs.Values as values;
ghost use Rattle.x509_ext_policies.specs.View.{mapping_view, mappings_view};

use asn1_any::Element;
use asn1_core::{Err as Refusal, HeaderCount, OutOfMemory};
use asn1_oid::Oid;
use std::alloc::Global;
use x509_core::{DerMeaning, FromDer, X509Error, X509Result, front_element};
use x509_items::{Begins, Copies, all, copy_all, first_oid, sequence_content, taken, told};

/// A pair of policies that the issuer considers equivalent.
#[derive(Debug, Drop, PartialEq, Eq)]
pub struct PolicyMapping<'a> {
    /// The policy in the issuer's domain.
    pub issuer_domain_policy: Oid<'a>,
    /// The policy in the subject's domain.
    pub subject_domain_policy: Oid<'a>,
}

impl<'a> PolicyMapping<'a> {
    /// Joins two policies.
    pub fn new(issuer_domain_policy: Oid<'a>, subject_domain_policy: Oid<'a>) -> PolicyMapping<'a>
        ensures { result ≡ record { issuer_domain_policy = issuer_domain_policy.entry; subject_domain_policy = subject_domain_policy.entry } }
    {
        PolicyMapping {
            issuer_domain_policy,
            subject_domain_policy,
        }
    }
}

/// Policies that the issuer takes for the same (RFC 5280, 4.2.1.5).
#[derive(Debug, Drop, PartialEq, Eq)]
pub struct PolicyMappings<'a> {
    /// The pairs, in the order of the encoding.
    pub mappings: Vec<PolicyMapping<'a>>,
}

impl<'a> PolicyMapping<'a> {
    /// A copy that borrows the same octets as the pair.
    ///
    /// # Errors
    ///
    /// Out of memory.
    pub fn clone(&self, alloc: Global) -> Result<PolicyMapping<'a>, OutOfMemory>
        ensures { IfOk result (λ copy. mapping_view copy ≡ mapping_view self.now) }
    {
        let issuer_domain_policy = self.issuer_domain_policy.clone(alloc)?;
        let subject_domain_policy = self.subject_domain_policy.clone(alloc)?;
        Ok(PolicyMapping {
            issuer_domain_policy,
            subject_domain_policy,
        })
    }
}

impl<'a> Copies for PolicyMapping<'a> {
    ghost use Rattle.x509_ext_policies.specs.Values as values;
    ghost use Rattle.x509_ext_policies.specs.View.{mapping_view};

    ghost Value = { values.PolicyMapping };

    ghost value = { mapping_view };

    fn copy(&self, alloc: Global) -> Result<PolicyMapping<'a>, OutOfMemory> {
        self.clone(alloc)
    }
}

impl<'a> PolicyMappings<'a> {
    /// A copy that borrows the same octets as the pairs.
    ///
    /// # Errors
    ///
    /// Out of memory, for the copied vector.
    pub fn clone(&self, alloc: Global) -> Result<PolicyMappings<'a>, OutOfMemory>
        ensures { IfOk result (λ copy. mappings_view copy ≡ mappings_view self.now) }
    {
        let mappings = copy_all(alloc, self.mappings.as_slice())?;
        Ok(PolicyMappings { mappings })
    }
}

#[tactic(auto, unfolding(crate::specs::Reading::mapping_parts_at))]
fn mapping_parts<'a>(i: &'a [u8]) -> X509Result<'a, PolicyMapping<'a>>
    ensures { Gives (λ r. (mapping_view r.1, r.0.now)) result (mapping_parts_at i.now) }
{
    let (i, issuer_domain_policy) = first_oid(i)?;
    let (i, subject_domain_policy) = first_oid(i)?;
    Ok((
        i,
        PolicyMapping {
            issuer_domain_policy,
            subject_domain_policy,
        },
    ))
}

fn mapping_of<'a>(element: Element<'a>) -> Result<PolicyMapping<'a>, Refusal<X509Error>>
    ensures { Gives mapping_view result (mapping_in (piece_of element.entry)) }
{
    let content = sequence_content(element.any)?;
    let (_, mapping) = mapping_parts(content)?;
    Ok(mapping)
}

fn mappings_of<'a>(
    alloc: Global,
    element: Element<'a>,
) -> Result<PolicyMappings<'a>, Refusal<X509Error>>
    ensures { Gives mappings_view result (mappings_in (piece_of element.entry)) }
{
    let content = sequence_content(element.any)?;
    let mappings = told(all(alloc, content))?;
    Ok(PolicyMappings { mappings })
}

impl<'a> Begins<'a> for PolicyMapping<'a> {
    ghost use Rattle.x509_ext_policies.specs.Reading.{mapping_at};
    ghost use Rattle.x509_ext_policies.specs.Values as values;
    ghost use Rattle.x509_ext_policies.specs.View.{mapping_view};

    ghost Data = { values.PolicyMapping };

    ghost stands_for = { mapping_view };

    ghost reader = { mapping_at };

    ghost IsCounted = { λ _. Unit {0} };

    fn begin(
        _alloc: Global,
        i: &'a [u8],
    ) -> Result<Option<(&'a [u8], PolicyMapping<'a>)>, OutOfMemory> {
        taken(mapping_at_front(i))
    }
}

impl<'b> DerMeaning for PolicyMapping<'b> {
    ghost der_reads = { λ i v r. grammar.PolicyMapping i (mapping_view v) r };

    ghost der_cut = { EndsWithinElement };

    ghost der_grows = { Unit {0} };

    ghost one_rest = { λ i v w r s left right. one_rest (HoldsSequence grammar.MappingParts) i (mapping_view v) (mapping_view w) r s left right };
}

impl<'a> FromDer<'a, X509Error> for PolicyMapping<'a> {
    /// Reads one pair, a constructed universal SEQUENCE, from the front of `bytes`. Returns `(rest,
    /// pair)`.
    ///
    /// # Errors
    ///
    /// `Incomplete` if `bytes` ends inside the element; an `Error` if it is anything else.
    fn from_der(_alloc: Global, bytes: &'a [u8]) -> X509Result<'a, PolicyMapping<'a>>
        ensures reads { Reads (λ given e. e ≡ told given) (Unit {0}) EndsWithinElement (λ i. i.now)
            (λ i v r. grammar.PolicyMapping i (mapping_view v) r) bytes.now result }
        ensures exact { Gives (λ r. (mapping_view r.1, r.0.now)) result (mapping_at bytes.now) }
        ensures found { IfOk result (λ r. grammar.PolicyMapping bytes.now (mapping_view r.1) r.0.now) }
        ensures only { (v : values.PolicyMapping) (rest : List ℕ) → grammar.PolicyMapping bytes.now v rest
            → ElseMemory result (λ r. (mapping_view r.1 ≡ v) × (r.0.now ≡ rest)) }
    {
        mapping_at_front(bytes)
    }
}

fn mapping_at_front<'a>(i: &'a [u8]) -> X509Result<'a, PolicyMapping<'a>>
    ensures exact { Gives (λ r. (mapping_view r.1, r.0.now)) result (mapping_at i.now) }
    ensures missing { TellsMissing i.now result }
    ensures shorter { IfOk result (λ r. length r.0.now < length i.now) }
{
    let mut count = HeaderCount::new();
    let (rest, element) = front_element(i, &mut count)?;
    match mapping_of(element) {
        Ok(value) => Ok((rest, value)),
        Err(refusal) => Err(Refusal::within(refusal)),
    }
}

impl<'b> DerMeaning for PolicyMappings<'b> {
    ghost der_reads = { λ i v r. grammar.PolicyMappings i (mappings_view v) r };

    ghost der_cut = { EndsWithinElement };

    ghost der_grows = { Unit {0} };

    ghost one_rest = { λ i v w r s left right. one_rest (HoldsSequence (ToEnd grammar.PolicyMapping)) i (mappings_view v) (mappings_view w) r s left right };
}

impl<'a> FromDer<'a, X509Error> for PolicyMappings<'a> {
    /// Reads one SEQUENCE of pairs, possibly empty, from the front of `bytes`. Returns `(rest,
    /// mappings)`.
    ///
    /// # Errors
    ///
    /// `Incomplete` if `bytes` ends inside the element; an `Error` if it holds anything else; out
    /// of memory.
    fn from_der(alloc: Global, bytes: &'a [u8]) -> X509Result<'a, PolicyMappings<'a>>
        ensures reads { Reads (λ given e. e ≡ told given) (Unit {0}) EndsWithinElement (λ i. i.now)
            (λ i v r. grammar.PolicyMappings i (mappings_view v) r) bytes.now result }
        ensures exact { Gives (λ r. (mappings_view r.1, r.0.now)) result (mappings_at bytes.now) }
        ensures found { IfOk result (λ r. grammar.PolicyMappings bytes.now (mappings_view r.1) r.0.now) }
        ensures only { (v : List values.PolicyMapping) (rest : List ℕ) → grammar.PolicyMappings bytes.now v rest
            → ElseMemory result (λ r. (mappings_view r.1 ≡ v) × (r.0.now ≡ rest)) }
    {
        mappings_at_front(alloc, bytes)
    }
}

fn mappings_at_front<'a>(alloc: Global, i: &'a [u8]) -> X509Result<'a, PolicyMappings<'a>>
    ensures exact { Gives (λ r. (mappings_view r.1, r.0.now)) result (mappings_at i.now) }
    ensures missing { TellsMissing i.now result }
    ensures shorter { IfOk result (λ r. length r.0.now < length i.now) }
{
    let mut count = HeaderCount::new();
    let (rest, element) = front_element(i, &mut count)?;
    match mappings_of(alloc, element) {
        Ok(value) => Ok((rest, value)),
        Err(refusal) => Err(Refusal::within(refusal)),
    }
}
