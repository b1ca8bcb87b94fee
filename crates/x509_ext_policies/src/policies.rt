//! `CertificatePolicies` (RFC 5280, 4.2.1.4).

ghost use Rattle.std.specs.Prelude.{◌≡◌, ◌<◌, ℕ, List, length, IfOk, IfErr};
ghost use Rattle.asn1_any.specs.CutViews.{piece_of};
ghost use Rattle.asn1_any.specs.Views.{any_of};
ghost use Rattle.x509_core.specs.Answers.{Gives, ElseMemory};
ghost use Rattle.x509_core.specs.Fronts.{TakesNoMemory, TellsMissing};
ghost use Rattle.std.specs.Prelude.{map, option_map, Ok};
ghost use Rattle.x509_items.specs.Reading.{maybe_of, some_of};
ghost use Rattle.x509_ext_policies.specs.Policies as grammar;
ghost use Rattle.x509_ext_policies.specs.Reading.{qualifier_parts_at, qualifier_in, qualifier_at, qualifiers_at, policy_parts_at, policy_in, policy_at, policies_in, policies_at};
ghost use Rattle.x509_ext_policies.specs.Values as values;
ghost use Rattle.x509_ext_policies.specs.View.{qualifier_view, policy_view};

use asn1_any::Element;
use asn1_core::{Err as Refusal, HeaderCount, OutOfMemory};
use asn1_oid::Oid;
use std::alloc::Global;
use x509_core::{X509Error, X509Result, front_element};
use x509_items::{
    Begins, Copies, all, content_of, copy_some, first_oid, optional, some, taken, told, told_front,
};

/// A policy qualifier: further information on a policy.
#[derive(Debug, Drop, PartialEq, Eq)]
pub struct PolicyQualifierInfo<'a> {
    /// The identifier of the qualifier.
    pub policy_qualifier_id: Oid<'a>,
    /// The octets after its identifier.
    pub qualifier: &'a [u8],
}

/// A policy with its qualifiers.
#[derive(Debug, Drop, PartialEq, Eq)]
pub struct PolicyInformation<'a> {
    /// The identifier of the policy.
    pub policy_id: Oid<'a>,
    /// Its qualifiers, or `None` if there is no list of them.
    pub policy_qualifiers: Option<Vec<PolicyQualifierInfo<'a>>>,
}

/// A certificatePolicies: the policies that a certificate was issued under (RFC 5280, 4.2.1.4).
pub type CertificatePolicies<'a> = Vec<PolicyInformation<'a>>;

impl<'a> PolicyQualifierInfo<'a> {
    /// A copy that borrows the same octets as the qualifier.
    ///
    /// # Errors
    ///
    /// Out of memory.
    pub fn clone(&self, alloc: Global) -> Result<PolicyQualifierInfo<'a>, OutOfMemory>
        ensures { IfOk result (λ copy. qualifier_view copy ≡ qualifier_view self.now) }
    {
        let policy_qualifier_id = self.policy_qualifier_id.clone(alloc)?;
        Ok(PolicyQualifierInfo {
            policy_qualifier_id,
            qualifier: self.qualifier,
        })
    }
}

impl<'a> Copies for PolicyQualifierInfo<'a> {
    ghost use Rattle.x509_ext_policies.specs.Values as values;
    ghost use Rattle.x509_ext_policies.specs.View.{qualifier_view};

    ghost Value = { values.PolicyQualifierInfo };

    ghost value = { qualifier_view };

    fn copy(&self, alloc: Global) -> Result<PolicyQualifierInfo<'a>, OutOfMemory> {
        self.clone(alloc)
    }
}

impl<'a> PolicyInformation<'a> {
    /// A copy that borrows the same octets as the policy.
    ///
    /// # Errors
    ///
    /// Out of memory, for the copied vector.
    pub fn clone(&self, alloc: Global) -> Result<PolicyInformation<'a>, OutOfMemory>
        ensures { IfOk result (λ copy. policy_view copy ≡ policy_view self.now) }
    {
        let policy_id = self.policy_id.clone(alloc)?;
        let policy_qualifiers = copy_some(alloc, &self.policy_qualifiers)?;
        Ok(PolicyInformation {
            policy_id,
            policy_qualifiers,
        })
    }
}

impl<'a> Copies for PolicyInformation<'a> {
    ghost use Rattle.x509_ext_policies.specs.Values as values;
    ghost use Rattle.x509_ext_policies.specs.View.{policy_view};

    ghost Value = { values.PolicyInformation };

    ghost value = { policy_view };

    fn copy(&self, alloc: Global) -> Result<PolicyInformation<'a>, OutOfMemory> {
        self.clone(alloc)
    }
}

// The qualifier is all octets that are left.
#[tactic(auto, unfolding(crate::specs::Reading::qualifier_parts_at))]
fn qualifier_parts<'a>(i: &'a [u8]) -> Result<PolicyQualifierInfo<'a>, Refusal<X509Error>>
    ensures { Gives qualifier_view result (qualifier_parts_at i.now) }
{
    let (qualifier, policy_qualifier_id) = first_oid(i)?;
    Ok(PolicyQualifierInfo {
        policy_qualifier_id,
        qualifier,
    })
}

fn qualifier_at_front<'a>(i: &'a [u8]) -> X509Result<'a, PolicyQualifierInfo<'a>>
    ensures exact { Gives (λ r. (qualifier_view r.1, r.0.now)) result (qualifier_at i.now) }
    ensures shorter { IfOk result (λ r. length r.0.now < length i.now) }
{
    let mut count = HeaderCount::new();
    let (rest, element) = front_element(i, &mut count)?;
    let content = content_of(16, element.any)?;
    let qualifier = qualifier_parts(content)?;
    Ok((rest, qualifier))
}

impl<'a> Begins<'a> for PolicyQualifierInfo<'a> {
    ghost use Rattle.x509_ext_policies.specs.Reading.{qualifier_at};
    ghost use Rattle.x509_ext_policies.specs.Values as values;
    ghost use Rattle.x509_ext_policies.specs.View.{qualifier_view};

    ghost Data = { values.PolicyQualifierInfo };

    ghost stands_for = { qualifier_view };

    ghost reader = { qualifier_at };

    ghost IsCounted = { λ _. Unit {0} };

    fn begin(
        _alloc: Global,
        i: &'a [u8],
    ) -> Result<Option<(&'a [u8], PolicyQualifierInfo<'a>)>, OutOfMemory> {
        taken(qualifier_at_front(i))
    }
}

fn some_qualifiers<'a>(
    alloc: Global,
    content: &'a [u8],
) -> X509Result<'a, Vec<PolicyQualifierInfo<'a>>>
    ensures { Gives (λ r. (map qualifier_view r.1.items, r.0.now)) result (some_of qualifier_at content.now) }
{
    told_front(some(alloc, content))
}

fn qualifiers_at_front<'a>(
    alloc: Global,
    i: &'a [u8],
) -> X509Result<'a, Vec<PolicyQualifierInfo<'a>>>
    ensures { Gives (λ r. (map qualifier_view r.1.items, r.0.now)) result (qualifiers_at i.now) }
{
    let mut count = HeaderCount::new();
    let (rest, element) = front_element(i, &mut count)?;
    let content = content_of(16, element.any)?;
    let (_, qualifiers) = some_qualifiers(alloc, content)?;
    Ok((rest, qualifiers))
}

// One qualifier or more in a SEQUENCE, or none.
fn next_qualifiers<'a>(
    alloc: Global,
    i: &'a [u8],
) -> X509Result<'a, Option<Vec<PolicyQualifierInfo<'a>>>>
    ensures { Gives (λ r. (option_map (λ v. map qualifier_view v.items) r.1, r.0.now)) result (Ok (maybe_of qualifiers_at i.now)) }
{
    optional(i, qualifiers_at_front(alloc, i))
}

#[tactic(auto, unfolding(crate::specs::Reading::policy_parts_at))]
fn policy_parts<'a>(alloc: Global, i: &'a [u8]) -> X509Result<'a, PolicyInformation<'a>>
    ensures { Gives (λ r. (policy_view r.1, r.0.now)) result (policy_parts_at i.now) }
{
    let (i, policy_id) = first_oid(i)?;
    let (i, policy_qualifiers) = next_qualifiers(alloc, i)?;
    Ok((
        i,
        PolicyInformation {
            policy_id,
            policy_qualifiers,
        },
    ))
}

fn policy_at_front<'a>(alloc: Global, i: &'a [u8]) -> X509Result<'a, PolicyInformation<'a>>
    ensures exact { Gives (λ r. (policy_view r.1, r.0.now)) result (policy_at i.now) }
    ensures shorter { IfOk result (λ r. length r.0.now < length i.now) }
{
    let mut count = HeaderCount::new();
    let (rest, element) = front_element(i, &mut count)?;
    let content = content_of(16, element.any)?;
    let (_, policy) = policy_parts(alloc, content)?;
    Ok((rest, policy))
}

impl<'a> Begins<'a> for PolicyInformation<'a> {
    ghost use Rattle.x509_ext_policies.specs.Reading.{policy_at};
    ghost use Rattle.x509_ext_policies.specs.Values as values;
    ghost use Rattle.x509_ext_policies.specs.View.{policy_view};

    ghost Data = { values.PolicyInformation };

    ghost stands_for = { policy_view };

    ghost reader = { policy_at };

    ghost IsCounted = { λ _. Unit {0} };

    fn begin(
        alloc: Global,
        i: &'a [u8],
    ) -> Result<Option<(&'a [u8], PolicyInformation<'a>)>, OutOfMemory> {
        taken(policy_at_front(alloc, i))
    }
}

/// Reads one SEQUENCE of policies, possibly empty, from the front. Returns `(rest, policies)`.
///
/// # Errors
///
/// `Incomplete` if the octets end inside the element; an `Error` if it holds anything else; out of
/// memory.
pub fn certificate_policies<'a>(
    alloc: Global,
    i: &'a [u8],
) -> X509Result<'a, CertificatePolicies<'a>>
    ensures exact { Gives (λ r. (map policy_view r.1.items, r.0.now)) result (policies_at i.now) }
    ensures found { IfOk result (λ r. grammar.CertificatePolicies i.now (map policy_view r.1.items) r.0.now) }
    ensures only { (v : List values.PolicyInformation) (rest : List ℕ) → grammar.CertificatePolicies i.now v rest
        → ElseMemory result (λ r. (map policy_view r.1.items ≡ v) × (r.0.now ≡ rest)) }
{
    policies_at_front(alloc, i)
}

fn policies_of<'a>(
    alloc: Global,
    element: Element<'a>,
) -> Result<CertificatePolicies<'a>, Refusal<X509Error>>
    ensures { Gives (λ v. map policy_view v.items) result (policies_in (piece_of element.entry)) }
{
    let content = content_of(16, element.any)?;
    told(all(alloc, content))
}

fn policies_at_front<'a>(alloc: Global, i: &'a [u8]) -> X509Result<'a, CertificatePolicies<'a>>
    ensures { Gives (λ r. (map policy_view r.1.items, r.0.now)) result (policies_at i.now) }
{
    let mut count = HeaderCount::new();
    let (rest, element) = front_element(i, &mut count)?;
    let policies = policies_of(alloc, element)?;
    Ok((rest, policies))
}
