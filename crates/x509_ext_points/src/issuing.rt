//! `IssuingDistributionPoint` (RFC 5280, 5.2.5).

ghost use Rattle.std.specs.Prelude.{◌≡◌, ℕ, List, IfOk, IfErr, option_map};
ghost use Rattle.asn1_any.specs.CutViews.{piece_of};
ghost use Rattle.asn1_any.specs.Views.{any_of};
ghost use Rattle.x509_core.specs.Answers.{Gives, ElseMemory};
ghost use Rattle.x509_core.specs.Fronts.{TakesNoMemory};
ghost use Rattle.x509_ext_points.specs.Points as grammar;
ghost use Rattle.x509_ext_points.specs.Reading.{truth_in, truth_at, flag_at, issuing_parts_at, issuing_in, issuing_at};
ghost use Rattle.x509_ext_points.specs.Values as values;
ghost use Rattle.x509_ext_points.specs.View.{IsCountedIssuingPoint, issuing_point_view};

use crate::name::{DistributionPointName, copy_name, copy_reasons, next_name, next_reasons};
use asn1_any::{Any, Element};
use asn1_core::{Err as Refusal, Error, HeaderCount, OutOfMemory};
use std::alloc::Global;
use x509_core::{X509Error, X509Result, front_element, leaf_of};
use x509_ext_names::ReasonFlags;
use x509_items::content_of;

/// An issuingDistributionPoint: the scope of a revocation list (RFC 5280, 5.2.5).
#[derive(Debug, Drop, PartialEq, Eq)]
pub struct IssuingDistributionPoint<'a> {
    /// The distribution point of the list.
    pub distribution_point: Option<DistributionPointName<'a>>,
    /// Whether the list covers only end entity certificates.
    pub only_contains_user_certs: bool,
    /// Whether the list covers only certificates of authorities.
    pub only_contains_ca_certs: bool,
    /// The only reasons that the list covers, or `None` for all.
    pub only_some_reasons: Option<ReasonFlags>,
    /// Whether the list covers certificates of other issuers.
    pub indirect_crl: bool,
    /// Whether the list covers only attribute certificates.
    pub only_contains_attribute_certs: bool,
}

impl<'a> IssuingDistributionPoint<'a> {
    /// A copy that borrows the same octets as the value.
    ///
    /// # Errors
    ///
    /// Out of memory, for a copied name.
    pub fn clone(&self, alloc: Global) -> Result<IssuingDistributionPoint<'a>, OutOfMemory>
        ensures { IfOk result (λ copy. issuing_point_view copy ≡ issuing_point_view self.now) }
    {
        let distribution_point = copy_name(alloc, &self.distribution_point)?;
        Ok(IssuingDistributionPoint {
            distribution_point,
            only_contains_user_certs: self.only_contains_user_certs,
            only_contains_ca_certs: self.only_contains_ca_certs,
            only_some_reasons: copy_reasons(&self.only_some_reasons),
            indirect_crl: self.indirect_crl,
            only_contains_attribute_certs: self.only_contains_attribute_certs,
        })
    }
}

// A BOOLEAN of DER under this tag number.
fn truth_of(tag: u32, any: Any<'_>) -> Result<bool, Refusal<X509Error>>
    ensures read { Gives (λ b. b) result (truth_in tag (any_of any.entry)) }
    ensures memory { IfErr result TakesNoMemory }
{
    match leaf_of(tag, any)? {
        [0x00] => Ok(false),
        [0xff] => Ok(true),
        _ => Err(Refusal::Error(X509Error::Der(Error::InvalidLength))),
    }
}

fn truth_at_front<'a>(tag: u32, i: &'a [u8]) -> X509Result<'a, bool>
    ensures read { Gives (λ r. (r.1, r.0.now)) result (truth_at tag i.now) }
    ensures memory { IfErr result TakesNoMemory }
{
    let mut count = HeaderCount::new();
    let (rest, element) = front_element(i, &mut count)?;
    let truth = truth_of(tag, element.any)?;
    Ok((rest, truth))
}

// A BOOLEAN under this tag number, or false and nothing read.
fn next_flag<'a>(tag: u32, i: &'a [u8]) -> (&'a [u8], bool)
    ensures { (result.1, result.0.now) ≡ flag_at tag i.now }
{
    match truth_at_front(tag, i) {
        Ok((rest, truth)) => (rest, truth),
        Err(_) => (i, false),
    }
}

#[tactic(auto, unfolding(crate::specs::Reading::issuing_parts_at))]
fn issuing_parts<'a>(alloc: Global, i: &'a [u8]) -> X509Result<'a, IssuingDistributionPoint<'a>>
    ensures read { Gives (λ r. (issuing_point_view r.1, r.0.now)) result (issuing_parts_at i.now) }
    ensures counted { IfOk result (λ r. IsCountedIssuingPoint r.1) }
{
    let (i, distribution_point) = next_name(alloc, i)?;
    let (i, only_contains_user_certs) = next_flag(1, i);
    let (i, only_contains_ca_certs) = next_flag(2, i);
    let (i, only_some_reasons) = next_reasons(3, i)?;
    let (i, indirect_crl) = next_flag(4, i);
    let (i, only_contains_attribute_certs) = next_flag(5, i);
    Ok((
        i,
        IssuingDistributionPoint {
            distribution_point,
            only_contains_user_certs,
            only_contains_ca_certs,
            only_some_reasons,
            indirect_crl,
            only_contains_attribute_certs,
        },
    ))
}

fn issuing_of<'a>(
    alloc: Global,
    element: Element<'a>,
) -> Result<IssuingDistributionPoint<'a>, Refusal<X509Error>>
    ensures read { Gives issuing_point_view result (issuing_in (piece_of element.entry)) }
    ensures counted { IfOk result IsCountedIssuingPoint }
{
    let content = content_of(16, element.any)?;
    let (_, value) = issuing_parts(alloc, content)?;
    Ok(value)
}

fn issuing_at_front<'a>(alloc: Global, i: &'a [u8]) -> X509Result<'a, IssuingDistributionPoint<'a>>
    ensures read { Gives (λ r. (issuing_point_view r.1, r.0.now)) result (issuing_at i.now) }
    ensures counted { IfOk result (λ r. IsCountedIssuingPoint r.1) }
{
    let mut count = HeaderCount::new();
    let (rest, element) = front_element(i, &mut count)?;
    let value = issuing_of(alloc, element)?;
    Ok((rest, value))
}

/// Reads one issuingDistributionPoint from the front. Returns `(rest, point)`. A malformed field
/// counts as absent, or as false: use the strict readers to judge a list.
///
/// # Errors
///
/// `Incomplete` if the octets end inside the element; an `Error` if it isn't a SEQUENCE; out of
/// memory.
pub fn issuing_distribution_point<'a>(
    alloc: Global,
    i: &'a [u8],
) -> X509Result<'a, IssuingDistributionPoint<'a>>
    ensures exact { Gives (λ r. (issuing_point_view r.1, r.0.now)) result (issuing_at i.now) }
    ensures found { IfOk result (λ r. grammar.IssuingDistributionPoint i.now (issuing_point_view r.1) r.0.now) }
    ensures only { (v : values.IssuingDistributionPoint) (rest : List ℕ) → grammar.IssuingDistributionPoint i.now v rest
        → ElseMemory result (λ r. (issuing_point_view r.1 ≡ v) × (r.0.now ≡ rest)) }
    ensures counted { IfOk result (λ r. IsCountedIssuingPoint r.1) }
{
    issuing_at_front(alloc, i)
}
