//! `CRLDistributionPoints` (RFC 5280, 4.2.1.13).

ghost use Rattle.std.specs.Prelude.{◌≡◌, ◌<◌, ℕ, List, length, All, IfOk, IfErr};
ghost use Rattle.asn1_any.specs.CutViews.{piece_of};
ghost use Rattle.asn1_any.specs.Views.{any_of};
ghost use Rattle.asn1_traits.specs.Elements.{EndsWithinElement};
ghost use Rattle.asn1_traits.specs.Reads.{Reads};
ghost use Rattle.x509_core.specs.Answers.{Gives, ElseMemory};
ghost use Rattle.x509_core.specs.Errors.{told};
ghost use Rattle.x509_core.specs.Fronts.{TakesNoMemory, TellsMissing, one_rest};
ghost use Rattle.std.specs.Prelude.{map};
ghost use Rattle.x509_core.specs.Grammar.{Holds, ToEnd};
ghost use Rattle.x509_ext_points.specs.Points as grammar;
ghost use Rattle.x509_ext_points.specs.Reading.{point_parts_at, point_in, point_at, points_in, points_at};
ghost use Rattle.x509_ext_points.specs.Values as values;
ghost use Rattle.x509_ext_points.specs.View.{IsCountedPoint, point_view, points_view};

use crate::name::{DistributionPointName, copy_name, copy_reasons, next_name, next_reasons};
use asn1_any::Element;
use asn1_core::{Err as Refusal, HeaderCount, OutOfMemory};
use asn1_traits::{DerMeaning, FromDer};
use std::alloc::Global;
use x509_core::{X509Error, X509Result, front_element};
use x509_ext_names::{GeneralName, ReasonFlags, next_some_names};
use x509_items::{Begins, Copies, all, content_of, copy_all, copy_some, taken, told};

/// A distribution point: a place where revocation lists are found.
#[derive(Debug, Drop, PartialEq, Eq)]
pub struct CRLDistributionPoint<'a> {
    /// The name of the place.
    pub distribution_point: Option<DistributionPointName<'a>>,
    /// The reasons that its lists cover, or `None` for all.
    pub reasons: Option<ReasonFlags>,
    /// The issuer of its lists, or `None` for the certificate's issuer.
    pub crl_issuer: Option<Vec<GeneralName<'a>>>,
}

/// A cRLDistributionPoints: places where revocation lists are found (RFC 5280, 4.2.1.13).
#[derive(Debug, Drop, PartialEq, Eq)]
pub struct CRLDistributionPoints<'a> {
    /// The distribution points, in the order of the encoding.
    pub points: Vec<CRLDistributionPoint<'a>>,
}

impl<'a> CRLDistributionPoint<'a> {
    /// A copy that borrows the same octets as the distribution point.
    ///
    /// # Errors
    ///
    /// Out of memory.
    pub fn clone(&self, alloc: Global) -> Result<CRLDistributionPoint<'a>, OutOfMemory>
        ensures { IfOk result (λ copy. point_view copy ≡ point_view self.now) }
    {
        let distribution_point = copy_name(alloc, &self.distribution_point)?;
        let crl_issuer = copy_some(alloc, &self.crl_issuer)?;
        Ok(CRLDistributionPoint {
            distribution_point,
            reasons: copy_reasons(&self.reasons),
            crl_issuer,
        })
    }
}

impl<'a> Copies for CRLDistributionPoint<'a> {
    ghost use Rattle.x509_ext_points.specs.Values as values;
    ghost use Rattle.x509_ext_points.specs.View.{point_view};

    ghost Value = { values.DistributionPoint };

    ghost value = { point_view };

    fn copy(&self, alloc: Global) -> Result<CRLDistributionPoint<'a>, OutOfMemory> {
        self.clone(alloc)
    }
}

impl<'a> CRLDistributionPoints<'a> {
    /// A copy that borrows the same octets as the distribution points.
    ///
    /// # Errors
    ///
    /// Out of memory.
    pub fn clone(&self, alloc: Global) -> Result<CRLDistributionPoints<'a>, OutOfMemory>
        ensures { IfOk result (λ copy. points_view copy ≡ points_view self.now) }
    {
        let points = copy_all(alloc, self.points.as_slice())?;
        Ok(CRLDistributionPoints { points })
    }
}

#[tactic(auto, unfolding(crate::specs::Reading::point_parts_at))]
fn point_parts<'a>(alloc: Global, i: &'a [u8]) -> X509Result<'a, CRLDistributionPoint<'a>>
    ensures read { Gives (λ r. (point_view r.1, r.0.now)) result (point_parts_at i.now) }
    ensures counted { IfOk result (λ r. IsCountedPoint r.1) }
{
    let (i, distribution_point) = next_name(alloc, i)?;
    let (i, reasons) = next_reasons(1, i)?;
    let (i, crl_issuer) = next_some_names(alloc, 2, i)?;
    Ok((
        i,
        CRLDistributionPoint {
            distribution_point,
            reasons,
            crl_issuer,
        },
    ))
}

fn point_at_front<'a>(alloc: Global, i: &'a [u8]) -> X509Result<'a, CRLDistributionPoint<'a>>
    ensures exact { Gives (λ r. (point_view r.1, r.0.now)) result (point_at i.now) }
    ensures counted { IfOk result (λ r. IsCountedPoint r.1) }
    ensures shorter { IfOk result (λ r. length r.0.now < length i.now) }
{
    let mut count = HeaderCount::new();
    let (rest, element) = front_element(i, &mut count)?;
    let content = content_of(16, element.any)?;
    let (_, point) = point_parts(alloc, content)?;
    Ok((rest, point))
}

impl<'a> Begins<'a> for CRLDistributionPoint<'a> {
    ghost use Rattle.x509_ext_points.specs.Reading.{point_at};
    ghost use Rattle.x509_ext_points.specs.Values as values;
    ghost use Rattle.x509_ext_points.specs.View.{IsCountedPoint, point_view};

    ghost Data = { values.DistributionPoint };

    ghost stands_for = { point_view };

    ghost reader = { point_at };

    ghost IsCounted = { IsCountedPoint };

    fn begin(
        alloc: Global,
        i: &'a [u8],
    ) -> Result<Option<(&'a [u8], CRLDistributionPoint<'a>)>, OutOfMemory> {
        taken(point_at_front(alloc, i))
    }
}

fn all_points<'a>(
    alloc: Global,
    element: Element<'a>,
) -> Result<Vec<CRLDistributionPoint<'a>>, Refusal<X509Error>>
    ensures read { Gives (λ v. map point_view v.items) result (points_in (piece_of element.entry)) }
    ensures counted { IfOk result (λ v. All IsCountedPoint v.items) }
{
    let content = content_of(16, element.any)?;
    told(all(alloc, content))
}

fn points_of<'a>(
    alloc: Global,
    element: Element<'a>,
) -> Result<CRLDistributionPoints<'a>, Refusal<X509Error>>
    ensures read { Gives points_view result (points_in (piece_of element.entry)) }
    ensures counted { IfOk result (λ v. All IsCountedPoint v.points.items) }
{
    let points = all_points(alloc, element)?;
    Ok(CRLDistributionPoints { points })
}

impl<'b> DerMeaning for CRLDistributionPoints<'b> {
    ghost der_reads = { λ i v r. grammar.CRLDistributionPoints i (points_view v) r };

    ghost der_cut = { EndsWithinElement };

    ghost der_grows = { Unit {0} };

    ghost one_rest = { λ i v w r s left right. one_rest (Holds 16 (ToEnd grammar.DistributionPoint)) i (points_view v) (points_view w) r s left right };
}

impl<'a> FromDer<'a, X509Error> for CRLDistributionPoints<'a> {
    /// Reads one SEQUENCE of distribution points, possibly empty, from the front of `bytes`.
    /// Returns `(rest, points)`. A malformed field of a point counts as absent.
    ///
    /// # Errors
    ///
    /// `Incomplete` if `bytes` ends inside the element; an `Error` if it holds anything else; out
    /// of memory.
    fn from_der(alloc: Global, bytes: &'a [u8]) -> X509Result<'a, CRLDistributionPoints<'a>>
        ensures reads { Reads (λ given e. e ≡ told given) (Unit {0}) EndsWithinElement (λ i. i.now)
            (λ i v r. grammar.CRLDistributionPoints i (points_view v) r) bytes.now result }
        ensures exact { Gives (λ r. (points_view r.1, r.0.now)) result (points_at bytes.now) }
        ensures found { IfOk result (λ r. grammar.CRLDistributionPoints bytes.now (points_view r.1) r.0.now) }
        ensures only { (v : List values.DistributionPoint) (rest : List ℕ) → grammar.CRLDistributionPoints bytes.now v rest
            → ElseMemory result (λ r. (points_view r.1 ≡ v) × (r.0.now ≡ rest)) }
        ensures counted { IfOk result (λ r. All IsCountedPoint r.1.points.items) }
    {
        points_at_front(alloc, bytes)
    }
}

fn points_at_front<'a>(alloc: Global, i: &'a [u8]) -> X509Result<'a, CRLDistributionPoints<'a>>
    ensures exact { Gives (λ r. (points_view r.1, r.0.now)) result (points_at i.now) }
    ensures counted { IfOk result (λ r. All IsCountedPoint r.1.points.items) }
    ensures missing { TellsMissing i.now result }
    ensures shorter { IfOk result (λ r. length r.0.now < length i.now) }
{
    let mut count = HeaderCount::new();
    let (rest, element) = front_element(i, &mut count)?;
    match points_of(alloc, element) {
        Ok(value) => Ok((rest, value)),
        Err(refusal) => Err(Refusal::within(refusal)),
    }
}
