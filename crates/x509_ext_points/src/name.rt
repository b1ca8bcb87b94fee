//! `DistributionPointName` (RFC 5280, 4.2.1.13), and a reader of reasons.

ghost use Rattle.std.specs.Prelude.{◌≡◌, ℕ, List, IfOk, IfSome, map, option_map, Ok};
ghost use Rattle.x509_core.specs.Answers.{Gives};
ghost use Rattle.x509_ext_names.specs.x509_ext_flags.specs.View.{reasons_view};
ghost use Rattle.x509_items.specs.Reading.{maybe_of};
ghost use Rattle.x509_ext_points.specs.Reading.{full_name_at, relative_at, point_name_at, boxed_name_at, reasons_at};
ghost use Rattle.x509_ext_points.specs.View.{IsCountedPointName, point_name_view};

use asn1_core::{Err as Refusal, Error, HeaderCount, OutOfMemory};
use asn1_traits::FromDer;
use std::alloc::Global;
use x509_core::{X509Error, X509Result, front_element, front_header};
use x509_ext_names::{
    GeneralName, ReasonFlags, RelativeDistinguishedName, general_names, reasons_of,
};
use x509_items::{content_of, copy_all, optional};

/// The name of a distribution point.
#[derive(Debug, Drop, PartialEq, Eq)]
pub enum DistributionPointName<'a> {
    /// fullName: alternative names of the same place.
    FullName(Vec<GeneralName<'a>>),
    /// nameRelativeToCRLIssuer: attributes to append to the name of the list's issuer.
    NameRelativeToCRLIssuer(RelativeDistinguishedName<'a>),
}

impl<'a> DistributionPointName<'a> {
    /// A copy that borrows the same octets as the name.
    ///
    /// # Errors
    ///
    /// Out of memory.
    pub fn clone(&self, alloc: Global) -> Result<DistributionPointName<'a>, OutOfMemory>
        ensures { IfOk result (λ copy. point_name_view copy ≡ point_name_view self.now) }
    {
        let name = match self {
            DistributionPointName::FullName(names) => {
                DistributionPointName::FullName(copy_all(alloc, names.as_slice())?)
            }
            DistributionPointName::NameRelativeToCRLIssuer(set) => {
                DistributionPointName::NameRelativeToCRLIssuer(set.clone(alloc)?)
            }
        };
        Ok(name)
    }
}

// A copy of a name, if there is one.
pub(crate) fn copy_name<'a>(
    alloc: Global,
    name: &Option<DistributionPointName<'a>>,
) -> Result<Option<DistributionPointName<'a>>, OutOfMemory>
    ensures { IfOk result (λ copy. option_map point_name_view copy ≡ option_map point_name_view name.now) }
{
    match name {
        Some(name) => Ok(Some(name.clone(alloc)?)),
        None => Ok(None),
    }
}

pub(crate) fn copy_reasons(reasons: &Option<ReasonFlags>) -> Option<ReasonFlags>
    ensures { result ≡ reasons.now }
{
    match reasons {
        Some(reasons) => Some(ReasonFlags {
            flags: reasons.flags,
        }),
        None => None,
    }
}

fn full_name<'a>(alloc: Global, i: &'a [u8]) -> X509Result<'a, DistributionPointName<'a>>
    ensures read { Gives (λ r. (point_name_view r.1, r.0.now)) result (full_name_at i.now) }
    ensures counted { IfOk result (λ r. IsCountedPointName r.1) }
{
    let (rest, names) = general_names(alloc, i)?;
    Ok((rest, DistributionPointName::FullName(names)))
}

fn relative_name<'a>(alloc: Global, i: &'a [u8]) -> X509Result<'a, DistributionPointName<'a>>
    ensures read { Gives (λ r. (point_name_view r.1, r.0.now)) result (relative_at i.now) }
    ensures counted { IfOk result (λ r. IsCountedPointName r.1) }
{
    let (rest, set) = RelativeDistinguishedName::from_der(alloc, i)?;
    Ok((rest, DistributionPointName::NameRelativeToCRLIssuer(set)))
}

// A name after the header of its kind, whose length isn't used.
#[tactic(auto, unfolding(crate::specs::Reading::point_name_at))]
fn point_name<'a>(alloc: Global, i: &'a [u8]) -> X509Result<'a, DistributionPointName<'a>>
    ensures read { Gives (λ r. (point_name_view r.1, r.0.now)) result (point_name_at i.now) }
    ensures counted { IfOk result (λ r. IsCountedPointName r.1) }
{
    let mut count = HeaderCount::new();
    let (after, header) = front_header(i, &mut count)?;
    if header.tag().0 == 0 {
        full_name(alloc, after)
    } else if header.tag().0 == 1 {
        relative_name(alloc, after)
    } else {
        Err(Refusal::Error(X509Error::Der(Error::InvalidTag)))
    }
}

fn name_at_front<'a>(alloc: Global, i: &'a [u8]) -> X509Result<'a, DistributionPointName<'a>>
    ensures read { Gives (λ r. (point_name_view r.1, r.0.now)) result (boxed_name_at i.now) }
    ensures counted { IfOk result (λ r. IsCountedPointName r.1) }
{
    let mut count = HeaderCount::new();
    let (rest, element) = front_element(i, &mut count)?;
    let content = content_of(0, element.any)?;
    let (_, name) = point_name(alloc, content)?;
    Ok((rest, name))
}

/// Reads an optional name under tag number 0.
pub(crate) fn next_name<'a>(
    alloc: Global,
    i: &'a [u8],
) -> X509Result<'a, Option<DistributionPointName<'a>>>
    ensures read { Gives (λ r. (option_map point_name_view r.1, r.0.now)) result (Ok (maybe_of boxed_name_at i.now)) }
    ensures counted { IfOk result (λ r. IfSome r.1 IsCountedPointName) }
{
    optional(i, name_at_front(alloc, i))
}

fn reasons_at_front<'a>(tag: u32, i: &'a [u8]) -> X509Result<'a, ReasonFlags>
    ensures { Gives (λ r. (reasons_view r.1, r.0.now)) result (reasons_at tag i.now) }
{
    let mut count = HeaderCount::new();
    let (rest, element) = front_element(i, &mut count)?;
    let reasons = reasons_of(tag, element.any)?;
    Ok((rest, reasons))
}

/// Reads optional reasons under this tag number.
pub(crate) fn next_reasons<'a>(tag: u32, i: &'a [u8]) -> X509Result<'a, Option<ReasonFlags>>
    ensures { Gives (λ r. (option_map reasons_view r.1, r.0.now)) result (Ok (maybe_of (reasons_at tag) i.now)) }
{
    optional(i, reasons_at_front(tag, i))
}
