//! `AuthorityInfoAccess` and `SubjectInfoAccess` (RFC 5280, 4.2.2).

ghost use Rattle.std.specs.Prelude.{◌≡◌, ◌<◌, ℕ, List, length, All, IfOk, IfErr};
ghost use Rattle.asn1_any.specs.CutViews.{piece_of};
ghost use Rattle.asn1_any.specs.Views.{any_of};
ghost use Rattle.asn1_traits.specs.Elements.{EndsWithinElement};
ghost use Rattle.asn1_traits.specs.Reads.{Reads};
ghost use Rattle.x509_core.specs.Answers.{Gives, ElseMemory};
ghost use Rattle.x509_core.specs.Errors.{told};
ghost use Rattle.x509_core.specs.Fronts.{TakesNoMemory, TellsMissing, one_rest};
ghost use Rattle.std.specs.Prelude.{map};
ghost use Rattle.x509_core.specs.Grammar.{Holds, ToEnd};
ghost use Rattle.x509_ext_names.specs.Extensions as grammar;
ghost use Rattle.x509_ext_names.specs.Reading.{access_parts_at, access_in, access_at, info_access_in, info_access_at};
ghost use Rattle.x509_ext_names.specs.Values as values;
ghost use Rattle.x509_ext_names.specs.View.{HasCountedLocation, access_view, authority_info_view, subject_info_view};

use crate::general_name::{GeneralName, general_name_at_front};
use asn1_any::Element;
use asn1_core::{Err as Refusal, HeaderCount, OutOfMemory};
use asn1_oid::Oid;
use asn1_traits::{DerMeaning, FromDer};
use std::alloc::Global;
use x509_core::{X509Error, X509Result, front_element};
use x509_items::{Begins, Copies, all, content_of, copy_all, first_oid, taken, told};

/// An access description: the kind of some information or service, and its location.
#[derive(Debug, Drop, PartialEq, Eq)]
pub struct AccessDescription<'a> {
    /// The access method: the kind of information or service.
    pub access_method: Oid<'a>,
    /// Its location.
    pub access_location: GeneralName<'a>,
}

impl<'a> AccessDescription<'a> {
    /// Joins a method and a location.
    pub fn new(access_method: Oid<'a>, access_location: GeneralName<'a>) -> AccessDescription<'a>
        ensures { result ≡ record { access_method = access_method.entry; access_location = access_location.entry } }
    {
        AccessDescription {
            access_method,
            access_location,
        }
    }
}

/// An authorityInfoAccess: where information on the issuer is found (RFC 5280, 4.2.2.1).
#[derive(Debug, Drop, PartialEq, Eq)]
pub struct AuthorityInfoAccess<'a> {
    /// The access descriptions, in the order of the encoding.
    pub accessdescs: Vec<AccessDescription<'a>>,
}

/// A subjectInfoAccess: where information on the subject is found (RFC 5280, 4.2.2.2).
#[derive(Debug, Drop, PartialEq, Eq)]
pub struct SubjectInfoAccess<'a> {
    /// The access descriptions, in the order of the encoding.
    pub accessdescs: Vec<AccessDescription<'a>>,
}

impl<'a> AccessDescription<'a> {
    /// A copy that borrows the same octets as the description.
    ///
    /// # Errors
    ///
    /// Out of memory, for a copied name.
    pub fn clone(&self, alloc: Global) -> Result<AccessDescription<'a>, OutOfMemory>
        ensures { IfOk result (λ copy. access_view copy ≡ access_view self.now) }
    {
        let access_method = self.access_method.clone(alloc)?;
        let access_location = self.access_location.clone(alloc)?;
        Ok(AccessDescription {
            access_method,
            access_location,
        })
    }
}

impl<'a> Copies for AccessDescription<'a> {
    ghost use Rattle.x509_ext_names.specs.Values as values;
    ghost use Rattle.x509_ext_names.specs.View.{access_view};

    ghost Value = { values.AccessDescription };

    ghost value = { access_view };

    fn copy(&self, alloc: Global) -> Result<AccessDescription<'a>, OutOfMemory> {
        self.clone(alloc)
    }
}

impl<'a> AuthorityInfoAccess<'a> {
    /// A copy that borrows the same octets as the descriptions.
    ///
    /// # Errors
    ///
    /// Out of memory.
    pub fn clone(&self, alloc: Global) -> Result<AuthorityInfoAccess<'a>, OutOfMemory>
        ensures { IfOk result (λ copy. authority_info_view copy ≡ authority_info_view self.now) }
    {
        let accessdescs = copy_all(alloc, self.accessdescs.as_slice())?;
        Ok(AuthorityInfoAccess { accessdescs })
    }
}

impl<'a> SubjectInfoAccess<'a> {
    /// A copy that borrows the same octets as the descriptions.
    ///
    /// # Errors
    ///
    /// Out of memory.
    pub fn clone(&self, alloc: Global) -> Result<SubjectInfoAccess<'a>, OutOfMemory>
        ensures { IfOk result (λ copy. subject_info_view copy ≡ subject_info_view self.now) }
    {
        let accessdescs = copy_all(alloc, self.accessdescs.as_slice())?;
        Ok(SubjectInfoAccess { accessdescs })
    }
}

#[tactic(auto, unfolding(crate::specs::Reading::access_parts_at))]
fn access_parts<'a>(alloc: Global, i: &'a [u8]) -> X509Result<'a, AccessDescription<'a>>
    ensures read { Gives (λ r. (access_view r.1, r.0.now)) result (access_parts_at i.now) }
    ensures counted { IfOk result (λ r. HasCountedLocation r.1) }
{
    let (i, access_method) = first_oid(i)?;
    let (i, access_location) = general_name_at_front(alloc, i)?;
    Ok((
        i,
        AccessDescription {
            access_method,
            access_location,
        },
    ))
}

fn access_at_front<'a>(alloc: Global, i: &'a [u8]) -> X509Result<'a, AccessDescription<'a>>
    ensures exact { Gives (λ r. (access_view r.1, r.0.now)) result (access_at i.now) }
    ensures counted { IfOk result (λ r. HasCountedLocation r.1) }
    ensures shorter { IfOk result (λ r. length r.0.now < length i.now) }
{
    let mut count = HeaderCount::new();
    let (rest, element) = front_element(i, &mut count)?;
    let content = content_of(16, element.any)?;
    let (_, description) = access_parts(alloc, content)?;
    Ok((rest, description))
}

impl<'a> Begins<'a> for AccessDescription<'a> {
    ghost use Rattle.x509_ext_names.specs.Reading.{access_at};
    ghost use Rattle.x509_ext_names.specs.Values as values;
    ghost use Rattle.x509_ext_names.specs.View.{HasCountedLocation, access_view};

    ghost Data = { values.AccessDescription };

    ghost stands_for = { access_view };

    ghost reader = { access_at };

    ghost IsCounted = { HasCountedLocation };

    fn begin(
        alloc: Global,
        i: &'a [u8],
    ) -> Result<Option<(&'a [u8], AccessDescription<'a>)>, OutOfMemory> {
        taken(access_at_front(alloc, i))
    }
}

fn descriptions_of<'a>(
    alloc: Global,
    element: Element<'a>,
) -> Result<Vec<AccessDescription<'a>>, Refusal<X509Error>>
    ensures read { Gives (λ v. map access_view v.items) result (info_access_in (piece_of element.entry)) }
    ensures counted { IfOk result (λ v. All HasCountedLocation v.items) }
{
    let content = content_of(16, element.any)?;
    told(all(alloc, content))
}

fn authority_info_of<'a>(
    alloc: Global,
    element: Element<'a>,
) -> Result<AuthorityInfoAccess<'a>, Refusal<X509Error>>
    ensures read { Gives authority_info_view result (info_access_in (piece_of element.entry)) }
    ensures counted { IfOk result (λ v. All HasCountedLocation v.accessdescs.items) }
{
    let accessdescs = descriptions_of(alloc, element)?;
    Ok(AuthorityInfoAccess { accessdescs })
}

fn subject_info_of<'a>(
    alloc: Global,
    element: Element<'a>,
) -> Result<SubjectInfoAccess<'a>, Refusal<X509Error>>
    ensures read { Gives subject_info_view result (info_access_in (piece_of element.entry)) }
    ensures counted { IfOk result (λ v. All HasCountedLocation v.accessdescs.items) }
{
    let accessdescs = descriptions_of(alloc, element)?;
    Ok(SubjectInfoAccess { accessdescs })
}

impl<'b> DerMeaning for AuthorityInfoAccess<'b> {
    ghost der_reads = { λ i v r. grammar.InfoAccess i (authority_info_view v) r };

    ghost der_cut = { EndsWithinElement };

    ghost der_grows = { Unit {0} };

    ghost one_rest = { λ i v w r s left right. one_rest (Holds 16 (ToEnd grammar.AccessDescription)) i (authority_info_view v) (authority_info_view w) r s left right };
}

impl<'a> FromDer<'a, X509Error> for AuthorityInfoAccess<'a> {
    /// Reads one SEQUENCE of access descriptions, possibly empty, from the front of `bytes`.
    /// Returns `(rest, access)`.
    ///
    /// # Errors
    ///
    /// `Incomplete` if `bytes` ends inside the element; an `Error` if it holds anything else; out
    /// of memory.
    fn from_der(alloc: Global, bytes: &'a [u8]) -> X509Result<'a, AuthorityInfoAccess<'a>>
        ensures reads { Reads (λ given e. e ≡ told given) (Unit {0}) EndsWithinElement (λ i. i.now)
            (λ i v r. grammar.InfoAccess i (authority_info_view v) r) bytes.now result }
        ensures exact { Gives (λ r. (authority_info_view r.1, r.0.now)) result (info_access_at bytes.now) }
        ensures found { IfOk result (λ r. grammar.InfoAccess bytes.now (authority_info_view r.1) r.0.now) }
        ensures only { (v : List values.AccessDescription) (rest : List ℕ) → grammar.InfoAccess bytes.now v rest
            → ElseMemory result (λ r. (authority_info_view r.1 ≡ v) × (r.0.now ≡ rest)) }
        ensures counted { IfOk result (λ r. All HasCountedLocation r.1.accessdescs.items) }
    {
        authority_info_at_front(alloc, bytes)
    }
}

fn authority_info_at_front<'a>(
    alloc: Global,
    i: &'a [u8],
) -> X509Result<'a, AuthorityInfoAccess<'a>>
    ensures exact { Gives (λ r. (authority_info_view r.1, r.0.now)) result (info_access_at i.now) }
    ensures counted { IfOk result (λ r. All HasCountedLocation r.1.accessdescs.items) }
    ensures missing { TellsMissing i.now result }
    ensures shorter { IfOk result (λ r. length r.0.now < length i.now) }
{
    let mut count = HeaderCount::new();
    let (rest, element) = front_element(i, &mut count)?;
    match authority_info_of(alloc, element) {
        Ok(value) => Ok((rest, value)),
        Err(refusal) => Err(Refusal::within(refusal)),
    }
}

impl<'b> DerMeaning for SubjectInfoAccess<'b> {
    ghost der_reads = { λ i v r. grammar.InfoAccess i (subject_info_view v) r };

    ghost der_cut = { EndsWithinElement };

    ghost der_grows = { Unit {0} };

    ghost one_rest = { λ i v w r s left right. one_rest (Holds 16 (ToEnd grammar.AccessDescription)) i (subject_info_view v) (subject_info_view w) r s left right };
}

impl<'a> FromDer<'a, X509Error> for SubjectInfoAccess<'a> {
    /// Reads one SEQUENCE of access descriptions, possibly empty, from the front of `bytes`.
    /// Returns `(rest, access)`.
    ///
    /// # Errors
    ///
    /// `Incomplete` if `bytes` ends inside the element; an `Error` if it holds anything else; out
    /// of memory.
    fn from_der(alloc: Global, bytes: &'a [u8]) -> X509Result<'a, SubjectInfoAccess<'a>>
        ensures reads { Reads (λ given e. e ≡ told given) (Unit {0}) EndsWithinElement (λ i. i.now)
            (λ i v r. grammar.InfoAccess i (subject_info_view v) r) bytes.now result }
        ensures exact { Gives (λ r. (subject_info_view r.1, r.0.now)) result (info_access_at bytes.now) }
        ensures found { IfOk result (λ r. grammar.InfoAccess bytes.now (subject_info_view r.1) r.0.now) }
        ensures only { (v : List values.AccessDescription) (rest : List ℕ) → grammar.InfoAccess bytes.now v rest
            → ElseMemory result (λ r. (subject_info_view r.1 ≡ v) × (r.0.now ≡ rest)) }
        ensures counted { IfOk result (λ r. All HasCountedLocation r.1.accessdescs.items) }
    {
        subject_info_at_front(alloc, bytes)
    }
}

fn subject_info_at_front<'a>(alloc: Global, i: &'a [u8]) -> X509Result<'a, SubjectInfoAccess<'a>>
    ensures exact { Gives (λ r. (subject_info_view r.1, r.0.now)) result (info_access_at i.now) }
    ensures counted { IfOk result (λ r. All HasCountedLocation r.1.accessdescs.items) }
    ensures missing { TellsMissing i.now result }
    ensures shorter { IfOk result (λ r. length r.0.now < length i.now) }
{
    let mut count = HeaderCount::new();
    let (rest, element) = front_element(i, &mut count)?;
    match subject_info_of(alloc, element) {
        Ok(value) => Ok((rest, value)),
        Err(refusal) => Err(Refusal::within(refusal)),
    }
}
