//! `SubjectAlternativeName` and `IssuerAlternativeName` (RFC 5280, 4.2.1.6 and 4.2.1.7), and
//! readers of general names under a tag.

ghost use Rattle.std.specs.Prelude.{◌≡◌, ◌<◌, ℕ, List, length, All, IfOk, IfErr, IfSome};
ghost use Rattle.asn1_any.specs.CutViews.{piece_of};
ghost use Rattle.asn1_any.specs.Views.{any_of};
ghost use Rattle.asn1_traits.specs.Elements.{EndsWithinElement};
ghost use Rattle.asn1_traits.specs.Reads.{Reads};
ghost use Rattle.x509_core.specs.Answers.{Gives, ElseMemory};
ghost use Rattle.x509_core.specs.Errors.{told};
ghost use Rattle.x509_core.specs.Fronts.{TakesNoMemory, TellsMissing, one_rest};
ghost use Rattle.std.specs.Prelude.{map, option_map, Ok};
ghost use Rattle.x509_core.specs.Grammar.{Holds, ToEnd};
ghost use Rattle.x509_items.specs.Reading.{maybe_of, some_of};
ghost use Rattle.x509_ext_names.specs.Extensions as grammar;
ghost use Rattle.x509_ext_names.specs.Names.{GeneralName};
ghost use Rattle.x509_ext_names.specs.Reading.{alternative_in, alternative_at, general_name_at, many_names_at, some_names_at};
ghost use Rattle.x509_ext_names.specs.Values as values;
ghost use Rattle.x509_ext_names.specs.View.{IsCountedGeneralName, general_name_view, subject_names_view, issuer_names_view};

use crate::general_name::GeneralName;
use asn1_any::Element;
use asn1_core::{Err as Refusal, HeaderCount, OutOfMemory};
use asn1_traits::{DerMeaning, FromDer};
use std::alloc::Global;
use x509_core::{X509Error, X509Result, front_element};
use x509_items::{all, content_of, copy_all, each, optional, some, told, told_front};

/// A subjectAltName: further names of the subject (RFC 5280, 4.2.1.6).
#[derive(Debug, Drop, PartialEq, Eq)]
pub struct SubjectAlternativeName<'a> {
    /// The names, in the order of the encoding.
    pub general_names: Vec<GeneralName<'a>>,
}

/// An issuerAltName: further names of the issuer (RFC 5280, 4.2.1.7).
#[derive(Debug, Drop, PartialEq, Eq)]
pub struct IssuerAlternativeName<'a> {
    /// The names, in the order of the encoding.
    pub general_names: Vec<GeneralName<'a>>,
}

impl<'a> SubjectAlternativeName<'a> {
    /// A copy that borrows the same octets as the names.
    ///
    /// # Errors
    ///
    /// Out of memory.
    pub fn clone(&self, alloc: Global) -> Result<SubjectAlternativeName<'a>, OutOfMemory>
        ensures { IfOk result (λ copy. subject_names_view copy ≡ subject_names_view self.now) }
    {
        let general_names = copy_all(alloc, self.general_names.as_slice())?;
        Ok(SubjectAlternativeName { general_names })
    }
}

impl<'a> IssuerAlternativeName<'a> {
    /// A copy that borrows the same octets as the names.
    ///
    /// # Errors
    ///
    /// Out of memory.
    pub fn clone(&self, alloc: Global) -> Result<IssuerAlternativeName<'a>, OutOfMemory>
        ensures { IfOk result (λ copy. issuer_names_view copy ≡ issuer_names_view self.now) }
    {
        let general_names = copy_all(alloc, self.general_names.as_slice())?;
        Ok(IssuerAlternativeName { general_names })
    }
}

fn names_of<'a>(
    alloc: Global,
    element: Element<'a>,
) -> Result<Vec<GeneralName<'a>>, Refusal<X509Error>>
    ensures read { Gives (λ v. map general_name_view v.items) result (alternative_in (piece_of element.entry)) }
    ensures counted { IfOk result (λ v. All IsCountedGeneralName v.items) }
{
    let content = content_of(16, element.any)?;
    told(all(alloc, content))
}

fn subject_names_of<'a>(
    alloc: Global,
    element: Element<'a>,
) -> Result<SubjectAlternativeName<'a>, Refusal<X509Error>>
    ensures read { Gives subject_names_view result (alternative_in (piece_of element.entry)) }
    ensures counted { IfOk result (λ v. All IsCountedGeneralName v.general_names.items) }
{
    let general_names = names_of(alloc, element)?;
    Ok(SubjectAlternativeName { general_names })
}

fn issuer_names_of<'a>(
    alloc: Global,
    element: Element<'a>,
) -> Result<IssuerAlternativeName<'a>, Refusal<X509Error>>
    ensures read { Gives issuer_names_view result (alternative_in (piece_of element.entry)) }
    ensures counted { IfOk result (λ v. All IsCountedGeneralName v.general_names.items) }
{
    let general_names = names_of(alloc, element)?;
    Ok(IssuerAlternativeName { general_names })
}

// As many names as begin the content of an element of this tag number.
fn many_names<'a>(alloc: Global, tag: u32, i: &'a [u8]) -> X509Result<'a, Vec<GeneralName<'a>>>
    ensures read { Gives (λ r. (map general_name_view r.1.items, r.0.now)) result (many_names_at tag i.now) }
    ensures counted { IfOk result (λ r. All IsCountedGeneralName r.1.items) }
{
    let mut count = HeaderCount::new();
    let (rest, element) = front_element(i, &mut count)?;
    let content = content_of(tag, element.any)?;
    match each(alloc, content) {
        Ok((_, names)) => Ok((rest, names)),
        Err(e) => Err(Refusal::Failure(X509Error::from(e))),
    }
}

/// Reads the names at the front of the content of an optional element of this tag number.
pub fn next_many_names<'a>(
    alloc: Global,
    tag: u32,
    i: &'a [u8],
) -> X509Result<'a, Option<Vec<GeneralName<'a>>>>
    ensures read { Gives (λ r. (option_map (λ v. map general_name_view v.items) r.1, r.0.now)) result (Ok (maybe_of (many_names_at tag) i.now)) }
    ensures counted { IfOk result (λ r. IfSome r.1 (λ v. All IsCountedGeneralName v.items)) }
{
    optional(i, many_names(alloc, tag, i))
}

/// Reads names from the front until none begins, at least one. Returns `(rest, names)`.
///
/// # Errors
///
/// The error of the first name; out of memory.
pub fn general_names<'a>(alloc: Global, i: &'a [u8]) -> X509Result<'a, Vec<GeneralName<'a>>>
    ensures read { Gives (λ r. (map general_name_view r.1.items, r.0.now)) result (some_of general_name_at i.now) }
    ensures counted { IfOk result (λ r. All IsCountedGeneralName r.1.items) }
{
    told_front(some(alloc, i))
}

// One name or more at the front of the content of an element of this tag number.
fn some_names<'a>(alloc: Global, tag: u32, i: &'a [u8]) -> X509Result<'a, Vec<GeneralName<'a>>>
    ensures read { Gives (λ r. (map general_name_view r.1.items, r.0.now)) result (some_names_at tag i.now) }
    ensures counted { IfOk result (λ r. All IsCountedGeneralName r.1.items) }
{
    let mut count = HeaderCount::new();
    let (rest, element) = front_element(i, &mut count)?;
    let content = content_of(tag, element.any)?;
    let (_, names) = general_names(alloc, content)?;
    Ok((rest, names))
}

/// Reads at least one name at the front of the content of an optional element of this tag number.
pub fn next_some_names<'a>(
    alloc: Global,
    tag: u32,
    i: &'a [u8],
) -> X509Result<'a, Option<Vec<GeneralName<'a>>>>
    ensures read { Gives (λ r. (option_map (λ v. map general_name_view v.items) r.1, r.0.now)) result (Ok (maybe_of (some_names_at tag) i.now)) }
    ensures counted { IfOk result (λ r. IfSome r.1 (λ v. All IsCountedGeneralName v.items)) }
{
    optional(i, some_names(alloc, tag, i))
}

impl<'b> DerMeaning for SubjectAlternativeName<'b> {
    ghost der_reads = { λ i v r. grammar.AlternativeName i (subject_names_view v) r };

    ghost der_cut = { EndsWithinElement };

    ghost der_grows = { Unit {0} };

    ghost one_rest = { λ i v w r s left right. one_rest (Holds 16 (ToEnd GeneralName)) i (subject_names_view v) (subject_names_view w) r s left right };
}

impl<'a> FromDer<'a, X509Error> for SubjectAlternativeName<'a> {
    /// Reads one SEQUENCE of general names, possibly empty, from the front of `bytes`. Returns
    /// `(rest, names)`.
    ///
    /// # Errors
    ///
    /// `Incomplete` if `bytes` ends inside the element; an `Error` if it holds anything else; out
    /// of memory.
    fn from_der(alloc: Global, bytes: &'a [u8]) -> X509Result<'a, SubjectAlternativeName<'a>>
        ensures reads { Reads (λ given e. e ≡ told given) (Unit {0}) EndsWithinElement (λ i. i.now)
            (λ i v r. grammar.AlternativeName i (subject_names_view v) r) bytes.now result }
        ensures exact { Gives (λ r. (subject_names_view r.1, r.0.now)) result (alternative_at bytes.now) }
        ensures found { IfOk result (λ r. grammar.AlternativeName bytes.now (subject_names_view r.1) r.0.now) }
        ensures only { (v : List values.GeneralName) (rest : List ℕ) → grammar.AlternativeName bytes.now v rest
            → ElseMemory result (λ r. (subject_names_view r.1 ≡ v) × (r.0.now ≡ rest)) }
        ensures counted { IfOk result (λ r. All IsCountedGeneralName r.1.general_names.items) }
    {
        subject_names_at_front(alloc, bytes)
    }
}

fn subject_names_at_front<'a>(
    alloc: Global,
    i: &'a [u8],
) -> X509Result<'a, SubjectAlternativeName<'a>>
    ensures exact { Gives (λ r. (subject_names_view r.1, r.0.now)) result (alternative_at i.now) }
    ensures counted { IfOk result (λ r. All IsCountedGeneralName r.1.general_names.items) }
    ensures missing { TellsMissing i.now result }
    ensures shorter { IfOk result (λ r. length r.0.now < length i.now) }
{
    let mut count = HeaderCount::new();
    let (rest, element) = front_element(i, &mut count)?;
    match subject_names_of(alloc, element) {
        Ok(value) => Ok((rest, value)),
        Err(refusal) => Err(Refusal::within(refusal)),
    }
}

impl<'b> DerMeaning for IssuerAlternativeName<'b> {
    ghost der_reads = { λ i v r. grammar.AlternativeName i (issuer_names_view v) r };

    ghost der_cut = { EndsWithinElement };

    ghost der_grows = { Unit {0} };

    ghost one_rest = { λ i v w r s left right. one_rest (Holds 16 (ToEnd GeneralName)) i (issuer_names_view v) (issuer_names_view w) r s left right };
}

impl<'a> FromDer<'a, X509Error> for IssuerAlternativeName<'a> {
    /// Reads one SEQUENCE of general names, possibly empty, from the front of `bytes`. Returns
    /// `(rest, names)`.
    ///
    /// # Errors
    ///
    /// `Incomplete` if `bytes` ends inside the element; an `Error` if it holds anything else; out
    /// of memory.
    fn from_der(alloc: Global, bytes: &'a [u8]) -> X509Result<'a, IssuerAlternativeName<'a>>
        ensures reads { Reads (λ given e. e ≡ told given) (Unit {0}) EndsWithinElement (λ i. i.now)
            (λ i v r. grammar.AlternativeName i (issuer_names_view v) r) bytes.now result }
        ensures exact { Gives (λ r. (issuer_names_view r.1, r.0.now)) result (alternative_at bytes.now) }
        ensures found { IfOk result (λ r. grammar.AlternativeName bytes.now (issuer_names_view r.1) r.0.now) }
        ensures only { (v : List values.GeneralName) (rest : List ℕ) → grammar.AlternativeName bytes.now v rest
            → ElseMemory result (λ r. (issuer_names_view r.1 ≡ v) × (r.0.now ≡ rest)) }
        ensures counted { IfOk result (λ r. All IsCountedGeneralName r.1.general_names.items) }
    {
        issuer_names_at_front(alloc, bytes)
    }
}

fn issuer_names_at_front<'a>(
    alloc: Global,
    i: &'a [u8],
) -> X509Result<'a, IssuerAlternativeName<'a>>
    ensures exact { Gives (λ r. (issuer_names_view r.1, r.0.now)) result (alternative_at i.now) }
    ensures counted { IfOk result (λ r. All IsCountedGeneralName r.1.general_names.items) }
    ensures missing { TellsMissing i.now result }
    ensures shorter { IfOk result (λ r. length r.0.now < length i.now) }
{
    let mut count = HeaderCount::new();
    let (rest, element) = front_element(i, &mut count)?;
    match issuer_names_of(alloc, element) {
        Ok(value) => Ok((rest, value)),
        Err(refusal) => Err(Refusal::within(refusal)),
    }
}
