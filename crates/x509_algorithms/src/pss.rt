//! `RsaSsaPssParams`, parameters of RSASSA-PSS (RFC 8017, A.2.3).

ghost use Rattle.std.specs.Prelude.{◌≡◌, ◌<◌, ℕ, List, length, IfOk, IfErr, IsOkAnd, option_map};
ghost use Rattle.asn1_any.specs.CutViews.{piece_of};
ghost use Rattle.asn1_any.specs.Views.{any_of};
ghost use Rattle.asn1_traits.specs.Elements.{EndsWithinElement};
ghost use Rattle.asn1_traits.specs.Reads.{Reads};
ghost use Rattle.x509_core.specs.Answers.{Gives, ElseMemory};
ghost use Rattle.x509_core.specs.Errors.{told};
ghost use Rattle.x509_core.specs.Fronts.{TellsMissing, one_rest};
ghost use Rattle.x509_names.specs.View.{algorithm_view};
ghost use Rattle.x509_algorithms.specs.Answers.{OkElseMemory, Returns, IsTagError, HasPartBelow, WantsFor, WantsBelow};
ghost use Rattle.x509_algorithms.specs.Parameters as grammar;
ghost use Rattle.x509_algorithms.specs.Parameters.{hash_of, IsMaskGen, salt_length_of, trailer_field_of};
ghost use Rattle.x509_algorithms.specs.Reading.{parameters_of, pss_parts_at, pss_in, pss_at};
ghost use Rattle.x509_algorithms.specs.Values as values;
ghost use Rattle.x509_algorithms.specs.View.{IsCountedPss, pss_view, mask_view};

use crate::mask::{MaskGenAlgorithm, hash_identifier, mask_of};
use crate::tagged::{next_algorithm, next_number};
use asn1_any::{Any, Element};
use asn1_core::{Err as Refusal, Error, HeaderCount, Tag};
use asn1_oid::Oid;
use asn1_traits::{DerMeaning, FromDer};
use std::alloc::Global;
use x509_core::{X509Error, X509Result, front_element};
use x509_items::content_of;
use x509_names::AlgorithmIdentifier;

/// Parameters of RSASSA-PSS. Absent fields have the defaults of RFC 8017, A.2.3.
#[derive(Debug, Drop, PartialEq, Eq)]
pub struct RsaSsaPssParams<'a> {
    hash_alg: Option<AlgorithmIdentifier<'a>>,
    mask_gen_algorithm: Option<AlgorithmIdentifier<'a>>,
    salt_length: Option<u32>,
    trailer_field: Option<u32>,
}

impl<'a> RsaSsaPssParams<'a> {
    /// Reads the parameters in an element of tag number 16, of any class and constructed bit.
    ///
    /// # Errors
    ///
    /// `OutOfMemory`, or the error of an element or an algorithm.
    pub fn try_from(alloc: Global, any: Any<'a>) -> Result<RsaSsaPssParams<'a>, X509Error>
        ensures exact { Returns pss_view result (parameters_of pss_parts_at (any_of any.entry)) }
        ensures tag { IfErr result (IsTagError (any_of any.entry)) }
        ensures counted { IfOk result IsCountedPss }
        ensures memory { IfErr result (WantsBelow 2 (any_of any.entry)) }
        ensures found { IfOk result (λ p. grammar.PssOf (any_of any.entry) (pss_view p)) }
        ensures only { (v : values.RsaSsaPssParams) → grammar.PssOf (any_of any.entry) v
            → OkElseMemory result (λ p. pss_view p ≡ v) }
    {
        if any.tag().0 != 16 {
            return Err(X509Error::Der(Error::unexpected_tag(Some(Tag(16)), any.tag())));
        }
        match held(alloc, any.content) {
            Ok((_, value)) => Ok(value),
            Err(refusal) => Err(X509Error::from(refusal)),
        }
    }

    /// The hash algorithm, or `None` for the default.
    pub fn hash_algorithm(&self) -> Option<&AlgorithmIdentifier<'a>>
        ensures { option_map (λ a. a.now) result ≡ self.now.hash_alg }
    {
        self.hash_alg.as_ref()
    }

    /// The identifier of the hash algorithm, SHA-1 by default.
    pub fn hash_algorithm_oid(&self) -> Oid<'_>
        ensures { result ≡ hash_of (pss_view self.now).hash_alg }
    {
        hash_identifier(&self.hash_alg)
    }

    /// The algorithm of the mask generation function, or `None` for the default.
    pub fn mask_gen_algorithm_raw(&self) -> Option<&AlgorithmIdentifier<'a>>
        ensures { option_map (λ a. a.now) result ≡ self.now.mask_gen_algorithm }
    {
        self.mask_gen_algorithm.as_ref()
    }

    /// The mask generation function and its hash, MGF1 with SHA-1 by default.
    ///
    /// # Errors
    ///
    /// `InvalidAlgorithmIdentifier` if the function has no parameters, or their content begins with
    /// no OBJECT IDENTIFIER.
    pub fn mask_gen_algorithm(&self) -> Result<MaskGenAlgorithm<'_, 'a>, X509Error>
        ensures found { IfOk result (λ m. IsMaskGen (pss_view self.now).mask_gen_algorithm (mask_view m)) }
        ensures only { (v : values.MaskGenAlgorithm) → IsMaskGen (pss_view self.now).mask_gen_algorithm v
            → IsOkAnd result (λ m. mask_view m ≡ v) }
        ensures refused { IfErr result (λ e. e ≡ X509Error.InvalidAlgorithmIdentifier) }
    {
        mask_of(&self.mask_gen_algorithm)
    }

    /// The length of the salt in octets, 20 by default.
    pub fn salt_length(&self) -> u32
        ensures { result ≡ salt_length_of (pss_view self.now) }
    {
        self.salt_length.unwrap_or(20)
    }

    /// The trailer field, 1 by default.
    pub fn trailer_field(&self) -> u32
        ensures { result ≡ trailer_field_of (pss_view self.now) }
    {
        self.trailer_field.unwrap_or(1)
    }
}

#[tactic(auto, unfolding(crate::specs::Reading::pss_parts_at))]
fn parts<'a>(alloc: Global, i: &'a [u8]) -> X509Result<'a, RsaSsaPssParams<'a>>
    ensures read { Gives (λ r. (pss_view r.1, r.0.now)) result (pss_parts_at i.now) }
    ensures counted { IfOk result (λ r. IsCountedPss r.1) }
    ensures memory { IfErr result (WantsFor (HasPartBelow 2 i.now)) }
{
    let (i, hash_alg) = next_algorithm(alloc, 0, i)?;
    let (i, mask_gen_algorithm) = next_algorithm(alloc, 1, i)?;
    let (i, salt_length) = next_number(alloc, 2, i)?;
    let (i, trailer_field) = next_number(alloc, 3, i)?;
    Ok((
        i,
        RsaSsaPssParams {
            hash_alg,
            mask_gen_algorithm,
            salt_length,
            trailer_field,
        },
    ))
}

/// Reads the parameters from the front of a content. Returns `(rest, parameters)`.
fn held<'a>(alloc: Global, content: &'a [u8]) -> X509Result<'a, RsaSsaPssParams<'a>>
    ensures exact { Gives (λ r. (pss_view r.1, r.0.now)) result (pss_parts_at content.now) }
    ensures counted { IfOk result (λ r. IsCountedPss r.1) }
    ensures memory { IfErr result (WantsFor (HasPartBelow 2 content.now)) }
    ensures found { IfOk result (λ r. grammar.PssParts content.now (pss_view r.1) r.0.now) }
    ensures only { (v : values.RsaSsaPssParams) (left : List ℕ) → grammar.PssParts content.now v left
        → ElseMemory result (λ r. (pss_view r.1 ≡ v) × (r.0.now ≡ left)) }
{
    parts(alloc, content)
}

/// Reads the parameters in an element of tag number 16.
fn pss_of<'a>(alloc: Global, any: Any<'a>) -> Result<RsaSsaPssParams<'a>, Refusal<X509Error>>
    ensures read { Gives pss_view result (parameters_of pss_parts_at (any_of any.entry)) }
    ensures counted { IfOk result IsCountedPss }
{
    let content = content_of(16, any)?;
    let (_, value) = parts(alloc, content)?;
    Ok(value)
}

fn value_of<'a>(
    alloc: Global,
    element: Element<'a>,
) -> Result<RsaSsaPssParams<'a>, Refusal<X509Error>>
    ensures read { Gives pss_view result (pss_in (piece_of element.entry)) }
    ensures counted { IfOk result IsCountedPss }
{
    if !element.any.header.is_constructed() {
        return Err(Refusal::Error(X509Error::Der(Error::ConstructExpected)));
    }
    pss_of(alloc, element.any)
}

impl<'b> DerMeaning for RsaSsaPssParams<'b> {
    ghost der_reads = { λ i v r. grammar.RsaSsaPssParams i (pss_view v) r };

    ghost der_cut = { EndsWithinElement };

    ghost der_grows = { Unit {0} };

    ghost one_rest = { λ i v w r s left right. one_rest (grammar.IsParameters grammar.PssParts) i (pss_view v) (pss_view w) r s left right };
}

impl<'a> FromDer<'a, X509Error> for RsaSsaPssParams<'a> {
    /// Reads parameters from the front: a constructed element of tag number 16, of any class.
    /// Returns `(rest, parameters)`.
    ///
    /// # Errors
    ///
    /// `Incomplete` if the octets end inside the element; else the error of an element or an
    /// algorithm; out of memory.
    fn from_der(alloc: Global, bytes: &'a [u8]) -> X509Result<'a, RsaSsaPssParams<'a>>
        ensures reads { Reads (λ given e. e ≡ told given) (Unit {0}) EndsWithinElement (λ i. i.now)
            (λ i v r. grammar.RsaSsaPssParams i (pss_view v) r) bytes.now result }
        ensures exact { Gives (λ r. (pss_view r.1, r.0.now)) result (pss_at bytes.now) }
        ensures found { IfOk result (λ r. grammar.RsaSsaPssParams bytes.now (pss_view r.1) r.0.now) }
        ensures only { (v : values.RsaSsaPssParams) (rest : List ℕ) → grammar.RsaSsaPssParams bytes.now v rest
            → ElseMemory result (λ r. (pss_view r.1 ≡ v) × (r.0.now ≡ rest)) }
        ensures counted { IfOk result (λ r. IsCountedPss r.1) }
    {
        value_at_front(alloc, bytes)
    }
}

fn value_at_front<'a>(alloc: Global, i: &'a [u8]) -> X509Result<'a, RsaSsaPssParams<'a>>
    ensures exact { Gives (λ r. (pss_view r.1, r.0.now)) result (pss_at i.now) }
    ensures counted { IfOk result (λ r. IsCountedPss r.1) }
    ensures missing { TellsMissing i.now result }
    ensures shorter { IfOk result (λ r. length r.0.now < length i.now) }
{
    let mut count = HeaderCount::new();
    let (rest, element) = front_element(i, &mut count)?;
    match value_of(alloc, element) {
        Ok(value) => Ok((rest, value)),
        Err(refusal) => Err(Refusal::within(refusal)),
    }
}
