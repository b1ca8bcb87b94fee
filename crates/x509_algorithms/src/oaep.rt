//! `RsaAesOaepParams`, parameters of RSAES-OAEP (RFC 8017, A.2.1).

ghost use Rattle.std.specs.Prelude.{◌≡◌, ◌<◌, ℕ, List, length, None, IfOk, IfErr, IsOkAnd, option_map};
ghost use Rattle.asn1_any.specs.CutViews.{piece_of};
ghost use Rattle.asn1_any.specs.Views.{any_of};
ghost use Rattle.asn1_traits.specs.Elements.{EndsWithinElement};
ghost use Rattle.asn1_traits.specs.Reads.{Reads};
ghost use Rattle.x509_core.specs.Answers.{Gives, ElseMemory};
ghost use Rattle.x509_core.specs.Errors.{told};
ghost use Rattle.x509_core.specs.Fronts.{TellsMissing, one_rest};
ghost use Rattle.x509_names.specs.View.{algorithm_view};
ghost use Rattle.x509_algorithms.specs.Answers.{OkElseMemory, Returns, IsTagError, HasPartBelow, WantsFor, WantsBelow};
ghost use Rattle.x509_algorithms.specs.Parameters as grammar;
ghost use Rattle.x509_algorithms.specs.Parameters.{hash_of, IsMaskGen, source_of};
ghost use Rattle.x509_algorithms.specs.Reading.{parameters_of, oaep_parts_at, oaep_in, oaep_at};
ghost use Rattle.x509_algorithms.specs.Values as values;
ghost use Rattle.x509_algorithms.specs.View.{IsCountedOaep, oaep_view, mask_view};

use crate::mask::{MaskGenAlgorithm, hash_identifier, mask_of};
use crate::tagged::next_algorithm;
use asn1_any::{Any, Element};
use asn1_core::{Err as Refusal, Error, HeaderCount, Tag};
use asn1_oid::Oid;
use asn1_traits::{DerMeaning, FromDer};
use std::alloc::Global;
use x509_core::{X509Error, X509Result, front_element};
use x509_items::content_of;
use x509_names::AlgorithmIdentifier;

/// id-pSpecified, 1.2.840.113549.1.1.9.
const P_SPECIFIED: &[u8] = b"\x2a\x86\x48\x86\xf7\x0d\x01\x01\x09";

/// Parameters of RSAES-OAEP. Absent fields have the defaults of RFC 8017, A.2.1.
#[derive(Debug, Drop, PartialEq, Eq)]
pub struct RsaAesOaepParams<'a> {
    hash_alg: Option<AlgorithmIdentifier<'a>>,
    mask_gen_alg: Option<AlgorithmIdentifier<'a>>,
    p_source_alg: Option<AlgorithmIdentifier<'a>>,
}

impl<'a> RsaAesOaepParams<'a> {
    /// The default source of the label: id-pSpecified without parameters.
    pub fn empty() -> AlgorithmIdentifier<'static>
        ensures { algorithm_view result ≡ source_of None }
    {
        AlgorithmIdentifier::new(Oid::new(P_SPECIFIED), None)
    }

    /// Reads the parameters in an element of tag number 16, of any class and constructed bit.
    ///
    /// # Errors
    ///
    /// `OutOfMemory`, or the error of an element or an algorithm.
    pub fn try_from(alloc: Global, any: Any<'a>) -> Result<RsaAesOaepParams<'a>, X509Error>
        ensures exact { Returns oaep_view result (parameters_of oaep_parts_at (any_of any.entry)) }
        ensures tag { IfErr result (IsTagError (any_of any.entry)) }
        ensures counted { IfOk result IsCountedOaep }
        ensures memory { IfErr result (WantsBelow 3 (any_of any.entry)) }
        ensures found { IfOk result (λ p. grammar.OaepOf (any_of any.entry) (oaep_view p)) }
        ensures only { (v : values.RsaAesOaepParams) → grammar.OaepOf (any_of any.entry) v
            → OkElseMemory result (λ p. oaep_view p ≡ v) }
    {
        if any.tag().0 != 16 {
            return Err(X509Error::Der(Error::unexpected_tag(Some(Tag(16)), any.tag())));
        }
        match held(alloc, any.content) {
            Ok((_, value)) => Ok(value),
            Err(refusal) => Err(X509Error::from(refusal)),
        }
    }

    /// The hash algorithm, or `None` for the default.
    pub fn hash_algorithm(&self) -> Option<&AlgorithmIdentifier<'a>>
        ensures { option_map (λ a. a.now) result ≡ self.now.hash_alg }
    {
        self.hash_alg.as_ref()
    }

    /// The identifier of the hash algorithm, SHA-1 by default.
    pub fn hash_algorithm_oid(&self) -> Oid<'_>
        ensures { result ≡ hash_of (oaep_view self.now).hash_alg }
    {
        hash_identifier(&self.hash_alg)
    }

    /// The algorithm of the mask generation function, or `None` for the default.
    pub fn mask_gen_algorithm_raw(&self) -> Option<&AlgorithmIdentifier<'a>>
        ensures { option_map (λ a. a.now) result ≡ self.now.mask_gen_alg }
    {
        self.mask_gen_alg.as_ref()
    }

    /// The mask generation function and its hash, MGF1 with SHA-1 by default.
    ///
    /// # Errors
    ///
    /// `InvalidAlgorithmIdentifier` if the function has no parameters, or their content begins with
    /// no OBJECT IDENTIFIER.
    pub fn mask_gen_algorithm(&self) -> Result<MaskGenAlgorithm<'_, 'a>, X509Error>
        ensures found { IfOk result (λ m. IsMaskGen (oaep_view self.now).mask_gen_alg (mask_view m)) }
        ensures only { (v : values.MaskGenAlgorithm) → IsMaskGen (oaep_view self.now).mask_gen_alg v
            → IsOkAnd result (λ m. mask_view m ≡ v) }
        ensures refused { IfErr result (λ e. e ≡ X509Error.InvalidAlgorithmIdentifier) }
    {
        mask_of(&self.mask_gen_alg)
    }

    /// The source of the label, `empty` by default.
    pub fn p_source_alg(&self) -> AlgorithmIdentifier<'_>
        ensures { algorithm_view result ≡ source_of (oaep_view self.now).p_source_alg }
    {
        match &self.p_source_alg {
            Some(source) => {
                AlgorithmIdentifier::new(Oid::new(source.oid().as_bytes()), source.parameters)
            }
            None => RsaAesOaepParams::empty(),
        }
    }
}

#[tactic(auto, unfolding(crate::specs::Reading::oaep_parts_at))]
fn parts<'a>(alloc: Global, i: &'a [u8]) -> X509Result<'a, RsaAesOaepParams<'a>>
    ensures read { Gives (λ r. (oaep_view r.1, r.0.now)) result (oaep_parts_at i.now) }
    ensures counted { IfOk result (λ r. IsCountedOaep r.1) }
    ensures memory { IfErr result (WantsFor (HasPartBelow 3 i.now)) }
{
    let (i, hash_alg) = next_algorithm(alloc, 0, i)?;
    let (i, mask_gen_alg) = next_algorithm(alloc, 1, i)?;
    let (i, p_source_alg) = next_algorithm(alloc, 2, i)?;
    Ok((
        i,
        RsaAesOaepParams {
            hash_alg,
            mask_gen_alg,
            p_source_alg,
        },
    ))
}

/// Reads the parameters from the front of a content. Returns `(rest, parameters)`.
fn held<'a>(alloc: Global, content: &'a [u8]) -> X509Result<'a, RsaAesOaepParams<'a>>
    ensures exact { Gives (λ r. (oaep_view r.1, r.0.now)) result (oaep_parts_at content.now) }
    ensures counted { IfOk result (λ r. IsCountedOaep r.1) }
    ensures memory { IfErr result (WantsFor (HasPartBelow 3 content.now)) }
    ensures found { IfOk result (λ r. grammar.OaepParts content.now (oaep_view r.1) r.0.now) }
    ensures only { (v : values.RsaAesOaepParams) (left : List ℕ) → grammar.OaepParts content.now v left
        → ElseMemory result (λ r. (oaep_view r.1 ≡ v) × (r.0.now ≡ left)) }
{
    parts(alloc, content)
}

/// Reads the parameters in an element of tag number 16.
fn oaep_of<'a>(alloc: Global, any: Any<'a>) -> Result<RsaAesOaepParams<'a>, Refusal<X509Error>>
    ensures read { Gives oaep_view result (parameters_of oaep_parts_at (any_of any.entry)) }
    ensures counted { IfOk result IsCountedOaep }
{
    let content = content_of(16, any)?;
    let (_, value) = parts(alloc, content)?;
    Ok(value)
}

fn value_of<'a>(
    alloc: Global,
    element: Element<'a>,
) -> Result<RsaAesOaepParams<'a>, Refusal<X509Error>>
    ensures read { Gives oaep_view result (oaep_in (piece_of element.entry)) }
    ensures counted { IfOk result IsCountedOaep }
{
    if !element.any.header.is_constructed() {
        return Err(Refusal::Error(X509Error::Der(Error::ConstructExpected)));
    }
    oaep_of(alloc, element.any)
}

impl<'b> DerMeaning for RsaAesOaepParams<'b> {
    ghost der_reads = { λ i v r. grammar.RsaAesOaepParams i (oaep_view v) r };

    ghost der_cut = { EndsWithinElement };

    ghost der_grows = { Unit {0} };

    ghost one_rest = { λ i v w r s left right. one_rest (grammar.IsParameters grammar.OaepParts) i (oaep_view v) (oaep_view w) r s left right };
}

impl<'a> FromDer<'a, X509Error> for RsaAesOaepParams<'a> {
    /// Reads parameters from the front: a constructed element of tag number 16, of any class.
    /// Returns `(rest, parameters)`.
    ///
    /// # Errors
    ///
    /// `Incomplete` if the octets end inside the element; else the error of an element or an
    /// algorithm; out of memory.
    fn from_der(alloc: Global, bytes: &'a [u8]) -> X509Result<'a, RsaAesOaepParams<'a>>
        ensures reads { Reads (λ given e. e ≡ told given) (Unit {0}) EndsWithinElement (λ i. i.now)
            (λ i v r. grammar.RsaAesOaepParams i (oaep_view v) r) bytes.now result }
        ensures exact { Gives (λ r. (oaep_view r.1, r.0.now)) result (oaep_at bytes.now) }
        ensures found { IfOk result (λ r. grammar.RsaAesOaepParams bytes.now (oaep_view r.1) r.0.now) }
        ensures only { (v : values.RsaAesOaepParams) (rest : List ℕ) → grammar.RsaAesOaepParams bytes.now v rest
            → ElseMemory result (λ r. (oaep_view r.1 ≡ v) × (r.0.now ≡ rest)) }
        ensures counted { IfOk result (λ r. IsCountedOaep r.1) }
    {
        value_at_front(alloc, bytes)
    }
}

fn value_at_front<'a>(alloc: Global, i: &'a [u8]) -> X509Result<'a, RsaAesOaepParams<'a>>
    ensures exact { Gives (λ r. (oaep_view r.1, r.0.now)) result (oaep_at i.now) }
    ensures counted { IfOk result (λ r. IsCountedOaep r.1) }
    ensures missing { TellsMissing i.now result }
    ensures shorter { IfOk result (λ r. length r.0.now < length i.now) }
{
    let mut count = HeaderCount::new();
    let (rest, element) = front_element(i, &mut count)?;
    match value_of(alloc, element) {
        Ok(value) => Ok((rest, value)),
        Err(refusal) => Err(Refusal::within(refusal)),
    }
}
