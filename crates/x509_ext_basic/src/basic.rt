//! `BasicConstraints` (RFC 5280, 4.2.1.9).

ghost use Rattle.std.specs.Prelude.{◌≡◌, ◌≢◌, ◌<◌, ◌∷◌, ℕ, List, [], length, option_map, Ok, Err, IfOk, IfErr};
ghost use Rattle.asn1_any.specs.Views.{any_of};
ghost use Rattle.asn1_core.specs.Elements as elements;
ghost use Rattle.asn1_core.specs.declared.error.Error.TheVariants as der;
ghost use Rattle.asn1_core.specs.declared.outcome.Err.TheVariants as refusals;
ghost use Rattle.asn1_traits.specs.Elements.{EndsWithinElement};
ghost use Rattle.asn1_traits.specs.Reads.{Reads};
ghost use Rattle.x509_core.specs.Answers.{Gives, ElseMemory};
ghost use Rattle.x509_core.specs.Errors.{told};
ghost use Rattle.x509_core.specs.Fronts.{TakesNoMemory, TellsMissing, one_rest};
ghost use Rattle.x509_core.specs.Grammar.{NoneBegins, One};
ghost use Rattle.x509_core.specs.Leaves.{IsAny};
ghost use Rattle.x509_core.specs.Reading.{next};
ghost use Rattle.x509_core.specs.declared.error.X509Error.TheVariants as errors;
ghost use Rattle.x509_ext_basic.specs.Leaves as grammar;
ghost use Rattle.x509_ext_basic.specs.Leaves.{IsBasicConstraints};
ghost use Rattle.x509_ext_basic.specs.Reading.{sequence_in, flag_at, limit_in, behind_flag, parts_in, element_constraints, constraints_at};
ghost use Rattle.x509_ext_basic.specs.Refusals.{ToldAs, fault_in, fault_before};
ghost use Rattle.x509_ext_basic.specs.Values as values;
ghost use Rattle.x509_ext_basic.specs.View.{basic_constraints_view};

use asn1_any::Any;
use asn1_core::{Err as Refusal, Error, HeaderCount};
use asn1_traits::{DerMeaning, FromDer};
use std::alloc::Global;
use x509_core::{X509Error, X509Result, front_element};
use x509_ext_flags::number_of;

/// A basicConstraints: whether the subject is an authority, and how long paths below it may be (RFC
/// 5280, 4.2.1.9).
#[derive(Clone, Debug, Drop, PartialEq, Eq)]
pub struct BasicConstraints {
    /// `cA`: whether the subject may issue certificates.
    pub ca: bool,
    /// `pathLenConstraint`: the most certificates that aren't self-issued between this one and the
    /// last; `None` for no limit.
    pub path_len_constraint: Option<u32>,
}

// The content of a constructed element of tag number 16.
fn sequence_of<'a>(any: Any<'a>) -> Result<&'a [u8], Refusal<X509Error>>
    ensures read { Gives (λ c. c.now) result (sequence_in (any_of any.entry)) }
    ensures memory { IfErr result TakesNoMemory }
{
    if any.tag().0 == 16 && any.header.is_constructed() {
        return Ok(any.content);
    }
    Err(Refusal::Error(X509Error::Der(Error::InvalidTag)))
}

// A BOOLEAN of DER with its header, and the octets after it.
#[tactic(auto, unfolding(crate::specs::Reading::flag_at))]
fn flag_at<'a>(i: &'a [u8]) -> Option<(bool, &'a [u8])>
    ensures { option_map (λ f. (f.0, f.1.now)) result ≡ flag_at i.now }
{
    match i {
        [tag, size, octet, rest @ ..] => {
            if *tag != 1 || *size != 1 {
                return None;
            }
            match *octet {
                0x00 => Some((false, rest)),
                0xff => Some((true, rest)),
                _ => None,
            }
        }
        _ => None,
    }
}

// An INTEGER or ENUMERATED of DER with its header, to the end.
#[tactic(auto, unfolding(crate::specs::Reading::limit_in))]
fn limit_of(i: &[u8]) -> Option<u32>
    ensures { result ≡ limit_in i.now }
{
    match i {
        [tag, size, content @ ..] => {
            if (*tag == 2 || *tag == 10) && usize::from(*size) == content.len() {
                number_of(content)
            } else {
                None
            }
        }
        _ => None,
    }
}

#[tactic(auto, unfolding(crate::specs::Reading::behind_flag))]
fn behind_flag(ca: bool, i: &[u8]) -> Option<BasicConstraints>
    ensures { option_map basic_constraints_view result ≡ behind_flag ca i.now }
{
    if i.is_empty() {
        return Some(BasicConstraints {
            ca,
            path_len_constraint: None,
        });
    }
    let limit = limit_of(i)?;
    Some(BasicConstraints {
        ca,
        path_len_constraint: Some(limit),
    })
}

#[tactic(auto, unfolding(crate::specs::Reading::parts_in))]
fn parts_of(i: &[u8]) -> Option<BasicConstraints>
    ensures { option_map basic_constraints_view result ≡ parts_in i.now }
{
    match flag_at(i) {
        Some((ca, rest)) => behind_flag(ca, rest),
        None => behind_flag(false, i),
    }
}

// Why a content is refused: by its tag if it is one element, else by its length.
fn fault_of(content: &[u8]) -> Error
    ensures value { result ≡ fault_in content.now }
    ensures memory { result ≢ der.OutOfMemory }
{
    let mut count = HeaderCount::new();
    match front_element(content, &mut count) {
        Ok((rest, _)) => {
            if rest.is_empty() {
                Error::InvalidTag
            } else {
                Error::InvalidLength
            }
        }
        Err(_) => Error::InvalidLength,
    }
}

fn constraints_of(any: Any<'_>) -> Result<BasicConstraints, Refusal<X509Error>>
    ensures read { Gives basic_constraints_view result (element_constraints (any_of any.entry)) }
    ensures memory { IfErr result TakesNoMemory }
    ensures refused { IfErr result (ToldAs fault_in (sequence_in (any_of any.entry))) }
{
    let content = sequence_of(any)?;
    match parts_of(content) {
        Some(constraints) => Ok(constraints),
        None => Err(Refusal::Error(X509Error::Der(fault_of(content)))),
    }
}

impl DerMeaning for BasicConstraints {
    ghost der_reads = { λ i v r. grammar.BasicConstraints i (basic_constraints_view v) r };

    ghost der_cut = { EndsWithinElement };

    ghost one_rest = { λ i v w r s left right. one_rest IsBasicConstraints i (basic_constraints_view v) (basic_constraints_view w) r s left right };
}

impl<'a> FromDer<'a, X509Error> for BasicConstraints {
    /// Reads one basicConstraints from the front of `bytes`. Returns `(rest, constraints)`. It is a
    /// constructed element of tag number 16 that holds nothing, a BOOLEAN, a number below 2^32
    /// (INTEGER or ENUMERATED), or both in this order, each in DER (X.690, 8 and 10.1).
    ///
    /// # Errors
    ///
    /// `Incomplete` exactly if `bytes` ends inside the element. If such an element holds something
    /// else: `InvalidTag` if that is one element, `InvalidLength` if it is several, or octets that
    /// begin none. Else another `Error` of an element.
    fn from_der(_alloc: Global, bytes: &'a [u8]) -> X509Result<'a, BasicConstraints>
        ensures reads { Reads (λ given e. e ≡ told given) ⊥ EndsWithinElement (λ i. i.now)
            (λ i v r. grammar.BasicConstraints i (basic_constraints_view v) r) bytes.now result }
        ensures exact { Gives (λ r. (basic_constraints_view r.1, r.0.now)) result (constraints_at bytes.now) }
        ensures memory { IfErr result TakesNoMemory }
        ensures tag { (content rest : List ℕ) (e : elements.Element) → grammar.AnySequence bytes.now content rest → grammar.IsNoConstraints content
            → One IsAny content e [] → result ≡ Err (refusals.Error (errors.Der der.InvalidTag)) }
        ensures length { (content rest : List ℕ) (e : elements.Element) (x : ℕ) (left : List ℕ) → grammar.AnySequence bytes.now content rest
            → grammar.IsNoConstraints content → One IsAny content e (x ∷ left) → result ≡ Err (refusals.Error (errors.Der der.InvalidLength)) }
        ensures none { (content rest : List ℕ) → grammar.AnySequence bytes.now content rest → grammar.IsNoConstraints content
            → NoneBegins (One IsAny) content → result ≡ Err (refusals.Error (errors.Der der.InvalidLength)) }
        ensures found { IfOk result (λ r. grammar.BasicConstraints bytes.now (basic_constraints_view r.1) r.0.now) }
        ensures only { (v : values.BasicConstraints) (rest : List ℕ) → grammar.BasicConstraints bytes.now v rest
            → ElseMemory result (λ r. (basic_constraints_view r.1 ≡ v) × (r.0.now ≡ rest)) }
    {
        constraints_at_front(bytes)
    }
}

fn constraints_at_front<'a>(i: &'a [u8]) -> X509Result<'a, BasicConstraints>
    ensures exact { Gives (λ r. (basic_constraints_view r.1, r.0.now)) result (constraints_at i.now) }
    ensures missing { TellsMissing i.now result }
    ensures shorter { IfOk result (λ r. length r.0.now < length i.now) }
    ensures memory { IfErr result TakesNoMemory }
    ensures refused { IfErr result (ToldAs fault_before (next (λ p. sequence_in p.element) i.now)) }
{
    let mut count = HeaderCount::new();
    let (rest, element) = front_element(i, &mut count)?;
    match constraints_of(element.any) {
        Ok(value) => Ok((rest, value)),
        Err(refusal) => Err(Refusal::within(refusal)),
    }
}
