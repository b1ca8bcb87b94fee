//! `EcdsaSigValue`, the value of an ECDSA signature (RFC 3279, 2.2.3).

ghost use Rattle.std.specs.Prelude.{◌≡◌, ◌<◌, ℕ, List, length, IfOk, IfErr};
ghost use Rattle.asn1_any.specs.CutViews.{piece_of};
ghost use Rattle.asn1_any.specs.Views.{any_of};
ghost use Rattle.asn1_traits.specs.Elements.{EndsWithinElement};
ghost use Rattle.asn1_traits.specs.Reads.{Reads};
ghost use Rattle.x509_core.specs.Answers.{Gives, ElseMemory};
ghost use Rattle.x509_core.specs.Errors.{told};
ghost use Rattle.x509_core.specs.Fronts.{TakesNoMemory, TellsMissing, one_rest};
ghost use Rattle.x509_items.specs.Grammar.{HoldsSequence};
ghost use Rattle.x509_names.specs.Reading.{integer_at, integer_in};
ghost use Rattle.x509_algorithms.specs.Signatures as grammar;
ghost use Rattle.x509_algorithms.specs.Reading.{ecdsa_parts_at, ecdsa_in, ecdsa_at};
ghost use Rattle.x509_algorithms.specs.Values as values;
ghost use Rattle.x509_algorithms.specs.View.{ecdsa_view};

use asn1_any::{Any, Element};
use asn1_core::{Err as Refusal, HeaderCount};
use asn1_traits::{DerMeaning, FromDer, check_shortest};
use asn1_values::Integer;
use std::alloc::Global;
use x509_core::{X509Error, X509Result, front_element, leaf_of};
use x509_items::sequence_content;

/// The value of an ECDSA signature: two INTEGERs (RFC 3279, 2.2.3).
#[derive(Debug, Drop, PartialEq, Eq)]
pub struct EcdsaSigValue<'a> {
    /// The number r.
    pub r: Integer<'a>,
    /// The number s.
    pub s: Integer<'a>,
}

fn integer_of<'a>(any: Any<'a>) -> Result<Integer<'a>, Refusal<X509Error>>
    ensures { Gives (λ n. n.content.now) result (integer_in (any_of any.entry)) }
{
    let content = leaf_of(2, any)?;
    match check_shortest(content) {
        Ok(()) => Ok(Integer { content }),
        Err(e) => Err(Refusal::Error(X509Error::Der(e))),
    }
}

fn integer_at_front<'a>(i: &'a [u8]) -> X509Result<'a, Integer<'a>>
    ensures { Gives (λ r. (r.1.content.now, r.0.now)) result (integer_at i.now) }
{
    let mut count = HeaderCount::new();
    let (rest, element) = front_element(i, &mut count)?;
    let number = integer_of(element.any)?;
    Ok((rest, number))
}

#[tactic(auto, unfolding(crate::specs::Reading::ecdsa_parts_at))]
fn parts<'a>(i: &'a [u8]) -> X509Result<'a, EcdsaSigValue<'a>>
    ensures { Gives (λ r. (ecdsa_view r.1, r.0.now)) result (ecdsa_parts_at i.now) }
{
    let (i, r) = integer_at_front(i)?;
    let (i, s) = integer_at_front(i)?;
    Ok((i, EcdsaSigValue { r, s }))
}

fn value_of<'a>(element: Element<'a>) -> Result<EcdsaSigValue<'a>, Refusal<X509Error>>
    ensures { Gives ecdsa_view result (ecdsa_in (piece_of element.entry)) }
{
    let content = sequence_content(element.any)?;
    let (_, value) = parts(content)?;
    Ok(value)
}

impl<'b> DerMeaning for EcdsaSigValue<'b> {
    ghost der_reads = { λ i v r. grammar.EcdsaSigValue i (ecdsa_view v) r };

    ghost der_cut = { EndsWithinElement };

    ghost der_grows = { Unit {0} };

    ghost one_rest = { λ i v w r s left right. one_rest (HoldsSequence grammar.EcdsaParts) i (ecdsa_view v) (ecdsa_view w) r s left right };
}

impl<'a> FromDer<'a, X509Error> for EcdsaSigValue<'a> {
    /// Reads one value from the front: a constructed universal SEQUENCE of two INTEGERs of any
    /// sign. Returns `(rest, value)`. Octets that remain in its content are ignored. Takes no
    /// memory.
    ///
    /// # Errors
    ///
    /// `Incomplete` if the octets end inside the element; an `Error` if they are no such value.
    fn from_der(_alloc: Global, bytes: &'a [u8]) -> X509Result<'a, EcdsaSigValue<'a>>
        ensures reads { Reads (λ given e. e ≡ told given) (Unit {0}) EndsWithinElement (λ i. i.now)
            (λ i v r. grammar.EcdsaSigValue i (ecdsa_view v) r) bytes.now result }
        ensures exact { Gives (λ r. (ecdsa_view r.1, r.0.now)) result (ecdsa_at bytes.now) }
        ensures found { IfOk result (λ r. grammar.EcdsaSigValue bytes.now (ecdsa_view r.1) r.0.now) }
        ensures only { (v : values.EcdsaSigValue) (rest : List ℕ) → grammar.EcdsaSigValue bytes.now v rest
            → ElseMemory result (λ r. (ecdsa_view r.1 ≡ v) × (r.0.now ≡ rest)) }
    {
        value_at_front(bytes)
    }
}

fn value_at_front<'a>(i: &'a [u8]) -> X509Result<'a, EcdsaSigValue<'a>>
    ensures exact { Gives (λ r. (ecdsa_view r.1, r.0.now)) result (ecdsa_at i.now) }
    ensures missing { TellsMissing i.now result }
    ensures shorter { IfOk result (λ r. length r.0.now < length i.now) }
{
    let mut count = HeaderCount::new();
    let (rest, element) = front_element(i, &mut count)?;
    match value_of(element) {
        Ok(value) => Ok((rest, value)),
        Err(refusal) => Err(Refusal::within(refusal)),
    }
}
