//! `ReasonCode`, a reason of revocation (RFC 5280, 5.3.1), and its reader.

ghost use Rattle.std.specs.Prelude.{◌≡◌, ◌<◌, ℕ, List, length, Err, IfOk, IfErr};
ghost use Rattle.asn1_any.specs.Views.{any_of};
ghost use Rattle.asn1_core.specs.declared.error.Error.TheVariants as der;
ghost use Rattle.asn1_core.specs.declared.outcome.Err.TheVariants as refusals;
ghost use Rattle.x509_core.specs.Answers.{Gives, ElseMemory};
ghost use Rattle.x509_core.specs.Fronts.{TakesNoMemory, TellsMissing};
ghost use Rattle.x509_core.specs.Reading.{leaf_in, next};
ghost use Rattle.x509_core.specs.declared.error.X509Error.TheVariants as errors;
ghost use Rattle.x509_ext_basic.specs.Leaves as grammar;
ghost use Rattle.x509_ext_basic.specs.Reading.{reason_in, element_reason, reason_at};
ghost use Rattle.x509_ext_basic.specs.Refusals.{ToldAs, no_reason};
ghost use Rattle.x509_ext_basic.specs.View.{reason_view};

use asn1_any::Any;
use asn1_core::{Err as Refusal, Error, HeaderCount};
use x509_core::{X509Error, X509Result, front_element, leaf_of};
use x509_ext_flags::{ReasonCode, number_of};

// A number to 10, in the fewest octets.
#[tactic(auto, unfolding(crate::specs::Reading::reason_in))]
fn small_number(content: &[u8]) -> Option<u8>
    ensures { result ≡ reason_in content.now }
{
    let number = number_of(content)?;
    if number > 10 {
        return None;
    }
    Some(number as u8)
}

fn reason_of(any: Any<'_>) -> Result<ReasonCode, Refusal<X509Error>>
    ensures read { Gives reason_view result (element_reason (any_of any.entry)) }
    ensures memory { IfErr result TakesNoMemory }
    ensures refused { IfErr result (ToldAs no_reason (leaf_in 10 (any_of any.entry))) }
{
    let content = leaf_of(10, any)?;
    match small_number(content) {
        Some(code) => Ok(ReasonCode(code)),
        None => Err(Refusal::Error(X509Error::Der(Error::BerValueError))),
    }
}

fn reason_at_front<'a>(i: &'a [u8]) -> X509Result<'a, ReasonCode>
    ensures exact { Gives (λ r. (reason_view r.1, r.0.now)) result (reason_at i.now) }
    ensures missing { TellsMissing i.now result }
    ensures memory { IfErr result TakesNoMemory }
    ensures shorter { IfOk result (λ r. length r.0.now < length i.now) }
    ensures refused { IfErr result (ToldAs no_reason (next (λ p. leaf_in 10 p.element) i.now)) }
{
    let mut count = HeaderCount::new();
    let (rest, element) = front_element(i, &mut count)?;
    match reason_of(element.any) {
        Ok(value) => Ok((rest, value)),
        Err(refusal) => Err(Refusal::within(refusal)),
    }
}

/// Reads one reason from the front of `i`: an ENUMERATED of at most 10 in its shortest form, also
/// 7, which has no name. Returns `(rest, reason)`.
///
/// # Errors
///
/// `Incomplete` exactly if `i` ends inside the element; `BerValueError` for a primitive element of
/// tag number 10 with another content; else another `Error` of an element.
pub fn reason_code<'a>(i: &'a [u8]) -> X509Result<'a, ReasonCode>
    ensures exact { Gives (λ r. (reason_view r.1, r.0.now)) result (reason_at i.now) }
    ensures missing { TellsMissing i.now result }
    ensures memory { IfErr result TakesNoMemory }
    ensures refused { (content : List ℕ) (rest : List ℕ) → grammar.Enumerated i.now content rest
        → ((n : ℕ) → grammar.IsReason content n → ⊥) → result ≡ Err (refusals.Error (errors.Der der.BerValueError)) }
    ensures found { IfOk result (λ r. grammar.CRLReason i.now (reason_view r.1) r.0.now) }
    ensures only { (n : ℕ) (rest : List ℕ) → grammar.CRLReason i.now n rest
        → ElseMemory result (λ r. (reason_view r.1 ≡ n) × (r.0.now ≡ rest)) }
{
    reason_at_front(i)
}
