//! The reader of invalidityDate (RFC 5280, 5.3.2).

ghost use Rattle.std.specs.Prelude.{◌≡◌, ◌<◌, ℕ, List, length, option_map, IfOk, IfErr};
ghost use Rattle.asn1_any.specs.Views.{any_of};
ghost use Rattle.x509_core.specs.Answers.{Gives, ElseMemory};
ghost use Rattle.x509_core.specs.Fronts.{TakesNoMemory, TellsMissing};
ghost use Rattle.x509_ext_basic.specs.Leaves as grammar;
ghost use Rattle.x509_ext_basic.specs.Reading.{moment_in, element_date, date_at};
ghost use Rattle.x509_time.specs.Times.{Time};
ghost use Rattle.x509_time.specs.View.{time_view};

use asn1_any::Any;
use asn1_core::{Err as Refusal, Error, HeaderCount};
use x509_core::{X509Error, X509Result, front_element, leaf_of};
use x509_time::{ASN1Time, general_moment};

// The time of a content, in the form that its year asks for.
#[tactic(auto, unfolding(crate::specs::Reading::moment_in), using(crate::proofs::Laws::new_form))]
fn time_of_content(content: &[u8]) -> Option<ASN1Time>
    ensures { option_map time_view result ≡ moment_in content.now }
{
    let moment = general_moment(content)?;
    Some(ASN1Time::new(moment))
}

fn date_of(any: Any<'_>) -> Result<ASN1Time, Refusal<X509Error>>
    ensures read { Gives time_view result (element_date (any_of any.entry)) }
    ensures memory { IfErr result TakesNoMemory }
{
    let content = leaf_of(24, any)?;
    match time_of_content(content) {
        Some(time) => Ok(time),
        None => Err(Refusal::Error(X509Error::Der(Error::InvalidDateTime))),
    }
}

fn date_at_front<'a>(i: &'a [u8]) -> X509Result<'a, ASN1Time>
    ensures exact { Gives (λ r. (time_view r.1, r.0.now)) result (date_at i.now) }
    ensures missing { TellsMissing i.now result }
    ensures memory { IfErr result TakesNoMemory }
    ensures shorter { IfOk result (λ r. length r.0.now < length i.now) }
{
    let mut count = HeaderCount::new();
    let (rest, element) = front_element(i, &mut count)?;
    match date_of(element.any) {
        Ok(value) => Ok((rest, value)),
        Err(refusal) => Err(Refusal::within(refusal)),
    }
}

/// Reads one invalidityDate from the front of `i`: a GeneralizedTime in DER with a date of the
/// calendar (X.690, 11.7). Returns `(rest, date)`; the date counts as GeneralizedTime from the year
/// 2050 on, else as UTCTime.
///
/// # Errors
///
/// `Incomplete` exactly if `i` ends inside the element; else an `Error` of an element.
pub fn invalidity_date<'a>(i: &'a [u8]) -> X509Result<'a, ASN1Time>
    ensures exact { Gives (λ r. (time_view r.1, r.0.now)) result (date_at i.now) }
    ensures missing { TellsMissing i.now result }
    ensures memory { IfErr result TakesNoMemory }
    ensures found { IfOk result (λ r. grammar.InvalidityDate i.now (time_view r.1) r.0.now) }
    ensures only { (t : Time) (rest : List ℕ) → grammar.InvalidityDate i.now t rest
        → ElseMemory result (λ r. (time_view r.1 ≡ t) × (r.0.now ≡ rest)) }
{
    date_at_front(i)
}
