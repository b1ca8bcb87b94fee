//! Readers of times: at the front of octets, in an element, and of content octets.

ghost use Rattle.std.specs.Prelude.{◌≡◌, ◌+◌, ◌≤◌, ℕ, List, length, IfOk, IfErr, IfSome, IfNone, IsOkAnd, option_map};
ghost use Rattle.jiff.specs.Words.{civil_nanos};
ghost use Rattle.asn1_any.specs.Views.{any_of};
ghost use Rattle.asn1_core.specs.declared.outcome.Err.TheVariants as refusals;
ghost use Rattle.asn1_times.specs.Readers.{der_generalized_time_at};
ghost use Rattle.x509_core.specs.asn1_traits.specs.Reads.{Reads};
ghost use Rattle.x509_core.specs.Answers.{Gives, ElseMemory, plain};
ghost use Rattle.x509_core.specs.Errors.{told};
ghost use Rattle.x509_core.specs.Reading.{next};
ghost use Rattle.x509_core.specs.declared.error.X509Error.TheVariants as errors;
ghost use Rattle.x509_core.specs.Fronts.{one_rest};
ghost use Rattle.x509_time.specs.Reading.{utc_nanos_at, general_nanos_at, time_in, time_at, is_general_time, TakesTime};
ghost use Rattle.x509_time.specs.Times as grammar;
ghost use Rattle.x509_time.specs.View.{time_view};

use crate::time::ASN1Time;
use asn1_any::Any;
use asn1_core::{Err as Refusal, Tag};
use asn1_times::{GeneralizedTime, UtcTime};
use jiff::civil::DateTime;
use std::alloc::Global;
use x509_core::{DerLeaf, DerMeaning, FromDer, Parts, X509Error, X509Result};

// The moment of a UTCTime's content, if it is one's and the calendar has it.
#[tactic(auto, unfolding(crate::specs::Reading::utc_nanos_at))]
fn utc_moment(content: &[u8]) -> Option<DateTime>
    ensures { option_map civil_nanos result ≡ utc_nanos_at content.now }
{
    let Ok(time) = UtcTime::from_bytes(content) else {
        return None;
    };
    match time.utc_adjusted_datetime() {
        Ok(moment) => Some(moment),
        Err(_) => None,
    }
}

// The GeneralizedTime of content octets by DER, of whatever date.
fn general_time(content: &[u8]) -> Option<GeneralizedTime>
    ensures { option_map (λ t. t.0) result ≡ der_generalized_time_at content.now }
{
    match GeneralizedTime::check_content(content) {
        Ok(()) => match GeneralizedTime::from_bytes(content) {
            Ok(time) => Some(time),
            Err(_) => None,
        },
        Err(_) => None,
    }
}

/// The moment of the content octets of a GeneralizedTime in DER (X.690, 11.7); `None` if they are
/// malformed, or no date of the calendar.
#[tactic(auto, unfolding(crate::specs::Reading::general_nanos_at))]
pub fn general_moment(content: &[u8]) -> Option<DateTime>
    ensures { option_map civil_nanos result ≡ general_nanos_at content.now }
{
    let time = general_time(content)?;
    match time.utc_datetime() {
        Ok(moment) => Some(moment),
        Err(_) => None,
    }
}

/// The time in an element; `None` if it isn't one, or no date of the calendar.
#[tactic(auto, unfolding(crate::specs::Reading::time_in))]
pub fn time_of(any: Any<'_>) -> Option<ASN1Time>
    ensures { option_map time_view result ≡ time_in (any_of any.entry) }
{
    if any.header.is_constructed() {
        return None;
    }
    if any.tag().0 == Tag::UtcTime.0 {
        let moment = utc_moment(any.content)?;
        return Some(ASN1Time::new_utc(moment));
    }
    if any.tag().0 == Tag::GeneralizedTime.0 {
        let moment = general_moment(any.content)?;
        return Some(ASN1Time::new_generalized(moment));
    }
    None
}

/// Whether an element is a GeneralizedTime in DER, of any date.
#[tactic(auto, unfolding(crate::specs::Reading::is_general_time))]
pub(crate) fn is_general_time(any: Any<'_>) -> bool
    ensures { result ≡ is_general_time (any_of any.entry) }
{
    !any.header.is_constructed()
        && any.tag().0 == Tag::GeneralizedTime.0
        && general_time(any.content).is_some()
}

/// Takes the time at the front; `None`, without reading, if there is none. Tries no header, and
/// takes no memory.
pub(crate) fn take_time(parts: &mut Parts<'_>) -> Option<ASN1Time>
    ensures read { TakesTime parts.old.octets (option_map time_view result) parts.new.octets }
    ensures elements { IfSome result (λ _. parts.old.elements ≡ parts.new.elements + 1) }
    ensures stays { IfNone result (parts.new ≡ parts.old) }
    ensures ends { length parts.new.octets ≤ length parts.old.octets }
{
    let element = parts.first()?;
    let time = time_of(element.any)?;
    parts.advance();
    Some(time)
}

/// Takes the time at the front. Tries no header.
///
/// # Errors
///
/// `InvalidDate`, without reading, if there is none.
pub fn next_time(parts: &mut Parts<'_>) -> Result<ASN1Time, Refusal<X509Error>>
    ensures read { Gives (λ v. (time_view v, parts.new.octets)) result (time_at parts.old.octets) }
    ensures refused { IfErr result (λ e. e ≡ refusals.Error errors.InvalidDate) }
    ensures elements { IfOk result (λ _. parts.old.elements ≡ parts.new.elements + 1) }
    ensures stays { IfErr result (λ _. parts.new ≡ parts.old) }
    ensures ends { length parts.new.octets ≤ length parts.old.octets }
{
    match take_time(parts) {
        Some(time) => Ok(time),
        None => Err(Refusal::Error(X509Error::InvalidDate)),
    }
}

impl DerMeaning for ASN1Time {
    ghost der_reads = { λ i v r. grammar.ASN1Time i (time_view v) r };

    ghost der_cut = { λ _ _. ⊥ };

    ghost one_rest = { λ i v w r s left right. one_rest grammar.IsTime i (time_view v) (time_view w) r s left right };
}

impl<'a> FromDer<'a, X509Error> for ASN1Time {
    /// Reads one time, a UTCTime or GeneralizedTime in DER, from the front of `bytes` (RFC 5280,
    /// 4.1.2.5). Returns `(rest, time)`.
    ///
    /// # Errors
    ///
    /// `InvalidDate` for everything else, also if `bytes` ends inside the element.
    fn from_der(_alloc: Global, bytes: &'a [u8]) -> X509Result<'a, ASN1Time>
        ensures reads { Reads (λ given e. e ≡ told given) ⊥ (λ _ _. ⊥) (λ i. i.now)
            (λ i v r. grammar.ASN1Time i (time_view v) r) bytes.now result }
        ensures exact { Gives (λ r. (time_view r.1, r.0.now)) result (time_at bytes.now) }
        ensures refused { IfErr result (λ e. e ≡ refusals.Error errors.InvalidDate) }
        ensures found { IfOk result (λ r. grammar.ASN1Time bytes.now (time_view r.1) r.0.now) }
        ensures only { (v : grammar.Time) (rest : List ℕ) → grammar.ASN1Time bytes.now v rest
            → IsOkAnd result (λ r. (time_view r.1 ≡ v) × (r.0.now ≡ rest)) }
    {
        time_at_front(bytes)
    }
}

#[tactic(auto, unfolding(x509_core::specs::Reading::piece_at))]
fn time_at_front<'a>(i: &'a [u8]) -> X509Result<'a, ASN1Time>
    ensures exact { Gives (λ r. (time_view r.1, r.0.now)) result (time_at i.now) }
    ensures refused { IfErr result (λ e. e ≡ refusals.Error errors.InvalidDate) }
{
    match Any::from_der(i) {
        Ok((rest, any)) => match time_of(any) {
            Some(time) => Ok((rest, time)),
            None => Err(Refusal::Error(X509Error::InvalidDate)),
        },
        Err(_) => Err(Refusal::Error(X509Error::InvalidDate)),
    }
}
