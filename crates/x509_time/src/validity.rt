//! `Validity` (RFC 5280, 4.1.2.5).

ghost use Rattle.std.specs.Prelude.{◌≡◌, ◌↔◌, ◌+◌, ◌^◌, ◌<◌, ◌≤◌, ℕ, List, length, IfOk, IsTrue};
ghost use Rattle.asn1_core.specs.Counts.{attempts};
ghost use Rattle.asn1_any.specs.Views.{any_of};
ghost use Rattle.x509_core.specs.asn1_traits.specs.Elements.{EndsWithinElement};
ghost use Rattle.x509_core.specs.asn1_traits.specs.Reads.{Reads};
ghost use Rattle.x509_core.specs.Answers.{Gives, ElseMemory};
ghost use Rattle.x509_core.specs.Errors.{told};
ghost use Rattle.x509_core.specs.Grammar.{Holds};
ghost use Rattle.x509_time.specs.Calls.{time_of, IsWithin, GivesLeft};
ghost use Rattle.x509_core.specs.Fronts.{TellsMissing, one_rest};
ghost use Rattle.x509_time.specs.Reading.{validity_in, validity_at};
ghost use Rattle.x509_time.specs.Times as grammar;
ghost use Rattle.x509_time.specs.View.{time_view, validity_view};

use crate::leaves::next_time;
use crate::time::ASN1Time;
use asn1_any::Element;
use asn1_core::{Err as Refusal, HeaderCount};
use jiff::SignedDuration;
use jiff::civil::DateTime;
use std::alloc::Global;
use x509_core::{DerMeaning, FromDer, Parts, X509Error, X509Result, front_element, parts_of};

/// A validity period: its first and last moment (RFC 5280, 4.1.2.5).
#[derive(Clone, Debug, Drop, PartialEq, Eq)]
pub struct Validity {
    /// The first moment of the period.
    pub not_before: ASN1Time,
    /// The last moment of the period.
    pub not_after: ASN1Time,
}

impl Validity {
    /// Whether a time lies in the period, both ends included, by the order of times.
    pub fn is_valid_at(&self, time: ASN1Time) -> bool
        ensures { IsTrue result ↔ IsWithin (validity_view self.now) (time_view time) }
    {
        time >= self.not_before && time <= self.not_after
    }

    /// Whether the caller's current moment lies in the period, both ends included.
    pub fn is_valid(&self, now: DateTime) -> bool
        ensures { IsTrue result ↔ IsWithin (validity_view self.now) (time_view (time_of now)) }
    {
        self.is_valid_at(ASN1Time::now(now))
    }

    /// The duration from the caller's current moment to the end; `None` if the moment isn't in the
    /// period, or is its last.
    pub fn time_to_expiration(&self, now: DateTime) -> Option<SignedDuration>
        ensures { GivesLeft (validity_view self.now) (time_view (time_of now)) result }
    {
        let now = ASN1Time::now(now);
        if !self.is_valid_at(now) {
            return None;
        }
        self.not_after.checked_since(&now)
    }
}

/// Reads the validity in an element.
///
/// # Errors
///
/// `InvalidDate` if a time is malformed or absent; out of memory.
#[tactic(auto, unfolding(crate::specs::Reading::validity_in))]
pub fn validity_of<'a>(
    alloc: Global,
    element: Element<'a>,
    count: &mut HeaderCount,
) -> Result<Validity, Refusal<X509Error>>
    requires { attempts count.old + length element.any.content.now < 2 ^ 128 }
    ensures read { Gives validity_view result (validity_in (any_of element.entry.any)) }
    ensures least { IfOk result (λ _. attempts count.old + 2 ≤ attempts count.new) }
    ensures grows { attempts count.old ≤ attempts count.new }
    ensures most { attempts count.new ≤ attempts count.old + length element.entry.any.content.now }
{
    let mut parts = parts_of(alloc, 16, element, count)?;
    let not_before = match next_time(&mut parts) {
        Ok(time) => time,
        Err(refusal) => return Err(refusal),
    };
    match next_time(&mut parts) {
        Ok(not_after) => Ok(Validity {
            not_before,
            not_after,
        }),
        Err(refusal) => Err(refusal),
    }
}

/// Reads a validity from the front of `parts`.
pub fn next_validity(
    alloc: Global,
    parts: &mut Parts<'_>,
    count: &mut HeaderCount,
) -> Result<Validity, Refusal<X509Error>>
    requires { attempts count.old + length parts.old.octets < 2 ^ 128 }
    ensures read { Gives (λ v. (validity_view v, parts.new.octets)) result (validity_at parts.old.octets) }
    ensures elements { IfOk result (λ _. parts.old.elements ≡ parts.new.elements + 1) }
    ensures least { IfOk result (λ _. attempts count.old + 2 ≤ attempts count.new) }
    ensures grows { attempts count.old ≤ attempts count.new }
    ensures ends { length parts.new.octets ≤ length parts.old.octets }
    ensures most { attempts count.new + length parts.new.octets ≤ attempts count.old + length parts.old.octets }
{
    let element = parts.next()?;
    validity_of(alloc, element, count)
}

impl DerMeaning for Validity {
    ghost der_reads = { λ i v r. grammar.Validity i (validity_view v) r };

    ghost der_cut = { EndsWithinElement };

    ghost der_grows = { Unit {0} };

    ghost one_rest = { λ i v w r s left right. one_rest (Holds 16 grammar.ValidityParts) i (validity_view v) (validity_view w) r s left right };
}

impl<'a> FromDer<'a, X509Error> for Validity {
    /// Reads one validity from the front of `bytes` (RFC 5280, 4.1.2.5). Returns `(rest,
    /// validity)`.
    ///
    /// # Errors
    ///
    /// `Incomplete` if `bytes` ends inside the element; `InvalidDate` without two times.
    fn from_der(alloc: Global, bytes: &'a [u8]) -> X509Result<'a, Validity>
        ensures reads { Reads (λ given e. e ≡ told given) (Unit {0}) EndsWithinElement (λ i. i.now)
            (λ i v r. grammar.Validity i (validity_view v) r) bytes.now result }
        ensures exact { Gives (λ r. (validity_view r.1, r.0.now)) result (validity_at bytes.now) }
        ensures found { IfOk result (λ r. grammar.Validity bytes.now (validity_view r.1) r.0.now) }
        ensures only { (v : grammar.Period) (rest : List ℕ) → grammar.Validity bytes.now v rest
            → ElseMemory result (λ r. (validity_view r.1 ≡ v) × (r.0.now ≡ rest)) }
    {
        validity_at_front(alloc, bytes)
    }
}

fn validity_at_front<'a>(alloc: Global, i: &'a [u8]) -> X509Result<'a, Validity>
    ensures exact { Gives (λ r. (validity_view r.1, r.0.now)) result (validity_at i.now) }
    ensures missing { TellsMissing i.now result }
{
    let mut count = HeaderCount::new();
    let (rest, element) = front_element(i, &mut count)?;
    match validity_of(alloc, element, &mut count) {
        Ok(validity) => Ok((rest, validity)),
        Err(refusal) => Err(Refusal::within(refusal)),
    }
}
