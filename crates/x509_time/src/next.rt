//! The reader of `nextUpdate`, which may be absent (RFC 5280, 5.1.2.5).

ghost use Rattle.std.specs.Prelude.{◌≡◌, ◌+◌, ◌^◌, ◌<◌, ◌≤◌, length, nat_le, option_map, IfErr};
ghost use Rattle.std.specs.List.{list_all};
ghost use Rattle.asn1_any.specs.Views.{any_of};
ghost use Rattle.asn1_core.specs.Counts.{attempts};
ghost use Rattle.asn1_core.specs.declared.outcome.Err.TheVariants as refusals;
ghost use Rattle.x509_core.specs.Answers.{Gives};
ghost use Rattle.x509_core.specs.declared.error.X509Error.TheVariants as errors;
ghost use Rattle.x509_time.specs.Reading.{next_update_at, is_cut_tag, is_absent, begins_general_time};
ghost use Rattle.x509_time.specs.View.{time_view};

use crate::leaves::{is_general_time, take_time};
use crate::time::ASN1Time;
use asn1_any::Element;
use asn1_core::{Err as Refusal, Header, HeaderCount, Length};
use x509_core::{Parts, X509Error};

// The greatest number of content octets that a header is looked at for.
const GREATEST_SIZE: usize = 4_294_967_295;

// Whether the octets end within a tag number.
fn is_cut_tag(i: &[u8]) -> bool
    ensures { result ≡ is_cut_tag i.now }
{
    match i {
        [] => false,
        [first, rest @ ..] => *first % 32 == 31 && are_high(rest),
    }
}

// Whether every octet is 128 or more.
fn are_high(octets: &[u8]) -> bool
    ensures { result ≡ list_all (nat_le 128) octets.now }
{
    octets.iter().all(|octet| *octet >= 128)
}

// Whether no time is looked for in the octets, which no time begins.
#[tactic(auto, unfolding(crate::specs::Reading::is_absent, x509_core::specs::Reading::front_header_at))]
fn is_absent(parts: &Parts<'_>, count: &mut HeaderCount) -> bool
    requires { attempts count.old + 1 < 2 ^ 128 }
    ensures read { result ≡ is_absent parts.now.octets }
    ensures grows { attempts count.old ≤ attempts count.new }
    ensures most { attempts count.new ≤ attempts count.old + 1 }
{
    if is_cut_tag(parts.left()) {
        return true;
    }
    let Ok((_, header)) = Header::from_der_counted(parts.left(), count) else {
        return false;
    };
    let Length::Definite(size) = header.length() else {
        return false;
    };
    let tag = header.tag().0;
    size <= GREATEST_SIZE && tag != 23 && (tag != 24 || !begins_general_time(parts.first()))
}

// Whether the element is there, and a GeneralizedTime of DER.
fn begins_general_time(first: Option<Element<'_>>) -> bool
    ensures { result ≡ begins_general_time (option_map (λ e. any_of e.any) first.entry) }
{
    match first {
        None => false,
        Some(element) => is_general_time(element.any),
    }
}

/// Reads an optional next update from the front. `None`, without reading, if no octet is left; if
/// the octets end within their first tag number; or if they begin with a header of at most
/// 4,294,967,295 content octets whose tag number is neither 23 nor 24, or is 24 and begins no
/// GeneralizedTime. Tries at most one header.
///
/// # Errors
///
/// `InvalidDate` in every other case without a time.
#[tactic(auto, unfolding(crate::specs::Reading::next_update_at))]
pub fn next_update(
    parts: &mut Parts<'_>,
    count: &mut HeaderCount,
) -> Result<Option<ASN1Time>, Refusal<X509Error>>
    requires { attempts count.old + 1 < 2 ^ 128 }
    ensures read { Gives (λ v. (option_map time_view v, parts.new.octets)) result (next_update_at parts.old.octets) }
    ensures refused { IfErr result (λ e. e ≡ refusals.Error errors.InvalidDate) }
    ensures elements { parts.new.elements ≤ parts.old.elements }
    ensures stays { IfErr result (λ _. parts.new ≡ parts.old) }
    ensures grows { attempts count.old ≤ attempts count.new }
    ensures ends { length parts.new.octets ≤ length parts.old.octets }
    ensures most { attempts count.new ≤ attempts count.old + 1 }
{
    if parts.left().is_empty() {
        return Ok(None);
    }
    if let Some(time) = take_time(parts) {
        return Ok(Some(time));
    }
    if is_absent(parts, count) {
        Ok(None)
    } else {
        Err(Refusal::Error(X509Error::InvalidDate))
    }
}
