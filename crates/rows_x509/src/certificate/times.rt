//! Times and validities.

use crate::words::{Words, add_error, add_refusal, add_text_before, add_words_before, truth_text};
use asn1_core::HeaderCount;
use asn1_traits::FromDer;
use rows_hex::Added;
use x509_core::{Parts, X509Result};
use x509_time::{ASN1Time, Validity, next_update};

impl Words for ASN1Time {
    fn add_words(&self, text: &mut String) -> Added {
        let kind = if self.is_generalizedtime() {
            "generalized"
        } else {
            "utc"
        };
        write!(text, "{kind} {self}, {}", self.timestamp())
    }
}

impl Words for Validity {
    fn add_words(&self, text: &mut String) -> Added {
        self.not_before.add_words(text)?;
        text.push_str(" to ")?;
        self.not_after.add_words(text)
    }
}

/// Adds whether the validity that the octets are holds the moment so many seconds after 1970 began.
pub(crate) fn add_is_valid_at(text: &mut String, seconds: &str, octets: &[u8]) -> Added {
    let Some(now) = time_after(seconds) else {
        return text.push_str("no time");
    };
    let read: X509Result<'_, Validity> = Validity::from_der(*text.allocator(), octets);
    match read {
        Ok((_, validity)) => text.push_str(truth_text(validity.is_valid_at(now))),
        Err(refusal) => add_refusal(text, &refusal),
    }
}

/// Adds how many seconds the validity that the octets are goes on behind that moment.
pub(crate) fn add_time_left(text: &mut String, seconds: &str, octets: &[u8]) -> Added {
    let Some(now) = time_after(seconds) else {
        return text.push_str("no time");
    };
    let read: X509Result<'_, Validity> = Validity::from_der(*text.allocator(), octets);
    match read {
        Ok((_, validity)) => match validity.time_to_expiration(now.to_datetime()) {
            Some(left) => write!(text, "{} s", left.as_secs()),
            None => text.push_str("none"),
        },
        Err(refusal) => add_refusal(text, &refusal),
    }
}

/// The time so many seconds after 1970 began.
fn time_after(seconds: &str) -> Option<ASN1Time> {
    let Ok(seconds) = seconds.parse::<i64>() else {
        return None;
    };
    match ASN1Time::from_timestamp(seconds) {
        Ok(time) => Some(time),
        Err(_) => None,
    }
}

/// Adds the next update that begins a content, and the octets after it.
pub(crate) fn add_next_update(text: &mut String, octets: &[u8]) -> Added {
    let mut count = HeaderCount::new();
    let Ok(mut parts) = Parts::cut(*text.allocator(), octets, &mut count) else {
        return text.push_str("out of memory");
    };
    match next_update(&mut parts, &mut count) {
        Ok(Some(time)) => add_words_before(text, &time, parts.left()),
        Ok(None) => add_text_before(text, &"none", parts.left()),
        Err(refusal) => add_refusal(text, &refusal),
    }
}

/// Adds the time so many seconds after 1970 began, and its text by RFC 2822.
pub(crate) fn add_from_timestamp(text: &mut String, seconds: &str) -> Added {
    let Ok(seconds) = seconds.parse::<i64>() else {
        return text.push_str("no number");
    };
    match ASN1Time::from_timestamp(seconds) {
        Ok(time) => {
            time.add_words(text)?;
            text.push_str("; ")?;
            add_mail(text, time)
        }
        Err(error) => add_error(text, &error),
    }
}

fn add_mail(text: &mut String, time: ASN1Time) -> Added {
    match time.to_rfc2822(*text.allocator()) {
        Ok(mail) => text.push_str(&mail),
        Err(error) => add_error(text, &error),
    }
}
