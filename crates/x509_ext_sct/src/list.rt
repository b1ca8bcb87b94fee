//! The reader of SignedCertificateTimestampList (RFC 6962, 3.3).

ghost use Rattle.std.specs.Prelude.{◌≡◌, List, ℕ, IfOk, map};
ghost use Rattle.asn1_any.specs.Views.{any_of};
ghost use Rattle.x509_core.specs.Answers.{Gives, ElseMemory};
ghost use Rattle.x509_core.specs.Reading.{many_of};
ghost use Rattle.x509_ext_sct.specs.Reading.{timestamp_at, some_timestamps_in, element_timestamps, list_at};
ghost use Rattle.x509_ext_sct.specs.Timestamps as grammar;
ghost use Rattle.x509_ext_sct.specs.Values as values;
ghost use Rattle.x509_ext_sct.specs.View.{timestamp_view};

use crate::octets::opaque;
use crate::timestamp::timestamp_at_front;
use crate::timestamps::SignedCertificateTimestamp;
use asn1_any::Any;
use asn1_core::{Err as Refusal, Error, HeaderCount, OutOfMemory};
use std::alloc::Global;
use x509_core::{X509Error, X509Result, front_element, leaf_of};

// As many timestamps as begin there.
fn each_timestamp<'a>(
    alloc: Global,
    i: &'a [u8],
) -> Result<Vec<SignedCertificateTimestamp<'a>>, OutOfMemory>
    ensures { IfOk result (λ v. (many_of timestamp_at i.now).0 ≡ map timestamp_view v.items) }
{
    let mut timestamps = Vec::new(alloc);
    let mut left = i;
    while let Ok((rest, timestamp)) = timestamp_at_front(left) {
        timestamps.push(timestamp)?;
        left = rest;
    }
    Ok(timestamps)
}

// As many timestamps as begin there, one at least.
fn some_timestamps<'a>(
    alloc: Global,
    i: &'a [u8],
) -> Result<Vec<SignedCertificateTimestamp<'a>>, Refusal<X509Error>>
    ensures { Gives (λ v. map timestamp_view v.items) result (some_timestamps_in i.now) }
{
    match each_timestamp(alloc, i) {
        Ok(timestamps) => {
            if timestamps.is_empty() {
                return Err(Refusal::Error(X509Error::Der(Error::InvalidLength)));
            }
            Ok(timestamps)
        }
        Err(e) => Err(Refusal::Failure(X509Error::from(e))),
    }
}

fn timestamps_of<'a>(
    alloc: Global,
    any: Any<'a>,
) -> Result<Vec<SignedCertificateTimestamp<'a>>, Refusal<X509Error>>
    ensures { Gives (λ v. map timestamp_view v.items) result (element_timestamps (any_of any.entry)) }
{
    let content = leaf_of(4, any)?;
    let (_, inner) = opaque(content)?;
    some_timestamps(alloc, inner)
}

fn list_at_front<'a>(
    alloc: Global,
    i: &'a [u8],
) -> X509Result<'a, Vec<SignedCertificateTimestamp<'a>>>
    ensures { Gives (λ r. (map timestamp_view r.1.items, r.0.now)) result (list_at i.now) }
{
    let mut count = HeaderCount::new();
    let (rest, element) = front_element(i, &mut count)?;
    let timestamps = timestamps_of(alloc, element.any)?;
    Ok((rest, timestamps))
}

/// Reads one OCTET STRING with a list of timestamps from the front. Returns `(rest, timestamps)`:
/// as many as begin in the list, at least one.
///
/// # Errors
///
/// `Incomplete` if the octets end inside the element; an `Error` without a timestamp; out of
/// memory.
pub fn parse_ct_signed_certificate_timestamp_list<'a>(
    alloc: Global,
    i: &'a [u8],
) -> X509Result<'a, Vec<SignedCertificateTimestamp<'a>>>
    ensures exact { Gives (λ r. (map timestamp_view r.1.items, r.0.now)) result (list_at i.now) }
    ensures found { IfOk result (λ r. grammar.TimestampList i.now (map timestamp_view r.1.items) r.0.now) }
    ensures only { (v : List values.SignedCertificateTimestamp) (rest : List ℕ) → grammar.TimestampList i.now v rest
        → ElseMemory result (λ r. (map timestamp_view r.1.items ≡ v) × (r.0.now ≡ rest)) }
{
    list_at_front(alloc, i)
}
