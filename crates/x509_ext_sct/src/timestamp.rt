//! The reader of SignedCertificateTimestamp (RFC 6962, 3.2).

ghost use Rattle.std.specs.Prelude.{◌≡◌, ◌<◌, List, ℕ, length, IfOk, IfErr};
ghost use Rattle.x509_core.specs.Answers.{Gives, ElseMemory};
ghost use Rattle.x509_core.specs.Fronts.{TakesNoMemory};
ghost use Rattle.x509_ext_sct.specs.Reading.{fixed_at, signed_at, parts_at, timestamp_at};
ghost use Rattle.x509_ext_sct.specs.Timestamps as grammar;
ghost use Rattle.x509_ext_sct.specs.Values as values;
ghost use Rattle.x509_ext_sct.specs.View.{signed_view, timestamp_view};

use crate::octets::{octet, opaque, time};
use crate::timestamps::{
    CtExtensions, CtLogID, CtVersion, DigitallySigned, SignedCertificateTimestamp,
};
use asn1_core::{Err as Refusal, Error};
use x509_core::{X509Error, X509Result};

#[tactic(auto, unfolding(crate::specs::Reading::signed_at))]
fn signed<'a>(i: &'a [u8]) -> X509Result<'a, DigitallySigned<'a>>
    ensures read { Gives (λ r. (signed_view r.1, r.0.now)) result (signed_at i.now) }
    ensures memory { IfErr result TakesNoMemory }
{
    let (i, hash_alg_id) = octet(i)?;
    let (i, sign_alg_id) = octet(i)?;
    let (i, content) = opaque(i)?;
    Ok((
        i,
        DigitallySigned {
            hash_alg_id,
            sign_alg_id,
            content,
        },
    ))
}

// Which log it is.
#[tactic(auto, unfolding(crate::specs::Reading::fixed_at))]
fn log<'a>(i: &'a [u8]) -> X509Result<'a, CtLogID<'a>>
    ensures read { Gives (λ r. (r.1.key_id.now, r.0.now)) result (fixed_at 32 i.now) }
    ensures memory { IfErr result TakesNoMemory }
{
    match i.split_first_chunk::<32>() {
        Some((key_id, rest)) => Ok((rest, CtLogID { key_id })),
        None => Err(Refusal::Error(X509Error::Der(Error::InvalidLength))),
    }
}

#[tactic(auto, unfolding(crate::specs::Reading::parts_at))]
fn parts<'a>(i: &'a [u8]) -> X509Result<'a, SignedCertificateTimestamp<'a>>
    ensures read { Gives (λ r. (timestamp_view r.1, r.0.now)) result (parts_at i.now) }
    ensures memory { IfErr result TakesNoMemory }
{
    let (i, version) = octet(i)?;
    let (i, id) = log(i)?;
    let (i, timestamp) = time(i)?;
    let (i, extensions) = opaque(i)?;
    let (i, signature) = signed(i)?;
    Ok((
        i,
        SignedCertificateTimestamp {
            version: CtVersion(version),
            id,
            timestamp,
            extensions: CtExtensions(extensions),
            signature,
        },
    ))
}

pub(crate) fn timestamp_at_front<'a>(i: &'a [u8]) -> X509Result<'a, SignedCertificateTimestamp<'a>>
    ensures read { Gives (λ r. (timestamp_view r.1, r.0.now)) result (timestamp_at i.now) }
    ensures shorter { IfOk result (λ r. length r.0.now < length i.now) }
    ensures memory { IfErr result TakesNoMemory }
{
    let (rest, inner) = opaque(i)?;
    let (_, timestamp) = parts(inner)?;
    Ok((rest, timestamp))
}

/// Reads one timestamp after its length of two octets (RFC 6962, 3.3). Returns `(rest, timestamp)`.
/// Octets that remain within the length are ignored.
///
/// # Errors
///
/// A refusal if the octets are too few.
pub fn parse_ct_signed_certificate_timestamp<'a>(
    i: &'a [u8],
) -> X509Result<'a, SignedCertificateTimestamp<'a>>
    ensures exact { Gives (λ r. (timestamp_view r.1, r.0.now)) result (timestamp_at i.now) }
    ensures found { IfOk result (λ r. grammar.Timestamp i.now (timestamp_view r.1) r.0.now) }
    ensures only { (v : values.SignedCertificateTimestamp) (rest : List ℕ) → grammar.Timestamp i.now v rest
        → ElseMemory result (λ r. (timestamp_view r.1 ≡ v) × (r.0.now ≡ rest)) }
    ensures memory { IfErr result TakesNoMemory }
{
    timestamp_at_front(i)
}
