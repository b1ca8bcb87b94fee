//! Octets in the presentation language of TLS (RFC 5246, 4).

ghost use Rattle.std.specs.Prelude.{◌≤◌, ◌<◌, ◌+◌, length, IfOk, IfErr};
ghost use Rattle.x509_core.specs.Answers.{Gives};
ghost use Rattle.x509_core.specs.Fronts.{TakesNoMemory};
ghost use Rattle.x509_ext_sct.specs.Reading.{fixed_at, opaque_at, octet_at, time_at};

use asn1_core::{Err as Refusal, Error};
use asn1_unsigned::UnsignedBytes;
use x509_core::{X509Error, X509Result};

/// Reads `size` octets. Returns `(rest, octets)`.
#[tactic(auto, unfolding(crate::specs::Reading::fixed_at))]
pub(crate) fn fixed<'a>(i: &'a [u8], size: usize) -> X509Result<'a, &'a [u8]>
    ensures read { Gives (λ r. (r.1.now, r.0.now)) result (fixed_at size i.now) }
    ensures ends { IfOk result (λ r. length r.0.now ≤ length i.now) }
    ensures memory { IfErr result TakesNoMemory }
{
    if i.len() < size {
        return Err(Refusal::Error(X509Error::Der(Error::InvalidLength)));
    }
    let (front, rest) = i.split_at(size);
    Ok((rest, front))
}

/// Reads a length of two octets and as many octets (RFC 5246, 4.3). Returns `(rest, octets)`.
#[tactic(auto, unfolding(crate::specs::Reading::opaque_at))]
pub(crate) fn opaque<'a>(i: &'a [u8]) -> X509Result<'a, &'a [u8]>
    ensures read { Gives (λ r. (r.1.now, r.0.now)) result (opaque_at i.now) }
    ensures shorter { IfOk result (λ r. length r.0.now < length i.now) }
    ensures memory { IfErr result TakesNoMemory }
{
    match i {
        [high, low, rest @ ..] => fixed(rest, usize::from(*high) * 256 + usize::from(*low)),
        _ => Err(Refusal::Error(X509Error::Der(Error::InvalidLength))),
    }
}

/// Reads one octet. Returns `(rest, octet)`.
#[tactic(auto, unfolding(crate::specs::Reading::octet_at))]
pub(crate) fn octet<'a>(i: &'a [u8]) -> X509Result<'a, u8>
    ensures read { Gives (λ r. (r.1, r.0.now)) result (octet_at i.now) }
    ensures memory { IfErr result TakesNoMemory }
{
    match i {
        [octet, rest @ ..] => Ok((rest, *octet)),
        [] => Err(Refusal::Error(X509Error::Der(Error::InvalidLength))),
    }
}

/// Reads a number of eight octets, most significant first (RFC 5246, 4.4). Returns `(rest,
/// number)`.
#[tactic(auto, unfolding(crate::specs::Reading::time_at))]
pub(crate) fn time<'a>(i: &'a [u8]) -> X509Result<'a, u64>
    ensures read { Gives (λ r. (r.1, r.0.now)) result (time_at i.now) }
    ensures memory { IfErr result TakesNoMemory }
{
    let (rest, octets) = fixed(i, 8)?;
    match UnsignedBytes::from_bytes_be(octets).as_u64() {
        Some(number) => Ok((rest, number)),
        None => Err(Refusal::Error(X509Error::Der(Error::IntegerTooLarge))),
    }
}
