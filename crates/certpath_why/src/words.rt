//! The words of each reason, without the position and the name before them: why a certificate is
//! not usable, may not issue others or is not linked, and why a list is not used.

ghost use Rattle.std.specs.Prelude.{◌≡◌, ◌++◌, OnOk, string_bytes, map, slice_get};
ghost use Rattle.cert_model.specs.View.{ext_view, time_view, certificate_view, list_view};
ghost use Rattle.certpath_why.specs.Texts.{identifier_of, shown_moment, shown_identifier};
ghost use Rattle.certpath_why.specs.Lines.{extension, unusable_words, issuer_words, link_words, list_words, moment_or_none};

use asn1_oid::Oid;
use cert_model::fields::{CertFields, ExtField, ListFields};
use cert_reasons::{NoIssuer, Unlinked, Unusable, Unused};
use jiff::civil::DateTime;
use std::alloc::AllocError;

/// Returns the identifier of the extension at a position; none of its octets if there is none.
fn identifier_at<'a>(extensions: &[ExtField<'a>], place: usize) -> &'a [u8]
    ensures { result.now ≡ identifier_of (slice_get (map ext_view extensions.now) place) }
{
    match extensions.get(place) {
        Some(extension) => extension.identifier,
        None => &[],
    }
}

/// Appends the identifier of the extension at a position, in numbers with dots.
fn push_identifier(
    text: &mut String,
    extensions: &[ExtField<'_>],
    place: usize,
) -> Result<(), AllocError>
    ensures { OnOk result (string_bytes text.new ≡ string_bytes text.old ++ shown_identifier (map ext_view extensions.now) place) }
{
    let identifier = Oid::new(identifier_at(extensions, place));
    write!(text, "{identifier}")
}

/// Appends a moment, as `2026-01-31T12:00:00`.
fn push_moment(text: &mut String, moment: &DateTime) -> Result<(), AllocError>
    ensures { OnOk result (string_bytes text.new ≡ string_bytes text.old ++ shown_moment (time_view moment.now)) }
{
    write!(text, "{moment}")
}

/// Appends which extension is meant, and these words.
fn push_extension(text: &mut String, place: usize, words: &str) -> Result<(), AllocError>
    ensures { OnOk result (string_bytes text.new ≡ string_bytes text.old ++ (extension place ++ words.now)) }
{
    write!(text, "extension {place}{words}")
}

/// Appends why a certificate is not usable (RFC 5280, 6.1.3, a, and 6.1.4, o).
pub(crate) fn push_unusable_words(
    text: &mut String,
    fields: &CertFields<'_>,
    reason: Unusable,
) -> Result<(), AllocError>
    ensures { OnOk result (string_bytes text.new ≡ string_bytes text.old ++ unusable_words (certificate_view fields.now) reason) }
{
    match reason {
        Unusable::NotYetValid => {
            text.push_str("not valid before ")?;
            push_moment(text, &fields.not_before)?;
        }
        Unusable::Expired => {
            text.push_str("expired ")?;
            push_moment(text, &fields.not_after)?;
        }
        Unusable::Repeats(place) => {
            push_extension(text, place, " repeats ")?;
            push_identifier(text, &fields.extensions, place)?;
        }
        Unusable::Unprocessed(place) => {
            push_extension(text, place, " critical and not judged ")?;
            push_identifier(text, &fields.extensions, place)?;
        }
        Unusable::BadConstraints(place) => {
            push_extension(text, place, " basicConstraints not well written")?;
        }
        Unusable::BadUsage(place) => {
            push_extension(text, place, " keyUsage not well written")?;
        }
    }
    Ok(())
}

/// Appends why it may not issue others (RFC 5280, 6.1.4, k and n).
pub(crate) fn push_issuer_words(text: &mut String, reason: NoIssuer) -> Result<(), AllocError>
    ensures { OnOk result (string_bytes text.new ≡ string_bytes text.old ++ issuer_words reason) }
{
    match reason {
        NoIssuer::NoAuthority => text.push_str("no authority"),
        NoIssuer::NoCertSigning(place) => {
            push_extension(text, place, " keyUsage without keyCertSign")
        }
        NoIssuer::NameConstraints(place) => push_extension(text, place, " nameConstraints"),
        NoIssuer::PolicyConstraints(place) => push_extension(text, place, " policyConstraints"),
    }
}

/// Appends why it is not linked to an issuer or anchor (RFC 5280, 6.1.3, and 6.3).
pub(crate) fn push_link_words(text: &mut String, reason: Unlinked) -> Result<(), AllocError>
    ensures { OnOk result (string_bytes text.new ≡ string_bytes text.old ++ link_words reason) }
{
    match reason {
        Unlinked::NotVouched => text.push_str("no voucher"),
        Unlinked::KeyIdsDiffer => text.push_str("key identifiers differ"),
        Unlinked::RevokedBy(place) => write!(text, "revoked by list {place}"),
        Unlinked::NoUsedList => text.push_str("no list used"),
    }
}

/// Appends the next update of a list, if it has one.
fn push_next_update(text: &mut String, fields: &ListFields<'_>) -> Result<(), AllocError>
    ensures { OnOk result (string_bytes text.new ≡ string_bytes text.old ++ moment_or_none (list_view fields.now).next_update) }
{
    match &fields.next_update {
        Some(moment) => push_moment(text, moment),
        None => Ok(()),
    }
}

/// Appends why a list is not used (RFC 5280, 5.1.2.5, 5.2 and 6.3.3).
pub(crate) fn push_list_words(
    text: &mut String,
    fields: &ListFields<'_>,
    reason: Unused,
) -> Result<(), AllocError>
    ensures { OnOk result (string_bytes text.new ≡ string_bytes text.old ++ list_words (list_view fields.now) reason) }
{
    match reason {
        Unused::NotVouched => text.push_str("no voucher by a key of its issuer")?,
        Unused::NoNextUpdate => text.push_str("no next update")?,
        Unused::NotYetCurrent => {
            text.push_str("not current before ")?;
            push_moment(text, &fields.this_update)?;
        }
        Unused::PastNextUpdate => {
            text.push_str("past next update ")?;
            push_next_update(text, fields)?;
        }
        Unused::CriticalOfList(place) => {
            push_extension(text, place, " critical ")?;
            push_identifier(text, &fields.extensions, place)?;
        }
        Unused::CriticalOfEntry(place) => {
            write!(text, "entry {place} has a critical extension")?;
        }
    }
    Ok(())
}
