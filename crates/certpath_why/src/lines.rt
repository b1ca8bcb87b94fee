//! Appends one line, or the lines of one list of reasons: the subject, why a certificate is not
//! usable, why it may not issue others, and why a list is not used. Which lines there are, is for
//! `certificates.rt` and `lists.rt`; those of links are in `links.rt`.

ghost use Rattle.std.specs.Prelude.{◌≡◌, ◌++◌, ◌∷◌, [], codes, OnOk, string_bytes};
ghost use Rattle.std.specs.Fmt.{decimal};
ghost use Rattle.std.specs.List.{flat_map};
ghost use Rattle.cert_model.specs.View.{certificate_view, list_view};
ghost use Rattle.certpath_why.specs.Lines.{unusable_line, issuer_line, missing_line, subject_line, unused_line, list_line, list_lines};

use crate::names::{Labels, push_name};
use crate::words::{push_issuer_words, push_list_words, push_unusable_words};
use asn1_core::OutOfMemory;
use cert_model::fields::{CertFields, ListFields};
use cert_reasons::{NoIssuer, Unusable, Unused};
use std::alloc::{AllocError, Global};

/// Appends the first line of a certificate: its position and its subject.
pub(crate) fn push_subject(
    text: &mut String,
    alloc: Global,
    labels: &Labels,
    place: usize,
    subject: &[u8],
) -> Result<(), OutOfMemory>
    ensures { OnOk result (string_bytes text.new ≡ string_bytes text.old ++ subject_line place subject.now) }
{
    write!(text, "at {place} ")?;
    push_name(text, alloc, labels, subject)?;
    text.push('\n')?;
    Ok(())
}

/// Appends the line of one reason why a certificate is not usable.
fn push_unusable(
    text: &mut String,
    place: usize,
    fields: &CertFields<'_>,
    reason: Unusable,
) -> Result<(), AllocError>
    ensures { OnOk result (string_bytes text.new ≡ string_bytes text.old ++ unusable_line place (certificate_view fields.now) reason) }
{
    write!(text, "at {place}")?;
    text.push_str(" not usable: ")?;
    push_unusable_words(text, fields, reason)?;
    text.push_str("\n")?;
    Ok(())
}

/// A line for each reason why a certificate is not usable.
pub(crate) fn push_all_unusable(
    text: &mut String,
    place: usize,
    fields: &CertFields<'_>,
    reasons: &[Unusable],
) -> Result<(), AllocError>
    ensures { OnOk result (string_bytes text.new ≡ string_bytes text.old ++ flat_map (unusable_line place (certificate_view fields.now)) reasons.now) }
{
    for reason in reasons {
        push_unusable(text, place, fields, *reason)?;
    }
    Ok(())
}

/// Appends the line of one reason why a certificate may not issue others.
fn push_no_issuer(text: &mut String, place: usize, reason: NoIssuer) -> Result<(), AllocError>
    ensures { OnOk result (string_bytes text.new ≡ string_bytes text.old ++ issuer_line place reason) }
{
    write!(text, "at {place}")?;
    text.push_str(" no issuer: ")?;
    push_issuer_words(text, reason)?;
    text.push_str("\n")?;
    Ok(())
}

/// A line for each reason why a certificate may not issue others.
pub(crate) fn push_all_no_issuer(
    text: &mut String,
    place: usize,
    reasons: &[NoIssuer],
) -> Result<(), AllocError>
    ensures { OnOk result (string_bytes text.new ≡ string_bytes text.old ++ flat_map (issuer_line place) reasons.now) }
{
    for reason in reasons {
        push_no_issuer(text, place, *reason)?;
    }
    Ok(())
}

/// Appends the line of an issuer's name that no certificate and no anchor has.
pub(crate) fn push_missing(
    text: &mut String,
    alloc: Global,
    labels: &Labels,
    place: usize,
    issuer: &[u8],
) -> Result<(), OutOfMemory>
    ensures { OnOk result (string_bytes text.new ≡ string_bytes text.old ++ missing_line place issuer.now) }
{
    write!(text, "at {place} no issuer here: ")?;
    push_name(text, alloc, labels, issuer)?;
    text.push('\n')?;
    Ok(())
}

/// Appends the line of one reason why a list is not used.
fn push_unused(
    text: &mut String,
    place: usize,
    fields: &ListFields<'_>,
    reason: Unused,
) -> Result<(), AllocError>
    ensures { OnOk result (string_bytes text.new ≡ string_bytes text.old ++ unused_line place (list_view fields.now) reason) }
{
    write!(text, "list {place} not used: ")?;
    push_list_words(text, fields, reason)?;
    text.push('\n')?;
    Ok(())
}

/// Appends a line for each of these reasons.
fn push_all_unused(
    text: &mut String,
    place: usize,
    fields: &ListFields<'_>,
    reasons: &[Unused],
) -> Result<(), AllocError>
    ensures { OnOk result (string_bytes text.new ≡ string_bytes text.old ++ flat_map (unused_line place (list_view fields.now)) reasons.now) }
{
    for reason in reasons {
        push_unused(text, place, fields, *reason)?;
    }
    Ok(())
}

/// Appends the first line of a list: its position and its issuer.
fn push_list_name(
    text: &mut String,
    alloc: Global,
    labels: &Labels,
    place: usize,
    issuer: &[u8],
) -> Result<(), OutOfMemory>
    ensures { OnOk result (string_bytes text.new ≡ string_bytes text.old ++ list_line place issuer.now) }
{
    write!(text, "list {place} ")?;
    push_name(text, alloc, labels, issuer)?;
    text.push('\n')?;
    Ok(())
}

/// The lines of a list: none if it is used.
pub(crate) fn push_list(
    text: &mut String,
    alloc: Global,
    labels: &Labels,
    place: usize,
    issuer: &[u8],
    fields: &ListFields<'_>,
    reasons: &[Unused],
) -> Result<(), OutOfMemory>
    ensures { OnOk result (string_bytes text.new ≡ string_bytes text.old ++ list_lines place issuer.now (list_view fields.now) reasons.now) }
{
    if reasons.is_empty() {
        return Ok(());
    }
    push_list_name(text, alloc, labels, place, issuer)?;
    push_all_unused(text, place, fields, reasons)?;
    Ok(())
}
