//! The lines of a certificate that doesn't meet what is demanded.

ghost use Rattle.std.specs.Prelude.{◌≡◌, ◌↔◌, ◌<◌, ◌++◌, Some, IsTrue, OnOk, length, map, codes, string_bytes};
ghost use Rattle.cert_judge.specs.Items.{item_of, certificate_of, certificate_item};
ghost use Rattle.cert_purpose.specs.Purposes.{Allows};
ghost use Rattle.cert_serving.specs.Demanding.{AllowsIt, ServesIt};
ghost use Rattle.cert_serving.specs.Serving.{Serves};
ghost use Rattle.certpath_inputs.specs.Demands.{demanded};
ghost use Rattle.certpath_why.specs.Appended.{Appends};
ghost use Rattle.certpath_why.specs.Demanded.{IsPurposeLine, IsHostLine, IsLineUnless, AreDemandLines};
ghost use Rattle.certpath_why.specs.Lines.{at_words};
ghost use Rattle.certpath_why.specs.Why.{octets_at};
ghost use Rattle.host_names.specs.Asked.{host_view};

use crate::hosts::push_hosts;
use crate::uses::push_uses;
use asn1_core::OutOfMemory;
use cert_judge::{CertificateItem, ReadItem};
use cert_purpose::allows;
use cert_serving::serves;
use certpath_inputs::{AskedHost, AskedPurpose, Demand};
use std::alloc::{AllocError, Global};

/// What is demanded of the paths from a target.
#[derive(Clone, Copy)]
pub(crate) struct Sought<'b, 'a> {
    /// A purpose, a host, both or neither.
    pub(crate) demand: &'b Demand<'a>,
    /// The octets of the target.
    pub(crate) target: &'b [u8],
}

/// Returns the octets of an item.
pub(crate) fn octets_of<'a>(item: &ReadItem<'a>) -> &'a [u8]
    ensures { result.now ≡ (item_of item.now).octets }
{
    match item {
        ReadItem::Certificate(certificate) => certificate.octets,
        ReadItem::List(list) => list.octets,
        ReadItem::Other(octets) => octets,
    }
}

/// Returns the octets of the item at a position that there is.
fn octets_there<'a>(items: &[ReadItem<'a>], place: usize) -> &'a [u8]
    requires { place < length items.now }
    ensures { result.now ≡ octets_at (map item_of items.now) place }
{
    octets_of(&items[place])
}

/// The octets of the item at a position; none if there is none.
pub(crate) fn octets_at<'a>(items: &[ReadItem<'a>], place: usize) -> &'a [u8]
    ensures { result.now ≡ octets_at (map item_of items.now) place }
{
    if place < items.len() {
        octets_there(items, place)
    } else {
        &[]
    }
}

/// Appends what a line of an unmet purpose begins with.
fn push_not_for(text: &mut String, place: usize, shown: &str) -> Result<(), AllocError>
    ensures { OnOk result (string_bytes text.new ≡ string_bytes text.old ++ (at_words place ++ (codes " isn't for " ++ (shown.now ++ codes ": ")))) }
{
    write!(text, "at {place} isn't for {shown}: ")
}

/// Appends what a line of an unmet host begins with.
fn push_not_serving(text: &mut String, place: usize, shown: &str) -> Result<(), AllocError>
    ensures { OnOk result (string_bytes text.new ≡ string_bytes text.old ++ (at_words place ++ (codes " doesn't serve " ++ (shown.now ++ codes ": ")))) }
{
    write!(text, "at {place} doesn't serve {shown}: ")
}

/// The line of a purpose that a certificate doesn't allow.
fn push_unallowed(
    text: &mut String,
    alloc: Global,
    purpose: &AskedPurpose<'_>,
    place: usize,
    certificate: &CertificateItem<'_>,
) -> Result<(), OutOfMemory>
    ensures { OnOk result (Appends (IsLineUnless (Allows purpose.now.identifier.now (certificate_of certificate.now).extensions)
        (IsPurposeLine place (Some purpose.now) (certificate_of certificate.now).extensions)) (string_bytes text.old) (string_bytes text.new)) }
{
    if allows(&certificate.fields.extensions, purpose.identifier) {
        return Ok(());
    }
    push_not_for(text, place, purpose.shown)?;
    push_uses(text, alloc, &certificate.fields.extensions)?;
    text.push('\n')?;
    Ok(())
}

/// The line of a host that a certificate doesn't serve.
fn push_unserved(
    text: &mut String,
    alloc: Global,
    host: &AskedHost<'_>,
    place: usize,
    certificate: &CertificateItem<'_>,
) -> Result<(), OutOfMemory>
    ensures { OnOk result (Appends (IsLineUnless (Serves (host_view host.now.host) (certificate_of certificate.now).extensions)
        (IsHostLine place (Some host.now) (certificate_of certificate.now).extensions)) (string_bytes text.old) (string_bytes text.new)) }
{
    if serves(&certificate.fields.extensions, &host.host) {
        return Ok(());
    }
    push_not_serving(text, place, host.shown)?;
    push_hosts(text, alloc, &certificate.fields.extensions)?;
    text.push('\n')?;
    Ok(())
}

/// The line of the purpose, if one is demanded.
fn push_unmet_purpose(
    text: &mut String,
    alloc: Global,
    sought: &Sought<'_, '_>,
    place: usize,
    certificate: &CertificateItem<'_>,
) -> Result<(), OutOfMemory>
    ensures { OnOk result (Appends (IsLineUnless (AllowsIt (demanded sought.now.demand.now sought.now.target.now) (certificate_of certificate.now).extensions)
        (IsPurposeLine place sought.now.demand.now.purpose (certificate_of certificate.now).extensions)) (string_bytes text.old) (string_bytes text.new)) }
{
    let Some(purpose) = &sought.demand.purpose else {
        return Ok(());
    };
    push_unallowed(text, alloc, purpose, place, certificate)?;
    Ok(())
}

/// Whether a certificate is the target: it has its octets.
fn is_target(octets: &[u8], target: &[u8]) -> bool
    ensures { IsTrue result ↔ (octets.now ≡ target.now) }
{
    octets == target
}

/// The line of the host, if one is demanded of the certificate.
fn push_unmet_host(
    text: &mut String,
    alloc: Global,
    sought: &Sought<'_, '_>,
    place: usize,
    certificate: &CertificateItem<'_>,
) -> Result<(), OutOfMemory>
    ensures { OnOk result (Appends (IsLineUnless (certificate.now.octets.now ≡ sought.now.target.now → ServesIt (demanded sought.now.demand.now sought.now.target.now) (certificate_of certificate.now).extensions)
        (IsHostLine place sought.now.demand.now.host (certificate_of certificate.now).extensions)) (string_bytes text.old) (string_bytes text.new)) }
{
    let Some(host) = &sought.demand.host else {
        return Ok(());
    };
    if is_target(certificate.octets, sought.target) {
        push_unserved(text, alloc, host, place, certificate)?;
        return Ok(());
    }
    Ok(())
}

/// The lines of what a certificate doesn't meet.
pub(crate) fn push_unmet(
    text: &mut String,
    alloc: Global,
    sought: &Sought<'_, '_>,
    place: usize,
    certificate: &CertificateItem<'_>,
) -> Result<(), OutOfMemory>
    ensures { OnOk result (Appends (AreDemandLines sought.now.demand.now sought.now.target.now place (certificate_item certificate.now) (certificate_of certificate.now))
        (string_bytes text.old) (string_bytes text.new)) }
{
    if sought.demand.is_none() {
        return Ok(());
    }
    push_unmet_purpose(text, alloc, sought, place, certificate)?;
    push_unmet_host(text, alloc, sought, place, certificate)?;
    Ok(())
}
