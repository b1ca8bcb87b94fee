//! Why a certificate is not usable (RFC 5280, 6.1.3 and 6.1.4).

ghost use Rattle.std.specs.Prelude.{◌≡◌, ◌↔◌, ◌⊎◌, ◌++◌, [], ◌∷◌, ℕ, List, map, take, Any, IsTrue, IfOk, OnOk, if◌then◌else◌, length};
ghost use Rattle.cert_graph.specs.Entries.{IsAt};
ghost use Rattle.cert_model.specs.Fields.{Extension};
ghost use Rattle.cert_model.specs.View.{ext_view, time_view, certificate_view};
ghost use Rattle.cert_model.specs.Extended.{basic_constraints, key_usage};
ghost use Rattle.cert_judge.specs.Judging.{HasConstraints, HasUsage, IsProcessed, IsUsable};
ghost use Rattle.cert_reasons.specs.Order.{AreAll, AreUpTo, behind};
ghost use Rattle.cert_reasons.specs.Certificates.{IsRepeat, HasReason, order_of};

use crate::repeats::repeats_of;
use cert_judge::{
    Vouch, are_processed, has_constraints, has_usage, is_not_after, is_processed, judge_certificate,
};
use cert_model::fields::{CertFields, ExtField};
use cert_model::identifiers::{BASIC_CONSTRAINTS, KEY_USAGE, is_ce};
use jiff::civil::DateTime;
use std::alloc::{AllocError, Global};

/// Why a certificate may not be in a path at a moment. Extensions are counted from 0.
#[derive(Clone, Copy, Debug, PartialEq, Eq)]
pub enum Unusable {
    /// Its notBefore is later than the moment (RFC 5280, 4.1.2.5).
    NotYetValid,
    /// Its notAfter is earlier than the moment (RFC 5280, 4.1.2.5).
    Expired,
    /// An extension of its identifier comes before the one at this position (RFC 5280, 4.2).
    Repeats(usize),
    /// The extension at this position is critical, and neither one that is judged here nor one that the
    /// caller processes (RFC 5280, 6.1.4, o).
    Unprocessed(usize),
    /// The extension at this position is basicConstraints, and its value is not in the one spelling of
    /// DER (RFC 5280, 4.2.1.9).
    BadConstraints(usize),
    /// The extension at this position is keyUsage, and its value is not in the one spelling of DER
    /// (RFC 5280, 4.2.1.3).
    BadUsage(usize),
}

fn is_named(extension: &ExtField<'_>, identifier: &[u8]) -> bool
    ensures { IsTrue result ↔ ((ext_view extension.now).identifier ≡ identifier.now) }
{
    extension.identifier == identifier
}

fn has_named(extensions: &[ExtField<'_>], identifier: &[u8]) -> bool
    ensures { IsTrue result ↔ Any (λ (e : Extension). e.identifier ≡ identifier.now) (map ext_view extensions.now) }
{
    for extension in extensions {
        if is_named(extension, identifier) {
            return true;
        }
    }
    false
}

fn is_repeat(extensions: &[ExtField<'_>], place: usize) -> bool
    ensures { IsTrue result ↔ IsRepeat (map ext_view extensions.now) place }
{
    match extensions.get(place) {
        Some(extension) => has_named(&extensions[..place], extension.identifier),
        None => false,
    }
}

fn is_unprocessed<V: Vouch>(
    extensions: &[ExtField<'_>],
    vouch: &V,
    item: &[u8],
    place: usize,
) -> bool
    ensures { IsTrue result ↔ IsAt (map ext_view extensions.now) place (λ (e : Extension). IsProcessed ((V.vouches_for vouch.now).Processes item.now) e → ⊥) }
{
    match extensions.get(place) {
        Some(extension) => !is_processed(extension, vouch, item),
        None => false,
    }
}

fn is_bad_constraints(extension: &ExtField<'_>) -> bool
    ensures { IsTrue result ↔ (((ext_view extension.now).identifier ≡ basic_constraints) × (HasConstraints (ext_view extension.now).value → ⊥)) }
{
    is_ce(extension.identifier, BASIC_CONSTRAINTS) && !has_constraints(extension.value)
}

fn has_bad_constraints(extensions: &[ExtField<'_>], place: usize) -> bool
    ensures { IsTrue result ↔ IsAt (map ext_view extensions.now) place (λ (e : Extension). (e.identifier ≡ basic_constraints) × (HasConstraints e.value → ⊥)) }
{
    match extensions.get(place) {
        Some(extension) => is_bad_constraints(extension),
        None => false,
    }
}

fn is_bad_usage(extension: &ExtField<'_>) -> bool
    ensures { IsTrue result ↔ (((ext_view extension.now).identifier ≡ key_usage) × (HasUsage (ext_view extension.now).value → ⊥)) }
{
    is_ce(extension.identifier, KEY_USAGE) && !has_usage(extension.value)
}

fn has_bad_usage(extensions: &[ExtField<'_>], place: usize) -> bool
    ensures { IsTrue result ↔ IsAt (map ext_view extensions.now) place (λ (e : Extension). (e.identifier ≡ key_usage) × (HasUsage e.value → ⊥)) }
{
    match extensions.get(place) {
        Some(extension) => is_bad_usage(extension),
        None => false,
    }
}

/// Whether a reason applies to a certificate at a moment, by what is processed in the item that it
/// is, given by its octets.
pub fn has_reason<V: Vouch>(
    fields: &CertFields<'_>,
    vouch: &V,
    item: &[u8],
    moment: &DateTime,
    reason: Unusable,
) -> bool
    ensures { IsTrue result ↔ HasReason ((V.vouches_for vouch.now).Processes item.now) (time_view moment.now) (certificate_view fields.now) reason }
{
    match reason {
        Unusable::NotYetValid => !is_not_after(&fields.not_before, moment),
        Unusable::Expired => !is_not_after(moment, &fields.not_after),
        Unusable::Repeats(place) => is_repeat(&fields.extensions, place),
        Unusable::Unprocessed(place) => is_unprocessed(&fields.extensions, vouch, item, place),
        Unusable::BadConstraints(place) => has_bad_constraints(&fields.extensions, place),
        Unusable::BadUsage(place) => has_bad_usage(&fields.extensions, place),
    }
}

/// Adds a reason, if it applies.
fn add_if<V: Vouch>(
    found: &mut Vec<Unusable>,
    fields: &CertFields<'_>,
    vouch: &V,
    item: &[u8],
    moment: &DateTime,
    reason: Unusable,
    applies: bool,
) -> Result<(), AllocError>
    requires applies { IsTrue applies ↔ HasReason ((V.vouches_for vouch.now).Processes item.now) (time_view moment.now) (certificate_view fields.now) reason }
    requires before { AreUpTo order_of (HasReason ((V.vouches_for vouch.now).Processes item.now) (time_view moment.now) (certificate_view fields.now)) (order_of reason) found.old.items }
    ensures { OnOk result (AreUpTo order_of (HasReason ((V.vouches_for vouch.now).Processes item.now) (time_view moment.now) (certificate_view fields.now)) (behind (order_of reason)) found.new.items) }
{
    if applies {
        found.push(reason)?;
    }
    Ok(())
}

/// Adds a reason, if it is found to apply.
fn add<V: Vouch>(
    found: &mut Vec<Unusable>,
    fields: &CertFields<'_>,
    vouch: &V,
    item: &[u8],
    moment: &DateTime,
    reason: Unusable,
) -> Result<(), AllocError>
    requires { AreUpTo order_of (HasReason ((V.vouches_for vouch.now).Processes item.now) (time_view moment.now) (certificate_view fields.now)) (order_of reason) found.old.items }
    ensures { OnOk result (AreUpTo order_of (HasReason ((V.vouches_for vouch.now).Processes item.now) (time_view moment.now) (certificate_view fields.now)) (behind (order_of reason)) found.new.items) }
{
    let applies = has_reason(fields, vouch, item, moment, reason);
    add_if(found, fields, vouch, item, moment, reason, applies)?;
    Ok(())
}

fn add_moments<V: Vouch>(
    found: &mut Vec<Unusable>,
    fields: &CertFields<'_>,
    vouch: &V,
    item: &[u8],
    moment: &DateTime,
) -> Result<(), AllocError>
    requires { AreUpTo order_of (HasReason ((V.vouches_for vouch.now).Processes item.now) (time_view moment.now) (certificate_view fields.now)) (0, 0) found.old.items }
    ensures { OnOk result (AreUpTo order_of (HasReason ((V.vouches_for vouch.now).Processes item.now) (time_view moment.now) (certificate_view fields.now)) (2, 0) found.new.items) }
{
    add(found, fields, vouch, item, moment, Unusable::NotYetValid)?;
    add(found, fields, vouch, item, moment, Unusable::Expired)?;
    Ok(())
}

fn add_repeats<V: Vouch>(
    found: &mut Vec<Unusable>,
    alloc: Global,
    fields: &CertFields<'_>,
    vouch: &V,
    item: &[u8],
    moment: &DateTime,
) -> Result<(), AllocError>
    requires { AreUpTo order_of (HasReason ((V.vouches_for vouch.now).Processes item.now) (time_view moment.now) (certificate_view fields.now)) (2, 0) found.old.items }
    ensures { OnOk result (AreUpTo order_of (HasReason ((V.vouches_for vouch.now).Processes item.now) (time_view moment.now) (certificate_view fields.now)) (3, 0) found.new.items) }
{
    let repeats = repeats_of(alloc, &fields.extensions)?;
    for place in 0..repeats.len() {
        let applies = repeats[place];
        add_if(
            found,
            fields,
            vouch,
            item,
            moment,
            Unusable::Repeats(place),
            applies,
        )?;
    }
    Ok(())
}

fn add_unprocessed<V: Vouch>(
    found: &mut Vec<Unusable>,
    fields: &CertFields<'_>,
    vouch: &V,
    item: &[u8],
    moment: &DateTime,
) -> Result<(), AllocError>
    requires { AreUpTo order_of (HasReason ((V.vouches_for vouch.now).Processes item.now) (time_view moment.now) (certificate_view fields.now)) (3, 0) found.old.items }
    ensures { OnOk result (AreUpTo order_of (HasReason ((V.vouches_for vouch.now).Processes item.now) (time_view moment.now) (certificate_view fields.now)) (4, 0) found.new.items) }
{
    let extensions = fields.extensions.as_slice();
    for place in 0..extensions.len() {
        add(
            found,
            fields,
            vouch,
            item,
            moment,
            Unusable::Unprocessed(place),
        )?;
    }
    Ok(())
}

fn add_bad_constraints<V: Vouch>(
    found: &mut Vec<Unusable>,
    fields: &CertFields<'_>,
    vouch: &V,
    item: &[u8],
    moment: &DateTime,
) -> Result<(), AllocError>
    requires { AreUpTo order_of (HasReason ((V.vouches_for vouch.now).Processes item.now) (time_view moment.now) (certificate_view fields.now)) (4, 0) found.old.items }
    ensures { OnOk result (AreUpTo order_of (HasReason ((V.vouches_for vouch.now).Processes item.now) (time_view moment.now) (certificate_view fields.now)) (5, 0) found.new.items) }
{
    let extensions = fields.extensions.as_slice();
    for place in 0..extensions.len() {
        add(
            found,
            fields,
            vouch,
            item,
            moment,
            Unusable::BadConstraints(place),
        )?;
    }
    Ok(())
}

fn add_bad_usage<V: Vouch>(
    found: &mut Vec<Unusable>,
    fields: &CertFields<'_>,
    vouch: &V,
    item: &[u8],
    moment: &DateTime,
) -> Result<(), AllocError>
    requires { AreUpTo order_of (HasReason ((V.vouches_for vouch.now).Processes item.now) (time_view moment.now) (certificate_view fields.now)) (5, 0) found.old.items }
    ensures { OnOk result (AreUpTo order_of (HasReason ((V.vouches_for vouch.now).Processes item.now) (time_view moment.now) (certificate_view fields.now)) (6, 0) found.new.items) }
{
    let extensions = fields.extensions.as_slice();
    for place in 0..extensions.len() {
        add(
            found,
            fields,
            vouch,
            item,
            moment,
            Unusable::BadUsage(place),
        )?;
    }
    Ok(())
}

/// Whether a certificate is usable at a moment, by what is processed in the item that it is.
fn is_usable<V: Vouch>(
    alloc: Global,
    fields: &CertFields<'_>,
    vouch: &V,
    item: &[u8],
    moment: &DateTime,
) -> Result<bool, AllocError>
    ensures { IfOk result (λ yes. IsTrue yes ↔ IsUsable ((V.vouches_for vouch.now).Processes item.now) (time_view moment.now) (certificate_view fields.now)) }
{
    let judged = judge_certificate(alloc, fields, moment)?;
    if judged.usable {
        return Ok(are_processed(&fields.extensions, vouch, item));
    }
    Ok(false)
}

/// The reasons why a certificate may not be in a path at a moment, by what is processed in the item
/// that it is, given by its octets. Exactly those that apply, in their order; none if it is usable.
///
/// The only error is out of memory. A certificate that isn't usable costs as many comparisons of
/// identifiers as a sorted set of those of its extensions, and three passes over them.
pub fn why_unusable<V: Vouch>(
    alloc: Global,
    fields: &CertFields<'_>,
    vouch: &V,
    item: &[u8],
    moment: &DateTime,
) -> Result<Vec<Unusable>, AllocError>
    ensures all { IfOk result (λ found. AreAll order_of (HasReason ((V.vouches_for vouch.now).Processes item.now) (time_view moment.now) (certificate_view fields.now)) found.items) }
    ensures none { IfOk result (λ found. (found.items ≡ []) ↔ IsUsable ((V.vouches_for vouch.now).Processes item.now) (time_view moment.now) (certificate_view fields.now)) }
{
    let mut found = Vec::new(alloc);
    let usable = is_usable(alloc, fields, vouch, item, moment)?;
    if usable {
        return Ok(found);
    }
    add_moments(&mut found, fields, vouch, item, moment)?;
    add_repeats(&mut found, alloc, fields, vouch, item, moment)?;
    add_unprocessed(&mut found, fields, vouch, item, moment)?;
    add_bad_constraints(&mut found, fields, vouch, item, moment)?;
    add_bad_usage(&mut found, fields, vouch, item, moment)?;
    Ok(found)
}
