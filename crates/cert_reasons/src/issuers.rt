//! Why a usable certificate may not issue others (RFC 5280, 6.1.4).

ghost use Rattle.std.specs.Prelude.{◌≡◌, ◌↔◌, [], ℕ, map, IsTrue, IfOk, OnOk};
ghost use Rattle.cert_graph.specs.Entries.{IsAt};
ghost use Rattle.cert_model.specs.Fields.{Extension};
ghost use Rattle.cert_model.specs.View.{ext_view, certificate_view};
ghost use Rattle.cert_model.specs.Extended.{under_ce, key_usage, basic_constraints, SomeUnder};
ghost use Rattle.cert_judge.specs.Judging.{IsAuthority, IsSigner, MayIssue};
ghost use Rattle.cert_reasons.specs.Order.{AreAll, AreUpTo, behind};
ghost use Rattle.cert_reasons.specs.Issuers.{HasIssuerReason, issuer_order};

use cert_judge::{authority_of, is_signer, issuing_of};
use cert_model::fields::{CertFields, ExtField};
use cert_model::identifiers::{KEY_USAGE, NAME_CONSTRAINTS, POLICY_CONSTRAINTS, is_ce};
use std::alloc::{AllocError, Global};

/// Why a usable certificate may not issue others. Extensions are counted from 0.
#[derive(Clone, Copy, Debug, PartialEq, Eq)]
pub enum NoIssuer {
    /// No basicConstraints has cA (RFC 5280, 6.1.4, k).
    NoAuthority,
    /// The extension at this position is keyUsage without keyCertSign (RFC 5280, 6.1.4, n).
    NoCertSigning(usize),
    /// The extension at this position is nameConstraints, which are not processed (RFC 5280, 4.2.1.10).
    NameConstraints(usize),
    /// The extension at this position is policyConstraints, which are not processed (RFC 5280,
    /// 4.2.1.11).
    PolicyConstraints(usize),
}

fn is_no_authority(extensions: &[ExtField<'_>]) -> bool
    ensures { IsTrue result ↔ (SomeUnder basic_constraints IsAuthority (map ext_view extensions.now) → ⊥) }
{
    match authority_of(extensions) {
        Some(_) => false,
        None => true,
    }
}

fn is_no_signer(extension: &ExtField<'_>) -> bool
    ensures { IsTrue result ↔ (((ext_view extension.now).identifier ≡ key_usage) × (IsSigner (ext_view extension.now).value → ⊥)) }
{
    is_ce(extension.identifier, KEY_USAGE) && !is_signer(extension.value)
}

fn has_no_signer(extensions: &[ExtField<'_>], place: usize) -> bool
    ensures { IsTrue result ↔ IsAt (map ext_view extensions.now) place (λ (e : Extension). (e.identifier ≡ key_usage) × (IsSigner e.value → ⊥)) }
{
    match extensions.get(place) {
        Some(extension) => is_no_signer(extension),
        None => false,
    }
}

fn stands_at(extensions: &[ExtField<'_>], place: usize, n: u8) -> bool
    ensures { IsTrue result ↔ IsAt (map ext_view extensions.now) place (λ (e : Extension). e.identifier ≡ under_ce n) }
{
    match extensions.get(place) {
        Some(extension) => is_ce(extension.identifier, n),
        None => false,
    }
}

/// Whether a reason applies to a certificate as an issuer.
pub fn has_issuer_reason(fields: &CertFields<'_>, reason: NoIssuer) -> bool
    ensures { IsTrue result ↔ HasIssuerReason (certificate_view fields.now) reason }
{
    match reason {
        NoIssuer::NoAuthority => is_no_authority(&fields.extensions),
        NoIssuer::NoCertSigning(place) => has_no_signer(&fields.extensions, place),
        NoIssuer::NameConstraints(place) => stands_at(&fields.extensions, place, NAME_CONSTRAINTS),
        NoIssuer::PolicyConstraints(place) => {
            stands_at(&fields.extensions, place, POLICY_CONSTRAINTS)
        }
    }
}

/// Adds a reason, if it applies.
fn add(
    found: &mut Vec<NoIssuer>,
    fields: &CertFields<'_>,
    reason: NoIssuer,
) -> Result<(), AllocError>
    requires { AreUpTo issuer_order (HasIssuerReason (certificate_view fields.now)) (issuer_order reason) found.old.items }
    ensures { OnOk result (AreUpTo issuer_order (HasIssuerReason (certificate_view fields.now)) (behind (issuer_order reason)) found.new.items) }
{
    if has_issuer_reason(fields, reason) {
        found.push(reason)?;
    }
    Ok(())
}

fn add_no_authority(found: &mut Vec<NoIssuer>, fields: &CertFields<'_>) -> Result<(), AllocError>
    requires { AreUpTo issuer_order (HasIssuerReason (certificate_view fields.now)) (0, 0) found.old.items }
    ensures { OnOk result (AreUpTo issuer_order (HasIssuerReason (certificate_view fields.now)) (1, 0) found.new.items) }
{
    add(found, fields, NoIssuer::NoAuthority)?;
    Ok(())
}

fn add_no_cert_signing(found: &mut Vec<NoIssuer>, fields: &CertFields<'_>) -> Result<(), AllocError>
    requires { AreUpTo issuer_order (HasIssuerReason (certificate_view fields.now)) (1, 0) found.old.items }
    ensures { OnOk result (AreUpTo issuer_order (HasIssuerReason (certificate_view fields.now)) (2, 0) found.new.items) }
{
    let extensions = fields.extensions.as_slice();
    for place in 0..extensions.len() {
        add(found, fields, NoIssuer::NoCertSigning(place))?;
    }
    Ok(())
}

fn add_name_constraints(
    found: &mut Vec<NoIssuer>,
    fields: &CertFields<'_>,
) -> Result<(), AllocError>
    requires { AreUpTo issuer_order (HasIssuerReason (certificate_view fields.now)) (2, 0) found.old.items }
    ensures { OnOk result (AreUpTo issuer_order (HasIssuerReason (certificate_view fields.now)) (3, 0) found.new.items) }
{
    let extensions = fields.extensions.as_slice();
    for place in 0..extensions.len() {
        add(found, fields, NoIssuer::NameConstraints(place))?;
    }
    Ok(())
}

fn add_policy_constraints(
    found: &mut Vec<NoIssuer>,
    fields: &CertFields<'_>,
) -> Result<(), AllocError>
    requires { AreUpTo issuer_order (HasIssuerReason (certificate_view fields.now)) (3, 0) found.old.items }
    ensures { OnOk result (AreUpTo issuer_order (HasIssuerReason (certificate_view fields.now)) (4, 0) found.new.items) }
{
    let extensions = fields.extensions.as_slice();
    for place in 0..extensions.len() {
        add(found, fields, NoIssuer::PolicyConstraints(place))?;
    }
    Ok(())
}

fn issues(fields: &CertFields<'_>) -> bool
    ensures { IsTrue result ↔ MayIssue (certificate_view fields.now).extensions }
{
    match issuing_of(&fields.extensions) {
        Some(_) => true,
        None => false,
    }
}

/// The reasons why a usable certificate may not issue others. Exactly those that apply, in their order;
/// none if it may.
///
/// The only error is out of memory. It costs one pass over the extensions for each kind of reason.
pub fn why_no_issuer(alloc: Global, fields: &CertFields<'_>) -> Result<Vec<NoIssuer>, AllocError>
    ensures all { IfOk result (λ found. AreAll issuer_order (HasIssuerReason (certificate_view fields.now)) found.items) }
    ensures none { IfOk result (λ found. (found.items ≡ []) ↔ MayIssue (certificate_view fields.now).extensions) }
{
    let mut found = Vec::new(alloc);
    if issues(fields) {
        return Ok(found);
    }
    add_no_authority(&mut found, fields)?;
    add_no_cert_signing(&mut found, fields)?;
    add_name_constraints(&mut found, fields)?;
    add_policy_constraints(&mut found, fields)?;
    Ok(found)
}
