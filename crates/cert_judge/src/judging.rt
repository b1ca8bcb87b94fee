//! Which certificates may be in a path, and which may issue others (RFC 5280, 6.1.3 and 6.1.4):
//! judged from the fields of each by itself.

ghost use Rattle.std.specs.Prelude.{◌≡◌, ◌≢◌, ◌↔◌, ℕ, List, map, option_map, All, true, IsTrue, IfSome, IsNone, IfOk, length};
ghost use Rattle.cert_model.specs.View.{ext_view, time_view, certificate_view};
ghost use Rattle.cert_model.specs.Extended.{under_ce, basic_constraints, key_usage, name_constraints, policy_constraints, EachUnder, SomeUnder, IsWithout};
ghost use Rattle.cert_judge.specs.Further.{any_identifier, no_identifier, AreFurther};
ghost use Rattle.cert_judge.specs.Judging.{HasConstraints, HasUsage, IsJudgedHere, IsProcessed, IsAuthority, HasPathLen, IsSigner, IsAuthorityExtension, IsPathLenExtension, AreUsable, IsUsable, MayIssue, IsFitIssuer};

use crate::Vouch;
use crate::constraints::constraints_of;
use crate::distinct::are_distinct;
use crate::moments::is_between;
use crate::usage::signs_by;
use cert_model::fields::{CertFields, ExtField};
use cert_model::identifiers::{
    BASIC_CONSTRAINTS, KEY_USAGE, NAME_CONSTRAINTS, POLICY_CONSTRAINTS, is_ce,
};
use jiff::civil::DateTime;
use std::alloc::{AllocError, Global};

/// Whether extensions of this identifier are judged here.
fn is_judged_here(identifier: &[u8]) -> bool
    ensures { IsTrue result ↔ IsJudgedHere identifier.now }
{
    is_ce(identifier, BASIC_CONSTRAINTS) || is_ce(identifier, KEY_USAGE)
}

/// Whether an extension of an item is not critical, is one that is judged here, or is processed by
/// the caller (RFC 5280, 6.1.4, o).
#[tactic(auto, unfolding(crate::specs::Judging::IsProcessed))]
pub fn is_processed<V: Vouch>(extension: &ExtField<'_>, vouch: &V, item: &[u8]) -> bool
    ensures { IsTrue result ↔ IsProcessed ((V.vouches_for vouch.now).Processes item.now) (ext_view extension.now) }
{
    if !extension.critical {
        return true;
    }
    if is_judged_here(extension.identifier) {
        return true;
    }
    vouch.processes(item, extension.identifier)
}

/// Whether each extension of an item is processed, as `is_processed` says of one.
pub fn are_processed<V: Vouch>(extensions: &[ExtField<'_>], vouch: &V, item: &[u8]) -> bool
    ensures { IsTrue result ↔ All (IsProcessed ((V.vouches_for vouch.now).Processes item.now)) (map ext_view extensions.now) }
{
    extensions
        .iter()
        .all(|extension| is_processed(extension, vouch, item))
}

/// Whether an extension is not critical, or is one that is judged here.
#[tactic(auto, unfolding(crate::specs::Judging::IsProcessed))]
fn is_processed_here(extension: &ExtField<'_>) -> bool
    ensures { IsTrue result ↔ IsProcessed no_identifier (ext_view extension.now) }
{
    if !extension.critical {
        return true;
    }
    is_judged_here(extension.identifier)
}

/// The identifiers of the critical extensions that aren't judged here: whether they are processed
/// is the caller's.
pub(crate) fn further_of<'a>(
    alloc: Global,
    extensions: &[ExtField<'a>],
) -> Result<Vec<&'a [u8]>, AllocError>
    ensures { IfOk result (λ further. AreFurther (map ext_view extensions.now) (map (λ s. s.now) further.items)) }
{
    let mut further = Vec::new(alloc);
    for extension in extensions {
        if !is_processed_here(extension) {
            further.push(extension.identifier)?;
        }
    }
    Ok(further)
}

/// Whether an extension value is that of basicConstraints in its one spelling (RFC 5280, 4.2.1.9).
pub fn has_constraints(value: &[u8]) -> bool
    ensures { IsTrue result ↔ HasConstraints value.now }
{
    constraints_of(value).is_some()
}

/// Whether an extension value is that of keyUsage in its one spelling (RFC 5280, 4.2.1.3).
pub fn has_usage(value: &[u8]) -> bool
    ensures { IsTrue result ↔ HasUsage value.now }
{
    signs_by(value).is_some()
}

/// Whether an extension value is that of keyUsage, with keyCertSign (RFC 5280, 4.2.1.3).
pub fn is_signer(value: &[u8]) -> bool
    ensures { IsTrue result ↔ IsSigner value.now }
{
    match signs_by(value) {
        Some(signs) => signs,
        None => false,
    }
}

fn is_constrained(extension: &ExtField<'_>) -> bool
    ensures { IsTrue result ↔ ((ext_view extension.now).identifier ≡ basic_constraints → HasConstraints (ext_view extension.now).value) }
{
    !is_ce(extension.identifier, BASIC_CONSTRAINTS) || has_constraints(extension.value)
}

fn are_constrained(extensions: &[ExtField<'_>]) -> bool
    ensures { IsTrue result ↔ EachUnder basic_constraints HasConstraints (map ext_view extensions.now) }
{
    extensions.iter().all(|extension| is_constrained(extension))
}

fn is_used(extension: &ExtField<'_>) -> bool
    ensures { IsTrue result ↔ ((ext_view extension.now).identifier ≡ key_usage → HasUsage (ext_view extension.now).value) }
{
    !is_ce(extension.identifier, KEY_USAGE) || has_usage(extension.value)
}

fn are_used(extensions: &[ExtField<'_>]) -> bool
    ensures { IsTrue result ↔ EachUnder key_usage HasUsage (map ext_view extensions.now) }
{
    extensions.iter().all(|extension| is_used(extension))
}

fn may_sign(extension: &ExtField<'_>) -> bool
    ensures { IsTrue result ↔ ((ext_view extension.now).identifier ≡ key_usage → IsSigner (ext_view extension.now).value) }
{
    !is_ce(extension.identifier, KEY_USAGE) || is_signer(extension.value)
}

fn are_signers(extensions: &[ExtField<'_>]) -> bool
    ensures { IsTrue result ↔ EachUnder key_usage IsSigner (map ext_view extensions.now) }
{
    extensions.iter().all(|extension| may_sign(extension))
}

fn is_without(extensions: &[ExtField<'_>], n: u8) -> bool
    ensures { IsTrue result ↔ IsWithout (under_ce n) (map ext_view extensions.now) }
{
    extensions
        .iter()
        .all(|extension| !is_ce(extension.identifier, n))
}

#[tactic(auto, unfolding(crate::specs::Judging::IsAuthorityExtension, crate::specs::Judging::IsPathLenExtension))]
fn authority_in(extension: &ExtField<'_>) -> Option<Option<u32>>
    ensures found { IfSome result (λ n. IsPathLenExtension n (ext_view extension.now)) }
    ensures only { IsNone result → IsAuthorityExtension (ext_view extension.now) → ⊥ }
{
    if !is_ce(extension.identifier, BASIC_CONSTRAINTS) {
        return None;
    }
    let constraints = constraints_of(extension.value)?;
    if constraints.ca {
        Some(constraints.path_len)
    } else {
        None
    }
}

/// The path length constraint in the first basicConstraints of an authority (RFC 5280, 4.2.1.9):
/// `None` if there is no authority, `Some(None)` if it bounds nothing. A step for each extension.
pub fn authority_of(extensions: &[ExtField<'_>]) -> Option<Option<u32>>
    ensures found { IfSome result (λ n. SomeUnder basic_constraints (HasPathLen n) (map ext_view extensions.now)) }
    ensures only { IsNone result → SomeUnder basic_constraints IsAuthority (map ext_view extensions.now) → ⊥ }
{
    for extension in extensions {
        if let Some(limit) = authority_in(extension) {
            return Some(limit);
        }
    }
    None
}

/// Whether extensions let a certificate be in a path, if the further critical ones are
/// processed.
fn are_usable(alloc: Global, extensions: &[ExtField<'_>]) -> Result<bool, AllocError>
    ensures { IfOk result (λ yes. IsTrue yes ↔ AreUsable any_identifier (map ext_view extensions.now)) }
{
    if !are_constrained(extensions) {
        return Ok(false);
    }
    if !are_used(extensions) {
        return Ok(false);
    }
    are_distinct(alloc, extensions)
}

/// Whether a certificate may be in a path at a moment, if its further critical extensions are
/// processed.
pub(crate) fn is_usable(
    alloc: Global,
    fields: &CertFields<'_>,
    moment: &DateTime,
) -> Result<bool, AllocError>
    ensures { IfOk result (λ yes. IsTrue yes ↔ IsUsable any_identifier (time_view moment.now) (certificate_view fields.now)) }
{
    if !is_between(&fields.not_before, moment, &fields.not_after) {
        return Ok(false);
    }
    let usable = are_usable(alloc, &fields.extensions)?;
    Ok(usable)
}

/// Whether extensions let a usable certificate issue others (RFC 5280, 6.1.4, k and n), and its
/// path length constraint: `None` if they don't, `Some(None)` if they bound nothing. Extensions
/// that restrict names or policies don't let it, since nothing here processes them. Some steps for
/// each extension.
pub fn issuing_of(extensions: &[ExtField<'_>]) -> Option<Option<u32>>
    ensures found { IfSome result (λ n. MayIssue (map ext_view extensions.now) × SomeUnder basic_constraints (HasPathLen n) (map ext_view extensions.now)) }
    ensures only { IsNone result → MayIssue (map ext_view extensions.now) → ⊥ }
{
    if !are_signers(extensions) {
        return None;
    }
    if !is_without(extensions, NAME_CONSTRAINTS) {
        return None;
    }
    if !is_without(extensions, POLICY_CONSTRAINTS) {
        return None;
    }
    let limit = authority_of(extensions)?;
    Some(limit)
}

/// What is judged of a certificate by itself, as if the caller processed its critical extensions
/// beside those that are judged here. `are_processed` says whether the caller does.
#[derive(Clone, Copy, Debug)]
pub struct Judged {
    /// It may be in a path.
    pub usable: bool,
    /// It may issue others.
    pub fit: bool,
    /// The path length constraint of a fit certificate.
    pub limit: Option<u32>,
    ghost fit_is_usable: { IsTrue fit → IsTrue usable },
}

/// Judges a certificate by itself at a moment in UTC (RFC 5280, 6.1.3, a 2, and 6.1.4, k to o). The
/// only error is out of memory, for a sorted set of its extensions.
pub fn judge_certificate(
    alloc: Global,
    fields: &CertFields<'_>,
    moment: &DateTime,
) -> Result<Judged, AllocError>
    ensures usable { IfOk result (λ j. IsTrue j.usable ↔ IsUsable any_identifier (time_view moment.now) (certificate_view fields.now)) }
    ensures fit { IfOk result (λ j. IsTrue j.fit ↔ IsFitIssuer any_identifier (time_view moment.now) (certificate_view fields.now)) }
    ensures limit { IfOk result (λ j. IsTrue j.fit → SomeUnder basic_constraints (HasPathLen j.limit) (certificate_view fields.now).extensions) }
{
    let usable = is_usable(alloc, fields, moment)?;
    match issuing_of(&fields.extensions) {
        Some(limit) => Ok(Judged {
            usable,
            fit: usable,
            limit,
        }),
        None => Ok(Judged {
            usable,
            fit: false,
            limit: None,
        }),
    }
}
