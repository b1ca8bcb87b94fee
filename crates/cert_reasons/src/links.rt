//! Why a certificate is not linked to an issuer or an anchor (RFC 5280, 6.1.3).

ghost use Rattle.std.specs.Prelude.{◌≡◌, ◌↔◌, [], map, Any, IsTrue, IfOk, OnOk, true, false};
ghost use Rattle.std.specs.List.Sorted.{IsStrictlyIncreasing};
ghost use Rattle.cert_model.specs.Octets.{name_octets};
ghost use Rattle.cert_judge.specs.ItemGraph.{KeyIdsAgree, IsIssuedUnder, IsLink, IsAnchorLink};
ghost use Rattle.cert_judge.specs.Items.{certificate_of, certificate_item, item_of, rules_by};
ghost use Rattle.cert_reasons.specs.Order.{AreAll, AreUpTo, behind};
ghost use Rattle.cert_reasons.specs.Links.{HasLinkReason, link_order};
ghost use Rattle.cert_reasons.specs.Listed.{AreListed, IsVouchedAt};
ghost use Rattle.cert_reasons.specs.Found.{HasFoundReason};

use crate::listed::{Listed, has_vouched, listed_among, places_below, vouched_among};
use cert_judge::{CertificateItem, Policy, ReadItem, Vouch};
use std::alloc::{AllocError, Global};

/// Why a certificate is not linked to an issuer or anchor whose subject is its issuer. Items are counted
/// from 0.
#[derive(Clone, Copy, Debug, PartialEq, Eq)]
pub enum Unlinked {
    /// No voucher says that the issuer's key signed it (RFC 5280, 6.1.3, a 1).
    NotVouched,
    /// The key identifier of its issuer that it names is another than the issuer's own (RFC 5280,
    /// 4.2.1.1 and 4.2.1.2).
    KeyIdsDiffer,
    /// The item at this position is a list that is used, with an entry of its serial number (RFC 5280,
    /// 6.1.3, a 3).
    RevokedBy(usize),
    /// Lists are demanded, and none is used.
    NoUsedList,
}

/// A name and key under which a certificate may have been issued, and whether the key identifiers agree.
#[derive(Clone, Copy)]
pub(crate) struct Signer<'b> {
    pub(crate) name: &'b [u8],
    pub(crate) key: &'b [u8],
    pub(crate) agree: bool,
}

/// What was found of a link: its reasons follow from it.
#[derive(Clone, Copy)]
struct Findings<'b> {
    vouched: bool,
    agree: bool,
    /// The places of the lists that are used and have an entry of the serial number.
    revoking: &'b [usize],
    /// Lists are demanded, and none is used.
    lacking: bool,
}

fn are_equal(named: &[u8], own: &[u8]) -> bool
    ensures { IsTrue result ↔ (named.now ≡ own.now) }
{
    named == own
}

/// Whether the key identifier that a certificate names for its issuer is the issuer's own, or one is
/// missing.
pub(crate) fn agree_on_key_id(
    certificate: &CertificateItem<'_>,
    issuer: &CertificateItem<'_>,
) -> bool
    ensures { IsTrue result ↔ KeyIdsAgree (certificate_of certificate.now) (certificate_of issuer.now) }
{
    match certificate.authority_key_id {
        Some(named) => match issuer.subject_key_id {
            Some(own) => are_equal(named, own),
            None => true,
        },
        None => true,
    }
}

/// Adds a reason, if it applies.
fn add(
    found: &mut Vec<Unlinked>,
    findings: &Findings<'_>,
    reason: Unlinked,
    applies: bool,
) -> Result<(), AllocError>
    requires applies { IsTrue applies ↔ HasFoundReason findings.now reason }
    requires before { AreUpTo link_order (HasFoundReason findings.now) (link_order reason) found.old.items }
    ensures { OnOk result (AreUpTo link_order (HasFoundReason findings.now) (behind (link_order reason)) found.new.items) }
{
    if applies {
        found.push(reason)?;
    }
    Ok(())
}

fn add_of_link(found: &mut Vec<Unlinked>, findings: &Findings<'_>) -> Result<(), AllocError>
    requires { AreUpTo link_order (HasFoundReason findings.now) (0, 0) found.old.items }
    ensures { OnOk result (AreUpTo link_order (HasFoundReason findings.now) (2, 0) found.new.items) }
{
    add(found, findings, Unlinked::NotVouched, !findings.vouched)?;
    add(found, findings, Unlinked::KeyIdsDiffer, !findings.agree)?;
    Ok(())
}

fn add_revoking(found: &mut Vec<Unlinked>, findings: &Findings<'_>) -> Result<(), AllocError>
    requires ascends { IsStrictlyIncreasing findings.now.revoking.now }
    requires before { AreUpTo link_order (HasFoundReason findings.now) (2, 0) found.old.items }
    ensures { OnOk result (AreUpTo link_order (HasFoundReason findings.now) (3, 0) found.new.items) }
{
    for place in findings.revoking {
        found.push(Unlinked::RevokedBy(*place))?;
    }
    Ok(())
}

fn add_lacking(found: &mut Vec<Unlinked>, findings: &Findings<'_>) -> Result<(), AllocError>
    requires { AreUpTo link_order (HasFoundReason findings.now) (3, 0) found.old.items }
    ensures { OnOk result (AreUpTo link_order (HasFoundReason findings.now) (4, 0) found.new.items) }
{
    add(found, findings, Unlinked::NoUsedList, findings.lacking)?;
    Ok(())
}

fn reasons_from(alloc: Global, findings: &Findings<'_>) -> Result<Vec<Unlinked>, AllocError>
    requires { IsStrictlyIncreasing findings.now.revoking.now }
    ensures { IfOk result (λ found. AreAll link_order (HasFoundReason findings.now) found.items) }
{
    let mut found = Vec::new(alloc);
    add_of_link(&mut found, findings)?;
    add_revoking(&mut found, findings)?;
    add_lacking(&mut found, findings)?;
    Ok(found)
}

/// Whether lists are demanded and a key vouches for none of some lists.
fn is_lacking<V: Vouch>(
    items: &[ReadItem<'_>],
    lists: &[usize],
    vouch: &V,
    key: &[u8],
    policy: &Policy,
) -> bool
    ensures lacking { IsTrue result → (policy.now.demand_lists ≡ true) × (Any (IsVouchedAt (V.vouches_for vouch.now) items.now key.now) lists.now → ⊥) }
    ensures listed { result ≡ false → policy.now.demand_lists ≡ true → Any (IsVouchedAt (V.vouches_for vouch.now) items.now key.now) lists.now }
{
    if !policy.demands_lists() {
        return false;
    }
    !has_vouched(items, lists, vouch, key)
}

/// The reasons why a certificate is not issued under a name and key, by the lists of that name that
/// are in force and revoke it.
pub(crate) fn why_unlinked_under<V: Vouch>(
    alloc: Global,
    items: &[ReadItem<'_>],
    certificate: &CertificateItem<'_>,
    listed: &Listed<'_>,
    signer: &Signer<'_>,
    vouch: &V,
    policy: &Policy,
) -> Result<Vec<Unlinked>, AllocError>
    requires { AreListed items.now policy.now.moment signer.now.name.now certificate.now.fields.serial.now listed.now }
    ensures all { IfOk result (λ found. AreAll link_order (HasLinkReason (rules_by policy.now.moment policy.now.demand_lists (V.vouches_for vouch.now)) (map item_of items.now) (certificate_item certificate.now) (certificate_of certificate.now) signer.now.name.now signer.now.key.now (IsTrue signer.now.agree)) found.items) }
    ensures none { name_octets (certificate_of certificate.now).issuer ≡ signer.now.name.now → IfOk result (λ found. (found.items ≡ [])
        ↔ (IsIssuedUnder (rules_by policy.now.moment policy.now.demand_lists (V.vouches_for vouch.now)) (map item_of items.now) (certificate_item certificate.now) (certificate_of certificate.now) signer.now.name.now signer.now.key.now × IsTrue signer.now.agree)) }
{
    let against = vouched_among(alloc, items, &listed.revoking, vouch, signer.key)?;
    let revoking = against.as_slice();
    let vouched = vouch.vouches(signer.key, certificate.octets);
    let in_force = listed.in_force.as_slice();
    let lacking = is_lacking(items, in_force, vouch, signer.key, policy);
    let findings = Findings {
        vouched,
        agree: signer.agree,
        revoking,
        lacking,
    };
    let found = reasons_from(alloc, &findings)?;
    Ok(found)
}

/// The reasons by all items, among which the lists of that name are looked for.
fn why_unlinked_among<V: Vouch>(
    alloc: Global,
    items: &[ReadItem<'_>],
    certificate: &CertificateItem<'_>,
    signer: &Signer<'_>,
    vouch: &V,
    policy: &Policy,
) -> Result<Vec<Unlinked>, AllocError>
    ensures all { IfOk result (λ found. AreAll link_order (HasLinkReason (rules_by policy.now.moment policy.now.demand_lists (V.vouches_for vouch.now)) (map item_of items.now) (certificate_item certificate.now) (certificate_of certificate.now) signer.now.name.now signer.now.key.now (IsTrue signer.now.agree)) found.items) }
    ensures none { name_octets (certificate_of certificate.now).issuer ≡ signer.now.name.now → IfOk result (λ found. (found.items ≡ [])
        ↔ (IsIssuedUnder (rules_by policy.now.moment policy.now.demand_lists (V.vouches_for vouch.now)) (map item_of items.now) (certificate_item certificate.now) (certificate_of certificate.now) signer.now.name.now signer.now.key.now × IsTrue signer.now.agree)) }
{
    let moment = policy.moment();
    let serial = certificate.fields.serial;
    let places = places_below(alloc, items.len())?;
    let listed = listed_among(alloc, items, &places, &moment, signer.name, serial)?;
    let found = why_unlinked_under(alloc, items, certificate, &listed, signer, vouch, policy)?;
    Ok(found)
}

/// The reasons why a certificate is not linked to an issuer among the items, by the voucher and by the
/// lists among the items. Exactly those that apply, in their order; if its issuer is the issuer's
/// subject, none exactly if it is linked.
///
/// The only error is out of memory. It asks the voucher once of the certificate, once of each list of
/// that issuer that is in force and has an entry of its serial number, and if lists are demanded
/// once of each that is in force. It costs one pass over the items, and one over the entries of each
/// list of that issuer: for many issuers use [`Linking`](crate::Linking).
pub fn why_unlinked<V: Vouch>(
    alloc: Global,
    items: &[ReadItem<'_>],
    certificate: &CertificateItem<'_>,
    issuer: &CertificateItem<'_>,
    vouch: &V,
    policy: &Policy,
) -> Result<Vec<Unlinked>, AllocError>
    ensures all { IfOk result (λ found. AreAll link_order (HasLinkReason (rules_by policy.now.moment policy.now.demand_lists (V.vouches_for vouch.now)) (map item_of items.now) (certificate_item certificate.now) (certificate_of certificate.now) issuer.now.subject.now issuer.now.key.now (KeyIdsAgree (certificate_of certificate.now) (certificate_of issuer.now))) found.items) }
    ensures none { certificate.now.issuer.now ≡ issuer.now.subject.now → IfOk result (λ found. (found.items ≡ [])
        ↔ IsLink (rules_by policy.now.moment policy.now.demand_lists (V.vouches_for vouch.now)) (map item_of items.now) (certificate_item certificate.now) (certificate_item issuer.now)) }
{
    let signer = Signer {
        name: issuer.subject,
        key: issuer.key,
        agree: agree_on_key_id(certificate, issuer),
    };
    let found = why_unlinked_among(alloc, items, certificate, &signer, vouch, policy)?;
    Ok(found)
}

/// The reasons why a certificate is not linked to an anchor, of which the subject and the key count and
/// nothing else (RFC 5280, 6.1.1, d). Exactly those that apply, in their order; if its issuer is
/// the anchor's subject, none exactly if it is linked. `KeyIdsDiffer` is never among them.
///
/// The only error is out of memory. It costs what `why_unlinked` costs.
pub fn why_unlinked_to_anchor<V: Vouch>(
    alloc: Global,
    items: &[ReadItem<'_>],
    certificate: &CertificateItem<'_>,
    anchor: &CertificateItem<'_>,
    vouch: &V,
    policy: &Policy,
) -> Result<Vec<Unlinked>, AllocError>
    ensures all { IfOk result (λ found. AreAll link_order (HasLinkReason (rules_by policy.now.moment policy.now.demand_lists (V.vouches_for vouch.now)) (map item_of items.now) (certificate_item certificate.now) (certificate_of certificate.now) anchor.now.subject.now anchor.now.key.now (Unit {0})) found.items) }
    ensures none { certificate.now.issuer.now ≡ anchor.now.subject.now → IfOk result (λ found. (found.items ≡ [])
        ↔ IsAnchorLink (rules_by policy.now.moment policy.now.demand_lists (V.vouches_for vouch.now)) (map item_of items.now) (certificate_item certificate.now) (certificate_item anchor.now)) }
{
    let signer = Signer {
        name: anchor.subject,
        key: anchor.key,
        agree: true,
    };
    let found = why_unlinked_among(alloc, items, certificate, &signer, vouch, policy)?;
    Ok(found)
}
