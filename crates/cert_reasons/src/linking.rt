//! Links of one certificate to one issuer or anchor after the other (RFC 5280, 6.1.3).

ghost use Rattle.std.specs.Prelude.{◌≡◌, ◌↔◌, [], ℕ, List, map, true, false, Contains, IfOk, IsTrue};
ghost use Rattle.std.specs.List.Sorted.{IsStrictlyIncreasing};
ghost use Rattle.cert_graph.specs.Entries.{IsAt};
ghost use Rattle.cert_model.specs.Fields.{Certificate};
ghost use Rattle.cert_judge.specs.ItemGraph.{KeyIdsAgree, IsLink, IsAnchorLink};
ghost use Rattle.cert_judge.specs.Items.{certificate_of, certificate_item, item_of, rules_by, IsListWith};
ghost use Rattle.cert_reasons.specs.Order.{AreAll};
ghost use Rattle.cert_reasons.specs.Links.{HasLinkReason, Revokes, link_order};
ghost use Rattle.cert_reasons.specs.Listed.{ArePlaces, IsOf, IsInForceAt, HasSerialAt};
ghost use Rattle.cert_reasons.specs.InForce.{AreListsInForce};
ghost use Rattle.cert_reasons.specs.Linking.{HasItsLists};

use crate::in_force::ListsInForce;
use crate::links::{Signer, Unlinked, agree_on_key_id, why_unlinked_under};
use crate::listed::{Listed, Places, listed_among};
use cert_judge::{CertificateItem, Policy, ReadItem, Vouch};
use std::alloc::{AllocError, Global};

/// A certificate, with the lists of its issuer among some items that are in force, and those of them
/// that have an entry of its serial number.
///
/// Made once, it returns of each issuer and anchor of its issuer's name why the certificate is not
/// linked to it, at the cost of a look-up of vouchers for it, and one for each list that has such
/// an entry; if lists are demanded, also for lists that are in force, up to the first with a
/// voucher.
#[derive(Drop)]
pub struct Linking<'b, 'a> {
    items: &'b [ReadItem<'a>],
    certificate: &'b CertificateItem<'a>,
    policy: Policy,
    listed: Listed<'b>,
}

fn has_none(places: &[usize]) -> bool
    ensures { IsTrue result ↔ (places.now ≡ []) }
{
    places.is_empty()
}

impl<'b, 'a> Linking<'b, 'a> {
    /// The links of a certificate, by the lists at some places of the items. Those of its issuer are
    /// looked for there alone: all places of the items will do.
    ///
    /// The only error is out of memory. It costs one pass over the entries of each list of its issuer.
    pub fn new(
        alloc: Global,
        items: &'b [ReadItem<'a>],
        places: &[usize],
        certificate: &'b CertificateItem<'a>,
        policy: &Policy,
    ) -> Result<Linking<'b, 'a>, AllocError>
        requires ascends { IsStrictlyIncreasing places.now }
        requires complete { (p : ℕ) → IsAt items.now p (IsListWith (IsOf certificate.now.issuer.now)) → Contains places.now p }
        ensures items { IfOk result (λ l. l.items.now ≡ items.now) }
        ensures certificate { IfOk result (λ l. l.certificate.now ≡ certificate.now) }
        ensures policy { IfOk result (λ l. l.policy ≡ policy.now) }
        ensures lists { IfOk result HasItsLists }
    {
        let moment = policy.moment();
        let serial = certificate.fields.serial;
        let listed = listed_among(alloc, items, places, &moment, certificate.issuer, serial)?;
        Ok(Linking {
            items,
            certificate,
            policy: *policy,
            listed,
        })
    }

    /// The linking of a certificate, by the lists of its issuer that are in force at the moment of
    /// the policy, which were found among these items before.
    ///
    /// The only error is out of memory. It costs a look-up of its serial number.
    pub fn by(
        alloc: Global,
        items: &'b [ReadItem<'a>],
        lists: &'b ListsInForce<'a>,
        certificate: &'b CertificateItem<'a>,
        policy: &Policy,
    ) -> Result<Linking<'b, 'a>, AllocError>
        requires { AreListsInForce items.now policy.now.moment certificate.now.issuer.now lists.now }
        ensures items { IfOk result (λ l. l.items.now ≡ items.now) }
        ensures certificate { IfOk result (λ l. l.certificate.now ≡ certificate.now) }
        ensures policy { IfOk result (λ l. l.policy ≡ policy.now) }
        ensures lists { IfOk result HasItsLists }
    {
        let revoking = lists.revoking(alloc, items, certificate.fields.serial)?;
        Ok(Linking {
            items,
            certificate,
            policy: *policy,
            listed: Listed {
                in_force: Places::Lent(lists.places()),
                revoking,
            },
        })
    }

    /// The items that it was made from.
    pub fn items(&self) -> &'b [ReadItem<'a>]
        ensures { result.now ≡ self.now.items.now }
    {
        self.items
    }

    /// The places of the lists of its issuer that are in force and have an entry of its serial
    /// number, in ascending order. Of two certificates of an issuer for which they are equal, each
    /// list revokes both or neither.
    pub fn revoking(&self) -> &[usize]
        requires { HasItsLists self.now }
        ensures { let c = self.now.certificate.now in
            ArePlaces (λ p. IsInForceAt self.now.items.now self.now.policy.moment c.issuer.now p × HasSerialAt self.now.items.now c.fields.serial.now p) result.now }
    {
        self.listed.revoking.as_slice()
    }

    /// Whether the certificate names a key identifier of its issuer (RFC 5280, 4.2.1.1). If it names
    /// none, the key identifiers agree, whoever is the issuer.
    pub fn names_key(&self) -> bool
        ensures { result ≡ false → (d : Certificate) → KeyIdsAgree (certificate_of self.now.certificate.now) d }
    {
        match self.certificate.authority_key_id {
            Some(_) => true,
            None => false,
        }
    }

    /// Whether the key identifier that the certificate names for its issuer is the issuer's own, or
    /// one of them is missing (RFC 5280, 4.2.1.1 and 4.2.1.2). One comparison.
    pub fn agrees(&self, issuer: &CertificateItem<'_>) -> bool
        ensures { IsTrue result ↔ KeyIdsAgree (certificate_of self.now.certificate.now) (certificate_of issuer.now) }
    {
        agree_on_key_id(self.certificate, issuer)
    }

    /// Whether no list can be a reason against a link, whoever vouches for the lists: none of its
    /// issuer that is in force has its serial number, and lists aren't demanded.
    pub fn is_unlisted<V: Vouch>(&self, _vouch: &V) -> bool
        requires { HasItsLists self.now }
        ensures unrevoked { IsTrue result → (key : List ℕ) (p : ℕ)
            → IsAt (map item_of self.now.items.now) p (Revokes (rules_by self.now.policy.moment self.now.policy.demand_lists (V.vouches_for _vouch.now)) self.now.certificate.now.issuer.now key (certificate_of self.now.certificate.now).serial) → ⊥ }
        ensures undemanded { IsTrue result → self.now.policy.demand_lists ≡ true → ⊥ }
    {
        if self.policy.demands_lists() {
            return false;
        }
        has_none(&self.listed.revoking)
    }

    /// What `why_unlinked` returns for an issuer of the certificate's issuer's name.
    ///
    /// The only error is out of memory.
    pub fn why_unlinked<V: Vouch>(
        &self,
        alloc: Global,
        issuer: &CertificateItem<'_>,
        vouch: &V,
    ) -> Result<Vec<Unlinked>, AllocError>
        requires lists { HasItsLists self.now }
        requires issuer { self.now.certificate.now.issuer.now ≡ issuer.now.subject.now }
        ensures all { IfOk result (λ found. AreAll link_order (HasLinkReason (rules_by self.now.policy.moment self.now.policy.demand_lists (V.vouches_for vouch.now)) (map item_of self.now.items.now) (certificate_item self.now.certificate.now) (certificate_of self.now.certificate.now) issuer.now.subject.now issuer.now.key.now (KeyIdsAgree (certificate_of self.now.certificate.now) (certificate_of issuer.now))) found.items) }
        ensures none { IfOk result (λ found. (found.items ≡ [])
            ↔ IsLink (rules_by self.now.policy.moment self.now.policy.demand_lists (V.vouches_for vouch.now)) (map item_of self.now.items.now) (certificate_item self.now.certificate.now) (certificate_item issuer.now)) }
    {
        let signer = Signer {
            name: issuer.subject,
            key: issuer.key,
            agree: agree_on_key_id(self.certificate, issuer),
        };
        let found = why_unlinked_under(
            alloc,
            self.items,
            self.certificate,
            &self.listed,
            &signer,
            vouch,
            &self.policy,
        )?;
        Ok(found)
    }

    /// What `why_unlinked_to_anchor` returns for an anchor of the certificate's issuer's name.
    ///
    /// The only error is out of memory.
    pub fn why_unlinked_to_anchor<V: Vouch>(
        &self,
        alloc: Global,
        anchor: &CertificateItem<'_>,
        vouch: &V,
    ) -> Result<Vec<Unlinked>, AllocError>
        requires lists { HasItsLists self.now }
        requires issuer { self.now.certificate.now.issuer.now ≡ anchor.now.subject.now }
        ensures all { IfOk result (λ found. AreAll link_order (HasLinkReason (rules_by self.now.policy.moment self.now.policy.demand_lists (V.vouches_for vouch.now)) (map item_of self.now.items.now) (certificate_item self.now.certificate.now) (certificate_of self.now.certificate.now) anchor.now.subject.now anchor.now.key.now (Unit {0})) found.items) }
        ensures none { IfOk result (λ found. (found.items ≡ [])
            ↔ IsAnchorLink (rules_by self.now.policy.moment self.now.policy.demand_lists (V.vouches_for vouch.now)) (map item_of self.now.items.now) (certificate_item self.now.certificate.now) (certificate_item anchor.now)) }
    {
        let signer = Signer {
            name: anchor.subject,
            key: anchor.key,
            agree: true,
        };
        let found = why_unlinked_under(
            alloc,
            self.items,
            self.certificate,
            &self.listed,
            &signer,
            vouch,
            &self.policy,
        )?;
        Ok(found)
    }
}
