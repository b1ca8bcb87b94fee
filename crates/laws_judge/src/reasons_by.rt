//! Premises of the laws of reasons (`cert_reasons`), by what a value vouches for.

ghost use Rattle.std.specs.Prelude.{◌≡◌, Any, false, [], ◌∷◌};
ghost use Rattle.cert_model.specs.Class.{list};
ghost use Rattle.cert_model.specs.Examples.{authority_b, issued_by_b, plain, revoking};
ghost use Rattle.cert_model.specs.Octets.{key_octets, name_octets};
ghost use Rattle.cert_judge.specs.Examples.{in_june, numbered, told_apart, too_late};
ghost use Rattle.cert_judge.specs.ItemGraph.{IsIssuedUnder, KeyIdsAgree};
ghost use Rattle.cert_judge.specs.Judging.{IsUsable};
ghost use Rattle.cert_judge.specs.Items.{rules_at};
ghost use Rattle.cert_judge.specs.Revoking.{IsUsedList};
ghost use Rattle.cert_reasons.specs.Certificates.{HasReason, order_of};
ghost use Rattle.cert_reasons.specs.Links.{HasLinkReason, link_order};
ghost use Rattle.cert_reasons.specs.Lists.{HasListReason, HasReasonAmong, list_order};
ghost use Rattle.cert_reasons.specs.Order.{AreAll};
ghost use Rattle.cert_reasons.specs.declared.certificates.Unusable.TheVariants as unusable;
ghost use Rattle.cert_reasons.specs.declared.certificates.Unusable.{Unusable};
ghost use Rattle.cert_reasons.specs.declared.links.Unlinked.TheVariants as linking;
ghost use Rattle.cert_reasons.specs.declared.links.Unlinked.{Unlinked};
ghost use Rattle.cert_reasons.specs.declared.lists.Unused.TheVariants as listing;
ghost use Rattle.cert_reasons.specs.declared.lists.Unused.{Unused};
ghost use Rattle.laws_judge.specs.Worked.{numbered_list};

use crate::vouching::FirstTwo;
use cert_judge::Vouch;

/// An authority is usable where no extension is processed, so no reason applies to it; and to a certificate that has expired one
/// applies.
pub fn example_of_certificates_by(_vouch: &FirstTwo)
    ensures usable { IsUsable ((⟦<FirstTwo as Vouch>⟧.vouches_for _vouch.now).Processes (1 ∷ [])) in_june authority_b }
    ensures none { (reason : Unusable) → HasReason ((⟦<FirstTwo as Vouch>⟧.vouches_for _vouch.now).Processes (1 ∷ [])) in_june authority_b reason → ⊥ }
    ensures all { AreAll order_of (HasReason ((⟦<FirstTwo as Vouch>⟧.vouches_for _vouch.now).Processes (1 ∷ [])) too_late plain) (unusable.Expired ∷ []) }
{}

/// A list that is used under a key, and under one of two.
pub fn example_of_a_used_list_by(_vouch: &FirstTwo)
    ensures key { IsUsedList (rules_at in_june false (⟦<FirstTwo as Vouch>⟧.vouches_for _vouch.now)) (name_octets revoking.issuer) (key_octets plain.key) (numbered_list 2) revoking }
    ensures keys { Any (λ key. IsUsedList (rules_at in_june false (⟦<FirstTwo as Vouch>⟧.vouches_for _vouch.now)) (name_octets revoking.issuer) key (numbered_list 2) revoking) ([] ∷ key_octets authority_b.key ∷ []) }
{}

/// A list of this issuer to which no reason applies, under a key and among two.
pub fn example_of_a_list_without_reasons_by(_vouch: &FirstTwo)
    ensures key { ((numbered_list 2).class ≡ list revoking) × (name_octets revoking.issuer ≡ name_octets revoking.issuer)
        × ((reason : Unused) → HasListReason (rules_at in_june false (⟦<FirstTwo as Vouch>⟧.vouches_for _vouch.now)) (key_octets plain.key) (numbered_list 2) revoking reason → ⊥) }
    ensures keys { ((numbered_list 2).class ≡ list revoking) × (name_octets revoking.issuer ≡ name_octets revoking.issuer)
        × ((reason : Unused) → HasReasonAmong (rules_at in_june false (⟦<FirstTwo as Vouch>⟧.vouches_for _vouch.now)) ([] ∷ key_octets plain.key ∷ []) (numbered_list 2) revoking reason → ⊥) }
{}

/// A list that no key vouches for: its whole list of reasons.
pub fn example_of_reasons_of_a_list_by(_vouch: &FirstTwo)
    ensures key { AreAll list_order (HasListReason (rules_at in_june false (⟦<FirstTwo as Vouch>⟧.vouches_for _vouch.now)) (key_octets plain.key) (numbered_list 3) revoking) (listing.NotVouched ∷ []) }
    ensures keys { AreAll list_order (HasReasonAmong (rules_at in_june false (⟦<FirstTwo as Vouch>⟧.vouches_for _vouch.now)) ([] ∷ key_octets plain.key ∷ []) (numbered_list 3) revoking) (listing.NotVouched ∷ []) }
{}

/// A certificate that is linked to its issuer.
pub fn example_of_a_link_by(_vouch: &FirstTwo)
    ensures { IsIssuedUnder (rules_at in_june false (⟦<FirstTwo as Vouch>⟧.vouches_for _vouch.now)) told_apart (numbered 1 issued_by_b) issued_by_b (name_octets authority_b.subject) (key_octets authority_b.key)
        × KeyIdsAgree issued_by_b authority_b }
{}

/// A link without a reason, to an item and to an anchor.
pub fn example_of_a_link_without_reasons_by(_vouch: &FirstTwo)
    ensures item { (name_octets issued_by_b.issuer ≡ name_octets authority_b.subject)
        × ((reason : Unlinked) → HasLinkReason (rules_at in_june false (⟦<FirstTwo as Vouch>⟧.vouches_for _vouch.now)) told_apart (numbered 1 issued_by_b) issued_by_b (name_octets authority_b.subject) (key_octets authority_b.key) (KeyIdsAgree issued_by_b authority_b) reason → ⊥) }
    ensures anchor { (name_octets issued_by_b.issuer ≡ name_octets authority_b.subject)
        × ((reason : Unlinked) → HasLinkReason (rules_at in_june false (⟦<FirstTwo as Vouch>⟧.vouches_for _vouch.now)) told_apart (numbered 1 issued_by_b) issued_by_b (name_octets authority_b.subject) (key_octets authority_b.key) (Unit {0}) reason → ⊥) }
{}

/// A certificate that no key vouches for: the whole list of reasons of its links.
pub fn example_of_reasons_of_a_link_by(_vouch: &FirstTwo)
    ensures item { AreAll link_order (HasLinkReason (rules_at in_june false (⟦<FirstTwo as Vouch>⟧.vouches_for _vouch.now)) told_apart (numbered 3 issued_by_b) issued_by_b (name_octets authority_b.subject) (key_octets authority_b.key) (KeyIdsAgree issued_by_b authority_b)) (linking.NotVouched ∷ []) }
    ensures anchor { AreAll link_order (HasLinkReason (rules_at in_june false (⟦<FirstTwo as Vouch>⟧.vouches_for _vouch.now)) told_apart (numbered 3 issued_by_b) issued_by_b (name_octets authority_b.subject) (key_octets authority_b.key) (Unit {0})) (linking.NotVouched ∷ []) }
{}
