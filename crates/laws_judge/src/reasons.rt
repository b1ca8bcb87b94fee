//! Premises of the laws of reasons (`cert_reasons`), by tests.

ghost use Rattle.std.specs.Prelude.{◌≡◌, ℕ, List, IsTrue, Any, false, [], ◌∷◌};
ghost use Rattle.cert_model.specs.Class.{list};
ghost use Rattle.cert_model.specs.Examples.{authority_b, issued_by_b, key, plain, revoking};
ghost use Rattle.cert_model.specs.Octets.{key_octets, name_octets};
ghost use Rattle.cert_judge.specs.Examples.{in_june, numbered, told_apart, too_late, vouching_for_both};
ghost use Rattle.cert_judge.specs.ItemGraph.{IsIssuedUnder, KeyIdsAgree};
ghost use Rattle.cert_judge.specs.Judging.{IsUsable, MayIssue};
ghost use Rattle.cert_judge.specs.LawsOfItems.{rules_from};
ghost use Rattle.cert_judge.specs.Revoking.{IsUsedList};
ghost use Rattle.cert_reasons.specs.Certificates.{HasReason, order_of};
ghost use Rattle.cert_reasons.specs.Links.{HasLinkReason, link_order};
ghost use Rattle.cert_reasons.specs.Lists.{HasListReason, HasReasonAmong, list_order};
ghost use Rattle.cert_reasons.specs.Order.{AreAll};
ghost use Rattle.cert_reasons.specs.declared.certificates.Unusable.TheVariants as unusable;
ghost use Rattle.cert_reasons.specs.declared.certificates.Unusable.{Unusable};
ghost use Rattle.cert_reasons.specs.declared.links.Unlinked.TheVariants as linking;
ghost use Rattle.cert_reasons.specs.declared.links.Unlinked.{Unlinked};
ghost use Rattle.cert_reasons.specs.declared.lists.Unused.TheVariants as listing;
ghost use Rattle.cert_reasons.specs.declared.lists.Unused.{Unused};
ghost use Rattle.laws_judge.specs.Worked.{is_purpose, numbered_list, purposed};

/// A certificate whose critical extKeyUsage is processed is usable, so no reason applies to it; and one that has expired has one.
pub fn example_of_certificates()
    ensures usable { IsUsable (λ identifier. IsTrue (is_purpose identifier)) in_june purposed }
    ensures none { (reason : Unusable) → HasReason (λ identifier. IsTrue (is_purpose identifier)) in_june purposed reason → ⊥ }
    ensures all { AreAll order_of (HasReason (λ identifier. IsTrue (is_purpose identifier)) too_late plain) (unusable.Expired ∷ []) }
{}

/// An authority may issue others.
pub fn example_of_an_issuer()
    ensures { MayIssue authority_b.extensions }
{}

/// A list that is used under a key, and under one of two.
pub fn example_of_a_used_list()
    ensures key { IsUsedList (rules_from in_june false (vouching_for_both 1 2)) (name_octets revoking.issuer) (key_octets key) (numbered_list 2) revoking }
    ensures keys { Any (λ key. IsUsedList (rules_from in_june false (vouching_for_both 1 2)) (name_octets revoking.issuer) key (numbered_list 2) revoking) ([] ∷ key_octets authority_b.key ∷ []) }
{}

/// A list of this issuer to which no reason applies, under a key and among two.
pub fn example_of_a_list_without_reasons()
    ensures key { ((numbered_list 2).class ≡ list revoking) × (name_octets revoking.issuer ≡ name_octets revoking.issuer)
        × ((reason : Unused) → HasListReason (rules_from in_june false (vouching_for_both 1 2)) (key_octets key) (numbered_list 2) revoking reason → ⊥) }
    ensures keys { ((numbered_list 2).class ≡ list revoking) × (name_octets revoking.issuer ≡ name_octets revoking.issuer)
        × ((reason : Unused) → HasReasonAmong (rules_from in_june false (vouching_for_both 1 2)) ([] ∷ key_octets key ∷ []) (numbered_list 2) revoking reason → ⊥) }
{}

/// A list that no key vouches for: its whole list of reasons.
pub fn example_of_reasons_of_a_list()
    ensures { AreAll list_order (HasReasonAmong (rules_from in_june false (vouching_for_both 1 2)) ([] ∷ key_octets key ∷ []) (numbered_list 3) revoking) (listing.NotVouched ∷ []) }
{}

/// A certificate that is linked to its issuer.
pub fn example_of_a_link()
    ensures { IsIssuedUnder (rules_from in_june false (vouching_for_both 1 2)) told_apart (numbered 1 issued_by_b) issued_by_b (name_octets authority_b.subject) (key_octets authority_b.key)
        × KeyIdsAgree issued_by_b authority_b }
{}

/// A link without a reason, to an item and to an anchor.
pub fn example_of_a_link_without_reasons()
    ensures item { (name_octets issued_by_b.issuer ≡ name_octets authority_b.subject)
        × ((reason : Unlinked) → HasLinkReason (rules_from in_june false (vouching_for_both 1 2)) told_apart (numbered 1 issued_by_b) issued_by_b (name_octets authority_b.subject) (key_octets authority_b.key) (KeyIdsAgree issued_by_b authority_b) reason → ⊥) }
    ensures anchor { (name_octets issued_by_b.issuer ≡ name_octets authority_b.subject)
        × ((reason : Unlinked) → HasLinkReason (rules_from in_june false (vouching_for_both 1 2)) told_apart (numbered 1 issued_by_b) issued_by_b (name_octets authority_b.subject) (key_octets authority_b.key) (Unit {0}) reason → ⊥) }
{}

/// A certificate that no key vouches for: the whole list of reasons of its link.
pub fn example_of_reasons_of_a_link()
    ensures { AreAll link_order (HasLinkReason (rules_from in_june false (vouching_for_both 1 2)) told_apart (numbered 3 issued_by_b) issued_by_b (name_octets authority_b.subject) (key_octets authority_b.key) (KeyIdsAgree issued_by_b authority_b)) (linking.NotVouched ∷ []) }
{}
