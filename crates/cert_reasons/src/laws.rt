//! Laws of reasons. Each is a function that does nothing: its contract is the law.

ghost use Rattle.std.specs.Prelude.{◌≡◌, ℕ, Bool, IsTrue, List, Any, false, true, [], ◌∷◌};
ghost use Rattle.cert_model.specs.Fields.{CivilTime, Certificate, RevocationList};
ghost use Rattle.cert_model.specs.Octets.{name_octets, key_octets, list_octets};
ghost use Rattle.cert_model.specs.Extended.{basic_constraints};
ghost use Rattle.cert_model.specs.Examples.{key, plain, authority_b, revoking};
ghost use Rattle.cert_model.specs.Class.{list};
ghost use Rattle.cert_judge.specs.Further.{no_identifier};
ghost use Rattle.cert_judge.specs.Judging.{IsUsable, MayIssue};
ghost use Rattle.cert_judge.specs.Revoking.{Item, IsUsedList};
ghost use Rattle.cert_judge.specs.ItemGraph.{IsIssuedUnder, KeyIdsAgree};
ghost use Rattle.cert_judge.specs.LawsOfItems.{rules_from};
ghost use Rattle.cert_judge.specs.Examples.{in_june, too_late, extended_by, extension, unconstrained, default_written, extended_key_usage, certificate_item, list_item, vouching_for_all, vouching_but_for};
ghost use Rattle.cert_reasons.specs.Examples.{constrained_twice, authority_with_names, vouching_too_late, vouching_for_none, naming_key_one, having_key_two};
ghost use Rattle.cert_reasons.specs.Order.{AreAll};
ghost use Rattle.cert_reasons.specs.Issuers.{HasIssuerReason, issuer_order};
ghost use Rattle.cert_reasons.specs.Lists.{HasListReason, HasReasonAmong, list_order};
ghost use Rattle.cert_reasons.specs.Links.{HasLinkReason, link_order};
ghost use Rattle.cert_reasons.specs.declared.issuers.NoIssuer.{NoIssuer};
ghost use Rattle.cert_reasons.specs.declared.issuers.NoIssuer.TheVariants as issuing;
ghost use Rattle.cert_reasons.specs.declared.lists.Unused.{Unused};
ghost use Rattle.cert_reasons.specs.declared.lists.Unused.TheVariants as listing;
ghost use Rattle.cert_reasons.specs.declared.links.Unlinked.{Unlinked};
ghost use Rattle.cert_reasons.specs.declared.links.Unlinked.TheVariants as linking;
ghost use Rattle.cert_reasons.specs.Certificates.{HasReason, order_of};
ghost use Rattle.cert_reasons.specs.declared.certificates.Unusable.{Unusable};
ghost use Rattle.cert_reasons.specs.declared.certificates.Unusable.TheVariants as unusable;

/// To a usable certificate no reason applies, by a test of the identifiers whose extensions the
/// caller processes.
pub fn usable_has_no_reason()
    ensures { (processes : List ℕ → Bool) (moment : CivilTime) (c : Certificate) (r : Unusable)
        → let P : List ℕ → Type 0 = λ identifier. IsTrue (processes identifier) in IsUsable P moment c → HasReason P moment c r → ⊥ }
{}

/// A certificate to which no reason applies is not unusable.
pub fn certificate_without_reasons_is_not_unusable()
    ensures { (processes : List ℕ → Bool) (moment : CivilTime) (c : Certificate)
        → let P : List ℕ → Type 0 = λ identifier. IsTrue (processes identifier) in ((r : Unusable) → HasReason P moment c r → ⊥) → (IsUsable P moment c → ⊥) → ⊥ }
{}

/// To a certificate that may issue others no reason applies.
pub fn issuer_has_no_reason()
    ensures { (c : Certificate) (r : NoIssuer) → MayIssue c.extensions → HasIssuerReason c r → ⊥ }
{}

/// A certificate to which no reason applies is not unfit to issue others.
pub fn issuer_without_reasons_is_not_unfit()
    ensures { (c : Certificate) → ((r : NoIssuer) → HasIssuerReason c r → ⊥) → (MayIssue c.extensions → ⊥) → ⊥ }
{}

/// To a list that is used no reason applies.
pub fn used_list_has_no_reason()
    ensures { (moment : CivilTime) (demand : Bool) (vouches : List ℕ → List ℕ → Bool) (name key : List ℕ) (item : Item) (l : RevocationList) (reason : Unused)
        → IsUsedList (rules_from moment demand vouches) name key item l → HasListReason (rules_from moment demand vouches) key item l reason → ⊥ }
{}

/// A list of this issuer to which no reason applies is not unused.
pub fn list_without_reasons_is_not_unused()
    ensures { (moment : CivilTime) (demand : Bool) (vouches : List ℕ → List ℕ → Bool) (name key : List ℕ) (item : Item) (l : RevocationList)
        → item.class ≡ list l → name_octets l.issuer ≡ name → ((reason : Unused) → HasListReason (rules_from moment demand vouches) key item l reason → ⊥)
        → (IsUsedList (rules_from moment demand vouches) name key item l → ⊥) → ⊥ }
{}

/// To a link to an item no reason applies.
pub fn link_has_no_reason()
    ensures { (moment : CivilTime) (demand : Bool) (vouches : List ℕ → List ℕ → Bool) (items : List Item) (x : Item) (c d : Certificate) (reason : Unlinked)
        → IsIssuedUnder (rules_from moment demand vouches) items x c (name_octets d.subject) (key_octets d.key) → KeyIdsAgree c d
        → HasLinkReason (rules_from moment demand vouches) items x c (name_octets d.subject) (key_octets d.key) (KeyIdsAgree c d) reason → ⊥ }
{}

/// A certificate is not unlinked from an item that is its issuer by name, if no reason applies.
pub fn link_without_reasons_is_not_missing()
    ensures { (moment : CivilTime) (demand : Bool) (vouches : List ℕ → List ℕ → Bool) (items : List Item) (x : Item) (c d : Certificate)
        → name_octets c.issuer ≡ name_octets d.subject
        → ((reason : Unlinked) → HasLinkReason (rules_from moment demand vouches) items x c (name_octets d.subject) (key_octets d.key) (KeyIdsAgree c d) reason → ⊥)
        → (IsIssuedUnder (rules_from moment demand vouches) items x c (name_octets d.subject) (key_octets d.key) → KeyIdsAgree c d → ⊥) → ⊥ }
{}

/// A certificate is not unlinked from an anchor that is its issuer by name, if no reason applies.
pub fn anchor_link_without_reasons_is_not_missing()
    ensures { (moment : CivilTime) (demand : Bool) (vouches : List ℕ → List ℕ → Bool) (items : List Item) (x : Item) (c d : Certificate)
        → name_octets c.issuer ≡ name_octets d.subject
        → ((reason : Unlinked) → HasLinkReason (rules_from moment demand vouches) items x c (name_octets d.subject) (key_octets d.key) (Unit {0}) reason → ⊥)
        → (IsIssuedUnder (rules_from moment demand vouches) items x c (name_octets d.subject) (key_octets d.key) → ⊥) → ⊥ }
{}

/// To a list that is used under one of some keys no reason applies among them.
pub fn list_used_by_one_has_no_reason()
    ensures { (moment : CivilTime) (demand : Bool) (vouches : List ℕ → List ℕ → Bool) (name : List ℕ) (keys : List (List ℕ)) (item : Item) (l : RevocationList) (reason : Unused)
        → Any (λ key. IsUsedList (rules_from moment demand vouches) name key item l) keys → HasReasonAmong (rules_from moment demand vouches) keys item l reason → ⊥ }
{}

/// A list of this issuer to which no reason applies among some keys is not unused under all of them.
pub fn list_without_reasons_is_not_unused_by_all()
    ensures { (moment : CivilTime) (demand : Bool) (vouches : List ℕ → List ℕ → Bool) (name : List ℕ) (keys : List (List ℕ)) (item : Item) (l : RevocationList)
        → item.class ≡ list l → name_octets l.issuer ≡ name → ((reason : Unused) → HasReasonAmong (rules_from moment demand vouches) keys item l reason → ⊥)
        → (Any (λ key. IsUsedList (rules_from moment demand vouches) name key item l) keys → ⊥) → ⊥ }
{}

/// Examples of certificates, each with its whole list of reasons.
pub fn examples_of_certificates()
    ensures expired { AreAll order_of (HasReason no_identifier too_late plain) (unusable.Expired ∷ []) }
    ensures twice { AreAll order_of (HasReason no_identifier too_late constrained_twice) (unusable.Expired ∷ unusable.Repeats 1 ∷ []) }
    ensures unprocessed { AreAll order_of (HasReason no_identifier in_june (extended_by (extension extended_key_usage true unconstrained ∷ []))) (unusable.Unprocessed 0 ∷ []) }
    ensures processed { (r : Unusable) → HasReason (λ identifier. identifier ≡ extended_key_usage) in_june (extended_by (extension extended_key_usage true unconstrained ∷ [])) r → ⊥ }
    ensures written { AreAll order_of (HasReason no_identifier in_june (extended_by (extension basic_constraints false default_written ∷ []))) (unusable.BadConstraints 0 ∷ []) }
    ensures usable { (r : Unusable) → HasReason no_identifier in_june (extended_by (extension basic_constraints true unconstrained ∷ [])) r → ⊥ }
{}

/// Examples of issuers: an end entity, an authority with name constraints, and a fit authority.
pub fn examples_of_issuers()
    ensures end_entity { AreAll issuer_order (HasIssuerReason plain) (issuing.NoAuthority ∷ []) }
    ensures names { AreAll issuer_order (HasIssuerReason authority_with_names) (issuing.NameConstraints 1 ∷ []) }
    ensures fit { (r : NoIssuer) → HasIssuerReason authority_b r → ⊥ }
{}

/// Examples of lists: one that no key vouches for, one past its nextUpdate, and one by who uses it.
pub fn examples_of_lists()
    ensures unvouched { AreAll list_order (HasListReason (vouching_but_for (list_octets revoking)) (key_octets key) (list_item revoking) revoking) (listing.NotVouched ∷ []) }
    ensures past { AreAll list_order (HasListReason vouching_too_late (key_octets key) (list_item revoking) revoking) (listing.PastNextUpdate ∷ []) }
    ensures used { AreAll list_order (HasReasonAmong (vouching_for_all false) (key_octets key ∷ []) (list_item revoking) revoking) [] }
    ensures keyless { AreAll list_order (HasReasonAmong (vouching_for_all false) [] (list_item revoking) revoking) (listing.NotVouched ∷ []) }
{}

/// Examples of links: a certificate that a list revokes, one that no key vouches for if lists are
/// demanded, one that names another key of its issuer, and that one under an anchor.
pub fn examples_of_links()
    ensures revoked { AreAll link_order (HasLinkReason (vouching_for_all false) (certificate_item plain ∷ list_item revoking ∷ []) (certificate_item plain) plain (name_octets []) (key_octets key) (Unit {0})) (linking.RevokedBy 1 ∷ []) }
    ensures alone { AreAll link_order (HasLinkReason vouching_for_none (certificate_item plain ∷ []) (certificate_item plain) plain (name_octets []) (key_octets key) (Unit {0})) (linking.NotVouched ∷ linking.NoUsedList ∷ []) }
    ensures keys { AreAll link_order (HasLinkReason (vouching_for_all false) (certificate_item naming_key_one ∷ []) (certificate_item naming_key_one) naming_key_one (name_octets []) (key_octets key) (KeyIdsAgree naming_key_one having_key_two)) (linking.KeyIdsDiffer ∷ []) }
    ensures anchor { (r : Unlinked) → HasLinkReason (vouching_for_all false) (certificate_item naming_key_one ∷ []) (certificate_item naming_key_one) naming_key_one (name_octets []) (key_octets key) (Unit {0}) r → ⊥ }
{}

/// Two lists of exactly the reasons that apply are equal: each call returns the one list.
pub fn one_list_of_reasons()
    ensures certificates { (processes : List ℕ → Bool) (moment : CivilTime) (c : Certificate) (rs ss : List Unusable)
        → let P : List ℕ → Type 0 = λ identifier. IsTrue (processes identifier) in AreAll order_of (HasReason P moment c) rs → AreAll order_of (HasReason P moment c) ss → rs ≡ ss }
    ensures issuers { (c : Certificate) (rs ss : List NoIssuer) → AreAll issuer_order (HasIssuerReason c) rs → AreAll issuer_order (HasIssuerReason c) ss → rs ≡ ss }
    ensures lists { (moment : CivilTime) (demand : Bool) (vouches : List ℕ → List ℕ → Bool) (keys : List (List ℕ)) (item : Item) (l : RevocationList) (rs ss : List Unused)
        → let r = rules_from moment demand vouches in AreAll list_order (HasReasonAmong r keys item l) rs → AreAll list_order (HasReasonAmong r keys item l) ss → rs ≡ ss }
    ensures links { (moment : CivilTime) (demand : Bool) (vouches : List ℕ → List ℕ → Bool) (items : List Item) (x : Item) (c d : Certificate) (rs ss : List Unlinked)
        → let r = rules_from moment demand vouches in AreAll link_order (HasLinkReason r items x c (name_octets d.subject) (key_octets d.key) (KeyIdsAgree c d)) rs
        → AreAll link_order (HasLinkReason r items x c (name_octets d.subject) (key_octets d.key) (KeyIdsAgree c d)) ss → rs ≡ ss }
{}
