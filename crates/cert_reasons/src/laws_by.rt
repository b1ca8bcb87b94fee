//! Laws of reasons for whatever vouches, in the words of the calls' contracts. Each is a function
//! that does nothing: its contract is the law. `laws` has examples that meet the premises.

ghost use Rattle.std.specs.Prelude.{◌≡◌, ℕ, Bool, List, Any};
ghost use Rattle.cert_model.specs.Class.{list};
ghost use Rattle.cert_model.specs.Fields.{CivilTime, Certificate, RevocationList};
ghost use Rattle.cert_model.specs.Octets.{name_octets, key_octets};
ghost use Rattle.cert_judge.specs.Judging.{IsUsable};
ghost use Rattle.cert_judge.specs.Items.{rules_at};
ghost use Rattle.cert_judge.specs.ItemGraph.{IsIssuedUnder, KeyIdsAgree};
ghost use Rattle.cert_judge.specs.Revoking.{Item, IsUsedList};
ghost use Rattle.cert_reasons.specs.Certificates.{HasReason, order_of};
ghost use Rattle.cert_reasons.specs.Links.{HasLinkReason, link_order};
ghost use Rattle.cert_reasons.specs.Lists.{HasListReason, HasReasonAmong, list_order};
ghost use Rattle.cert_reasons.specs.Order.{AreAll};
ghost use Rattle.cert_reasons.specs.declared.certificates.Unusable.{Unusable};
ghost use Rattle.cert_reasons.specs.declared.links.Unlinked.{Unlinked};
ghost use Rattle.cert_reasons.specs.declared.lists.Unused.{Unused};

use cert_judge::Vouch;

/// A certificate is usable exactly if no reason applies to it: to a usable one none applies, and one
/// to which none applies isn't unusable. Two lists of exactly the reasons that apply are equal.
pub fn certificate_reasons_by<V: Vouch>(_vouch: &V)
    ensures usable { (item : List ℕ) (moment : CivilTime) (c : Certificate) (reason : Unusable)
        → let P = (V.vouches_for _vouch.now).Processes item in IsUsable P moment c → HasReason P moment c reason → ⊥ }
    ensures unusable { (item : List ℕ) (moment : CivilTime) (c : Certificate)
        → let P = (V.vouches_for _vouch.now).Processes item in ((reason : Unusable) → HasReason P moment c reason → ⊥) → (IsUsable P moment c → ⊥) → ⊥ }
    ensures one { (item : List ℕ) (moment : CivilTime) (c : Certificate) (rs ss : List Unusable)
        → let P = (V.vouches_for _vouch.now).Processes item in AreAll order_of (HasReason P moment c) rs → AreAll order_of (HasReason P moment c) ss → rs ≡ ss }
{}

/// A list is used exactly if no reason applies to it, under one key and under one of several: to a
/// used list none applies, and an issuer's list to which none applies isn't unused.
pub fn list_reasons_by<V: Vouch>(_vouch: &V)
    ensures used { (moment : CivilTime) (demand : Bool) (name key : List ℕ) (item : Item) (l : RevocationList) (reason : Unused)
        → let r = rules_at moment demand (V.vouches_for _vouch.now) in IsUsedList r name key item l → HasListReason r key item l reason → ⊥ }
    ensures unused { (moment : CivilTime) (demand : Bool) (name key : List ℕ) (item : Item) (l : RevocationList)
        → let r = rules_at moment demand (V.vouches_for _vouch.now) in item.class ≡ list l → name_octets l.issuer ≡ name
        → ((reason : Unused) → HasListReason r key item l reason → ⊥) → (IsUsedList r name key item l → ⊥) → ⊥ }
    ensures used_by_one { (moment : CivilTime) (demand : Bool) (name : List ℕ) (keys : List (List ℕ)) (item : Item) (l : RevocationList) (reason : Unused)
        → let r = rules_at moment demand (V.vouches_for _vouch.now) in Any (λ key. IsUsedList r name key item l) keys → HasReasonAmong r keys item l reason → ⊥ }
    ensures unused_by_all { (moment : CivilTime) (demand : Bool) (name : List ℕ) (keys : List (List ℕ)) (item : Item) (l : RevocationList)
        → let r = rules_at moment demand (V.vouches_for _vouch.now) in item.class ≡ list l → name_octets l.issuer ≡ name
        → ((reason : Unused) → HasReasonAmong r keys item l reason → ⊥) → (Any (λ key. IsUsedList r name key item l) keys → ⊥) → ⊥ }
{}

/// A certificate is linked to an issuer, an item or an anchor, exactly if no reason applies to the
/// link: none applies to a link, and an issuer by name to which none applies isn't unlinked.
pub fn link_reasons_by<V: Vouch>(_vouch: &V)
    ensures item { (moment : CivilTime) (demand : Bool) (items : List Item) (x : Item) (c d : Certificate) (reason : Unlinked)
        → let r = rules_at moment demand (V.vouches_for _vouch.now) in IsIssuedUnder r items x c (name_octets d.subject) (key_octets d.key) → KeyIdsAgree c d
        → HasLinkReason r items x c (name_octets d.subject) (key_octets d.key) (KeyIdsAgree c d) reason → ⊥ }
    ensures no_item { (moment : CivilTime) (demand : Bool) (items : List Item) (x : Item) (c d : Certificate)
        → let r = rules_at moment demand (V.vouches_for _vouch.now) in name_octets c.issuer ≡ name_octets d.subject
        → ((reason : Unlinked) → HasLinkReason r items x c (name_octets d.subject) (key_octets d.key) (KeyIdsAgree c d) reason → ⊥)
        → (IsIssuedUnder r items x c (name_octets d.subject) (key_octets d.key) → KeyIdsAgree c d → ⊥) → ⊥ }
    ensures anchor { (moment : CivilTime) (demand : Bool) (items : List Item) (x : Item) (c d : Certificate) (reason : Unlinked)
        → let r = rules_at moment demand (V.vouches_for _vouch.now) in IsIssuedUnder r items x c (name_octets d.subject) (key_octets d.key)
        → HasLinkReason r items x c (name_octets d.subject) (key_octets d.key) (Unit {0}) reason → ⊥ }
    ensures no_anchor { (moment : CivilTime) (demand : Bool) (items : List Item) (x : Item) (c d : Certificate)
        → let r = rules_at moment demand (V.vouches_for _vouch.now) in name_octets c.issuer ≡ name_octets d.subject
        → ((reason : Unlinked) → HasLinkReason r items x c (name_octets d.subject) (key_octets d.key) (Unit {0}) reason → ⊥)
        → (IsIssuedUnder r items x c (name_octets d.subject) (key_octets d.key) → ⊥) → ⊥ }
{}

/// Two lists of exactly the reasons that apply are equal, so each call returns the one list: of a
/// list under a key or several, and of a link to an item or an anchor.
pub fn one_list_of_reasons_by<V: Vouch>(_vouch: &V)
    ensures list { (moment : CivilTime) (demand : Bool) (key : List ℕ) (item : Item) (l : RevocationList) (rs ss : List Unused)
        → let r = rules_at moment demand (V.vouches_for _vouch.now) in AreAll list_order (HasListReason r key item l) rs → AreAll list_order (HasListReason r key item l) ss → rs ≡ ss }
    ensures among { (moment : CivilTime) (demand : Bool) (keys : List (List ℕ)) (item : Item) (l : RevocationList) (rs ss : List Unused)
        → let r = rules_at moment demand (V.vouches_for _vouch.now) in AreAll list_order (HasReasonAmong r keys item l) rs → AreAll list_order (HasReasonAmong r keys item l) ss → rs ≡ ss }
    ensures item { (moment : CivilTime) (demand : Bool) (items : List Item) (x : Item) (c d : Certificate) (rs ss : List Unlinked)
        → let r = rules_at moment demand (V.vouches_for _vouch.now) in AreAll link_order (HasLinkReason r items x c (name_octets d.subject) (key_octets d.key) (KeyIdsAgree c d)) rs
        → AreAll link_order (HasLinkReason r items x c (name_octets d.subject) (key_octets d.key) (KeyIdsAgree c d)) ss → rs ≡ ss }
    ensures anchor { (moment : CivilTime) (demand : Bool) (items : List Item) (x : Item) (c d : Certificate) (rs ss : List Unlinked)
        → let r = rules_at moment demand (V.vouches_for _vouch.now) in AreAll link_order (HasLinkReason r items x c (name_octets d.subject) (key_octets d.key) (Unit {0})) rs
        → AreAll link_order (HasLinkReason r items x c (name_octets d.subject) (key_octets d.key) (Unit {0})) ss → rs ≡ ss }
{}
