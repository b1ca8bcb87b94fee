//! Laws of restricted vouching, in the words of `find` and `check`. Each is a function that does
//! nothing: its contract is the law.

ghost use Rattle.std.specs.Prelude.{◌≡◌, ◌↔◌, ℕ, Bool, List, Contains};
ghost use Rattle.cert_model.specs.Class.{list};
ghost use Rattle.cert_model.specs.Fields.{CivilTime, RevocationList};
ghost use Rattle.cert_judge.specs.Items.{rules_at};
ghost use Rattle.cert_judge.specs.Revoking.{Item};
ghost use Rattle.cert_judge.specs.Vouching.{processing_too};
ghost use Rattle.cert_purpose.specs.Purposes.{Allows};
ghost use Rattle.cert_purpose.specs.Restricting.{restricted_by, VouchAlike, HaveSameTrueAnswers, PermitsThose, HasPathsOfThose};

use crate::permit::Permit;
use cert_judge::Vouch;

/// Two values that vouch alike for the certificates and lists among the items, and process equal
/// extensions of the certificates, have equal true answers. `laws::example_of_alikes` meets the
/// premise.
pub fn same_true_answers_by<V: Vouch, W: Vouch>(_vouch: &V, _other: &W)
    ensures { (moment : CivilTime) (demand : Bool) (items : List Item)
        → let r = rules_at moment demand (V.vouches_for _vouch.now) in let s = rules_at moment demand (W.vouches_for _other.now) in VouchAlike r s items → HaveSameTrueAnswers r s items }
{}

/// If every list is permitted, the valid paths of the restricted relation are those of the whole
/// one all of whose certificates are permitted. Both process what the permit does.
pub fn restricted_paths_by<V: Vouch, P: Permit>(_vouch: &V, _permit: &P)
    ensures { (moment : CivilTime) (demand : Bool) (items : List Item)
        → ((x : Item) (l : RevocationList) → Contains items x → x.class ≡ list l → P.permits _permit.now x.octets)
        → HasPathsOfThose (rules_at moment demand (processing_too (P.processes _permit.now) (V.vouches_for _vouch.now)))
        (rules_at moment demand (restricted_by (P.permits _permit.now) (P.processes _permit.now) (V.vouches_for _vouch.now))) (λ x c. P.permits _permit.now x.octets) items }
{}

/// If the certificates that allow a purpose and the lists are permitted, the valid paths of the
/// restricted relation are those of the whole one all of whose certificates allow the purpose. Both
/// process what the permit does.
pub fn purpose_paths_by<V: Vouch, P: Permit>(_vouch: &V, _permit: &P)
    ensures { (moment : CivilTime) (demand : Bool) (items : List Item) (purpose : List ℕ)
        → PermitsThose (P.permits _permit.now) (λ x c. Allows purpose c.extensions) items
        → HasPathsOfThose (rules_at moment demand (processing_too (P.processes _permit.now) (V.vouches_for _vouch.now)))
        (rules_at moment demand (restricted_by (P.permits _permit.now) (P.processes _permit.now) (V.vouches_for _vouch.now))) (λ x c. Allows purpose c.extensions) items }
{}
