//! Premises of the laws of restricted vouching (`cert_purpose`).

ghost use Rattle.std.specs.Prelude.{◌≡◌, Contains, false};
ghost use Rattle.cert_model.specs.Class.{list};
ghost use Rattle.cert_model.specs.Fields.{RevocationList};
ghost use Rattle.cert_judge.specs.Examples.{in_june, told_apart};
ghost use Rattle.cert_judge.specs.Items.{rules_at};
ghost use Rattle.cert_judge.specs.Revoking.{Item};
ghost use Rattle.cert_purpose.specs.Examples.{server_auth};
ghost use Rattle.cert_purpose.specs.Purposes.{Allows};
ghost use Rattle.cert_purpose.specs.Restricting.{PermitsThose, VouchAlike};
ghost use Rattle.laws_judge.specs.Worked.{numbered_list, path_and_a_list, two_and_a_list};

use crate::permitting::AllButNine;
use crate::vouching::{Anything, FirstTwo};
use cert_judge::Vouch;
use cert_purpose::Permit;

/// Two values that vouch for the same of two items.
pub fn example_of_alikes_by(_vouch: &FirstTwo, _other: &Anything)
    ensures { VouchAlike (rules_at in_june false (⟦<FirstTwo as Vouch>⟧.vouches_for _vouch.now)) (rules_at in_june false (⟦<Anything as Vouch>⟧.vouches_for _other.now)) told_apart }
{}

/// Two certificates and a list, which is permitted.
pub fn example_of_permitted_lists(_permit: &AllButNine)
    ensures { Contains path_and_a_list (numbered_list 3)
        × ((x : Item) (l : RevocationList) → Contains path_and_a_list x → x.class ≡ list l → ⟦<AllButNine as Permit>⟧.permits _permit.now x.octets) }
{}

/// A certificate that allows a purpose, one that doesn't and isn't permitted, and a list, which is.
pub fn example_of_a_permit(_permit: &AllButNine)
    ensures { PermitsThose (⟦<AllButNine as Permit>⟧.permits _permit.now) (λ x c. Allows server_auth c.extensions) two_and_a_list }
{}
