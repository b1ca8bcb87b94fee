//! Values that vouch, for examples of laws that speak of a type.

use cert_judge::Vouch;

/// Every key vouches for everything. No extension is processed.
pub struct Anything;

impl Vouch for Anything {
    ghost use Rattle.laws_judge.specs.Worked.{anything};

    ghost vouches_for = { λ v. anything };

    fn vouches(&self, _key: &[u8], _item: &[u8]) -> bool {
        true
    }

    fn processes(&self, _item: &[u8], _identifier: &[u8]) -> bool {
        false
    }
}

/// Every key vouches for the item of the octet 1 and for that of the octet 2. No extension is processed.
pub struct FirstTwo;

impl Vouch for FirstTwo {
    ghost use Rattle.laws_judge.specs.Worked.{first_two};

    ghost vouches_for = { λ v. first_two };

    fn vouches(&self, _key: &[u8], item: &[u8]) -> bool {
        item == [1u8].as_slice() || item == [2u8].as_slice()
    }

    fn processes(&self, _item: &[u8], _identifier: &[u8]) -> bool {
        false
    }
}
