//! A value that permits, for examples of laws that speak of a type.

use cert_purpose::Permit;

/// Every item but that of the octet 9 is permitted. No extension is processed.
pub struct AllButNine;

impl Permit for AllButNine {
    ghost use Rattle.laws_judge.specs.Worked.{all_but_nine, none_processed};

    ghost permits = { λ p. all_but_nine };

    ghost processes = { λ p. none_processed };

    fn is_permitted(&self, item: &[u8]) -> bool {
        item != [9u8].as_slice()
    }

    fn is_processed(&self, _item: &[u8], _identifier: &[u8]) -> bool {
        false
    }
}
