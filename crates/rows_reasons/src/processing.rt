//! A caller that processes the extensions of one identifier.

use cert_judge::Vouch;

/// Vouches for nothing, and processes the extensions of this identifier in each item.
#[derive(Drop)]
pub(crate) struct Processing {
    pub(crate) identifier: &'static [u8],
}

impl Vouch for Processing {
    ghost use Rattle.std.specs.Prelude.{◌≡◌};
    ghost use Rattle.cert_judge.specs.Vouching.{nothing, processing_too, vouching_alone};

    ghost vouches_for = { λ v. processing_too (λ item identifier. identifier ≡ v.identifier.now) (vouching_alone nothing) };

    fn vouches(&self, _key: &[u8], _item: &[u8]) -> bool {
        false
    }

    fn processes(&self, _item: &[u8], identifier: &[u8]) -> bool {
        identifier == self.identifier
    }
}
