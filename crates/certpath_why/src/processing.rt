//! Who vouches, if the extensions that are looked at for a demand may be critical too.

ghost use Rattle.std.specs.Prelude.{◌≡◌};

use cert_judge::Vouch;
use cert_purpose::Permit;
use std::alloc::{AllocError, Global};

/// Vouches as before, whatever is permitted, and processes what the permit does too.
#[derive(Drop)]
pub(crate) struct Processing<'a, V, P> {
    vouch: &'a V,
    permit: &'a P,
}

impl<'a, V: Vouch, P: Permit> Processing<'a, V, P> {
    pub(crate) fn new(vouch: &'a V, permit: &'a P) -> Processing<'a, V, P>
        ensures vouch { result.vouch.now ≡ vouch.now }
        ensures permit { result.permit.now ≡ permit.now }
    {
        Processing { vouch, permit }
    }
}

impl<V: Vouch, P: Permit> Vouch for Processing<'_, V, P> {
    ghost use Rattle.cert_judge.specs.Vouching.{processing_too};

    ghost vouches_for = { λ r. processing_too (P.processes r.permit.now) (V.vouches_for r.vouch.now) };

    fn vouches(&self, key: &[u8], item: &[u8]) -> bool {
        self.vouch.vouches(key, item)
    }

    fn processes(&self, item: &[u8], identifier: &[u8]) -> bool {
        self.vouch.processes(item, identifier) || self.permit.is_processed(item, identifier)
    }

    fn vouches_at(&self, key: &[u8], items: &[&[u8]], place: usize) -> bool {
        self.vouch.vouches_at(key, items, place)
    }

    fn vouched_by(
        &self,
        alloc: Global,
        key: &[u8],
        items: &[&[u8]],
        chosen: &[usize],
    ) -> Result<Vec<usize>, AllocError> {
        self.vouch.vouched_by(alloc, key, items, chosen)
    }

    fn vouched_by_each(
        &self,
        alloc: Global,
        keys: &[&[u8]],
        items: &[&[u8]],
        chosen: &[usize],
    ) -> Result<Vec<Vec<usize>>, AllocError> {
        self.vouch.vouched_by_each(alloc, keys, items, chosen)
    }
}
