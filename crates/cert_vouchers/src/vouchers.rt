//! Vouching by pairs of digests.

ghost use Rattle.std.specs.Prelude.{◌≡◌, ◌↔◌, ◌⊎◌, ℕ, List, OnOk, OnErr};
ghost use Rattle.cert_vouchers.specs.Vouching.{HasPair};

use crate::keys::Keys;
use crate::lookup::{Digests, Pairs, has_pair, rows_of};
use asn1_core::OutOfMemory;
use cert_judge::Vouch;
use sha2::{Digest, Sha256};
use std::alloc::{AllocError, Global};
use std::collections::BTreeMap;
use std::collections::btree_map::Entry;

/// Computes each digest that is asked for.
struct Computed;

impl Digests for Computed {
    fn key_digest(&self, key: &[u8]) -> [u8; 32] {
        Sha256::digest(key)
    }

    fn item_digest(&self, item: &[u8]) -> [u8; 32] {
        Sha256::digest(item)
    }
}

/// Pairs of the SHA-256 digests (FIPS 180-4) of a key element and of an item that the key vouches
/// for.
///
/// Of different keys `vouched_by_each` digests each key and each chosen item once, and none of them
/// if there is no key or no pair. It looks up the keys by each item's digest, so it goes once over
/// the pairs that name the item, and takes as many comparisons as look-ups in sorted maps of the
/// pairs and of the keys. If two keys are equal each pair of a key and a chosen item is asked for,
/// and both are digested each time.
#[derive(Drop)]
pub struct Vouchers {
    alloc: Global,
    pub(crate) pairs: Pairs,
}

impl Vouchers {
    /// No pair.
    pub fn new(alloc: Global) -> Vouchers
        ensures { (key item : List ℕ) → HasPair result.pairs key item → ⊥ }
    {
        Vouchers {
            alloc,
            pairs: BTreeMap::new(alloc),
        }
    }

    /// One pair more, of a key's digest and an item's. A refused one leaves the pairs.
    pub fn push(&mut self, key_digest: [u8; 32], item_digest: [u8; 32]) -> Result<(), OutOfMemory>
        ensures pushed { OnOk result ((key item : List ℕ) → HasPair self.new.pairs key item ↔ (HasPair self.old.pairs key item ⊎ ((key ≡ key_digest) × (item ≡ item_digest)))) }
        ensures refused { OnErr result ((key item : List ℕ) → HasPair self.new.pairs key item ↔ HasPair self.old.pairs key item) }
    {
        match self.pairs.entry(item_digest)? {
            Entry::Occupied(keys) => keys.into_mut().add(self.alloc, key_digest)?,
            Entry::Vacant(place) => {
                place.insert(Keys::One(key_digest));
            }
        }
        Ok(())
    }
}

impl Vouch for Vouchers {
    ghost use Rattle.cert_judge.specs.Vouching.{vouching_alone};
    ghost use Rattle.cert_vouchers.specs.Vouching.{VouchesBy};

    /// The pairs vouch for a key and an item whose digests are one of them. No extension is
    /// processed.
    ghost vouches_for = { λ v. vouching_alone (VouchesBy v.pairs) };

    fn vouches(&self, key: &[u8], item: &[u8]) -> bool {
        has_pair(&self.pairs, &Computed, key, item)
    }

    fn processes(&self, _item: &[u8], _identifier: &[u8]) -> bool {
        false
    }

    fn vouched_by_each(
        &self,
        alloc: Global,
        keys: &[&[u8]],
        items: &[&[u8]],
        chosen: &[usize],
    ) -> Result<Vec<Vec<usize>>, AllocError> {
        if let Some(rows) = rows_of(alloc, &self.pairs, &Computed, keys, items, chosen)? {
            return Ok(rows);
        }
        let mut rows = Vec::with_capacity(alloc, keys.len())?;
        for key in keys {
            rows.push(self.vouched_by(alloc, key, items, chosen)?)?;
        }
        Ok(rows)
    }
}
