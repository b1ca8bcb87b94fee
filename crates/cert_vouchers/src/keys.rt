//! The keys of one item.

ghost use Rattle.std.specs.Prelude.{◌≡◌, ◌↔◌, ◌⊎◌, ℕ, List, IsTrue, IfOk, OnOk, OnErr};
ghost use Rattle.std.specs.BTreeSet.{contains};
ghost use Rattle.std.specs.Cmp.Lexicographic.{slice_cmp};
ghost use Rattle.std.specs.Ordering.{nat_cmp};
ghost use Rattle.cert_vouchers.specs.Vouching.{HoldsKey};

use std::alloc::{AllocError, Global};
use std::collections::BTreeSet;

/// The digests of the keys that vouch for an item. The first is in the entry, without memory.
#[derive(Drop)]
pub(crate) enum Keys {
    One([u8; 32]),
    Many(BTreeSet<[u8; 32]>),
}

impl Keys {
    /// Whether a key is one of them.
    pub(crate) fn contains(&self, key: &[u8; 32]) -> bool
        ensures { IsTrue result ↔ HoldsKey self.now key.now }
    {
        match self {
            Keys::One(only) => only == key,
            Keys::Many(keys) => keys.contains(key),
        }
    }

    /// One key more, unless it is one of them. A refused one leaves them.
    pub(crate) fn add(&mut self, alloc: Global, key: [u8; 32]) -> Result<(), AllocError>
        ensures added { OnOk result ((k : List ℕ) → HoldsKey self.new k ↔ (HoldsKey self.old k ⊎ (k ≡ key))) }
        ensures refused { OnErr result ((k : List ℕ) → HoldsKey self.new k ↔ HoldsKey self.old k) }
    {
        match self {
            Keys::One(only) => {
                let only = *only;
                if only == key {
                    return Ok(());
                }
                *self = Keys::Many(set_of_two(alloc, only, key)?);
                Ok(())
            }
            Keys::Many(keys) => {
                keys.insert(key)?;
                Ok(())
            }
        }
    }
}

fn set_of_two(
    alloc: Global,
    one: [u8; 32],
    other: [u8; 32],
) -> Result<BTreeSet<[u8; 32]>, AllocError>
    ensures { IfOk result (λ keys. (k : List ℕ) → IsTrue (contains (slice_cmp nat_cmp) keys k) ↔ ((k ≡ one) ⊎ (k ≡ other))) }
{
    let mut keys = BTreeSet::new(alloc);
    keys.insert(one)?;
    keys.insert(other)?;
    Ok(keys)
}
