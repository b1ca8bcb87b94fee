//! What is vouched for: the one question to the caller, which key signed which item. Nothing here
//! verifies a signature.

ghost use Rattle.std.specs.Prelude.{◌↔◌, IsTrue, IfOk};
ghost use Rattle.std.specs.List.Sorted.{IsStrictlyIncreasing};
ghost use Rattle.cert_judge.specs.Rows.{VouchesAt, IsRow, AreRows};
ghost use Rattle.cert_judge.specs.Vouching.{Vouching};

use std::alloc::{AllocError, Global};

/// Says which key signed which item, and which extensions the caller processes itself.
pub trait Vouch {
    /// What the value vouches for, and what it processes. Fixed relations of the value.
    ghost vouches_for: { Self → Vouching };

    /// Whether a key, octets of a SubjectPublicKeyInfo, vouches for a whole certificate or list.
    fn vouches(&self, key: &[u8], item: &[u8]) -> bool
        ensures { IsTrue result ↔ (vouches_for self.now).Vouches key.now item.now };

    /// Whether the caller processes extensions with an identifier, its content octets, in a whole
    /// item, so that they may be critical there (RFC 5280, 6.1.4, o, and 6.1.5, f): it has to judge
    /// their values. basicConstraints and keyUsage are judged here, whatever is returned.
    fn processes(&self, item: &[u8], identifier: &[u8]) -> bool
        ensures { IsTrue result ↔ (vouches_for self.now).Processes item.now identifier.now };

    /// Whether a key vouches for the item at a place among items. `false` past their end.
    fn vouches_at(&self, key: &[u8], items: &[&[u8]], place: usize) -> bool
        ensures { IsTrue result ↔ VouchesAt (vouches_for self.now).Vouches items.now key.now place }
    {
        match items.get(place) {
            Some(item) => self.vouches(key, item),
            None => false,
        }
    }

    /// The places of the items that a key vouches for, in ascending order, of those at the chosen
    /// places. By default each is asked for by `vouches`. The only error is out of memory.
    fn vouched_by(
        &self,
        alloc: Global,
        key: &[u8],
        items: &[&[u8]],
        chosen: &[usize],
    ) -> Result<Vec<usize>, AllocError>
        requires { IsStrictlyIncreasing chosen.now }
        ensures { IfOk result (λ row. IsRow (vouches_for self.now).Vouches items.now chosen.now key.now row.items) }
    {
        let mut row = Vec::new(alloc);
        for place in chosen {
            if self.vouches_at(key, items, *place) {
                row.push(*place)?;
            }
        }
        Ok(row)
    }

    /// For each key, in the keys' order, the chosen places of items that it vouches for, ascending.
    /// By default each pair is asked for; override this to look keys up. Fails if out of memory.
    fn vouched_by_each(
        &self,
        alloc: Global,
        keys: &[&[u8]],
        items: &[&[u8]],
        chosen: &[usize],
    ) -> Result<Vec<Vec<usize>>, AllocError>
        requires { IsStrictlyIncreasing chosen.now }
        ensures { IfOk result (λ rows. AreRows (vouches_for self.now).Vouches keys.now items.now chosen.now rows.items) }
    {
        let mut rows = Vec::with_capacity(alloc, keys.len())?;
        for key in keys {
            rows.push(self.vouched_by(alloc, key, items, chosen)?)?;
        }
        Ok(rows)
    }
}
