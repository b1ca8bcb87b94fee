//! Values compare, and hash, as their numbers.
ghost use Rattle.std.specs.Prelude.{nat_eq};
ghost use Rattle.std.proofs.Common.{rules};
ghost use Rattle.std.specs.Ordering.{on, nat_cmp, as_partial_cmp};
ghost use Rattle.std.specs.Hash as fed;
ghost use Rattle.std.specs.Cmp.Rules.{comparing};
ghost use Rattle.asn1_unsigned.specs.Numbers.{number_of, octets_of, same_hash};

use crate::unsigned::UnsignedBytes;
use std::cmp::Ordering;
use std::hash::{Hash, Hasher};

impl<'a> PartialEq for UnsignedBytes<'a> {
    ghost eq = { on number_of nat_eq };

    ghost laws = { Prim.search (comparing, rules) };

    fn eq(&self, other: &Self) -> bool {
        self.as_bytes() == other.as_bytes()
    }
}

impl<'a> Eq for UnsignedBytes<'a> {
    ghost laws = { Prim.search (comparing, rules) };
}

impl<'a> PartialOrd for UnsignedBytes<'a> {
    ghost partial_cmp = { as_partial_cmp (on number_of nat_cmp) };

    ghost laws = { Prim.search (comparing, rules) };

    fn partial_cmp(&self, other: &Self) -> Option<Ordering> {
        Some(self.cmp(other))
    }
}

impl<'a> Ord for UnsignedBytes<'a> {
    ghost cmp = { on number_of nat_cmp };

    ghost total = { Prim.search (comparing, rules) };

    ghost matches_partial_cmp = { Prim.search (comparing, rules) };

    ghost matches_eq = { Prim.search (comparing, rules) };

    fn cmp(&self, other: &Self) -> Ordering {
        let left = self.as_bytes();
        let right = other.as_bytes();
        match left.len().cmp(&right.len()) {
            Ordering::Equal => left.cmp(right),
            order => order,
        }
    }
}

impl<'a> Hash for UnsignedBytes<'a> {
    ghost hash_input = { λ v. fed.slice fed.u8 (octets_of v) };

    ghost respects_eq = { same_hash };

    fn hash<H: Hasher>(&self, state: &mut H) {
        self.as_bytes().hash(state);
    }
}
