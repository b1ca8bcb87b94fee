//! The pair of a line.

ghost use Rattle.std.specs.Prelude.{◌≡◌, ℕ, List, IfSome, IsSomeAnd};
ghost use Rattle.cert_vouchers.specs.VoucherFile.{TellsPair};

use crate::digits::{DIGITS, digest_of};

/// The digests of a key and of an item, if the line holds them.
pub(crate) fn pair_of(line: &[u8]) -> Option<([u8; 32], [u8; 32])>
    ensures found { IfSome result (λ pair. TellsPair line.now pair.0 pair.1) }
    ensures only { (key item : List ℕ) → TellsPair line.now key item → IsSomeAnd result (λ pair. (pair.0 ≡ key) × (pair.1 ≡ item)) }
{
    if line.len() < DIGITS {
        return None;
    }
    let (first, behind) = line.split_at(DIGITS);
    let (between, second) = behind.split_first()?;
    if *between != b' ' {
        return None;
    }
    let key = digest_of(first)?;
    let item = digest_of(second)?;
    Some((key, item))
}
