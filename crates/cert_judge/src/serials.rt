//! Serial numbers of lists as sets, and those among them that are asked about.

ghost use Rattle.std.specs.Prelude.{◌≡◌, ◌↔◌, ◌⊎◌, ℕ, List, Any, IsTrue, IfOk, IfSome, OnOk};
ghost use Rattle.std.specs.Borrow.{Bor};
ghost use Rattle.std.specs.BTreeSet as sorted;
ghost use Rattle.cert_judge.specs.Serials.{HasEqual, IsSetOf};

use std::alloc::{AllocError, Global};
use std::collections::BTreeSet;

fn add_all<'a>(revoked: &mut BTreeSet<&'a [u8]>, serials: &[&'a [u8]]) -> Result<(), AllocError>
    ensures { OnOk result ((s : Bor (List ℕ)) → IsTrue (sorted.contains ⟦<&'a [u8] as Ord>⟧.cmp revoked.new s)
        ↔ (IsTrue (sorted.contains ⟦<&'a [u8] as Ord>⟧.cmp revoked.old s) ⊎ Any (λ t. t.now ≡ s.now) serials.now)) }
{
    for serial in serials {
        revoked.insert(*serial)?;
    }
    Ok(())
}

/// Serial numbers as a set.
pub(crate) fn set_of<'a>(
    alloc: Global,
    serials: &[&'a [u8]],
) -> Result<BTreeSet<&'a [u8]>, AllocError>
    ensures { IfOk result (IsSetOf serials.now) }
{
    let mut set = BTreeSet::new(alloc);
    add_all(&mut set, serials)?;
    Ok(set)
}

/// Adds those that are asked about and are in a set.
fn add_asked<'a>(
    revoked: &mut BTreeSet<&'a [u8]>,
    set: &BTreeSet<&'a [u8]>,
    asked: &[&'a [u8]],
) -> Result<(), AllocError>
    ensures { OnOk result ((s : Bor (List ℕ)) → IsTrue (sorted.contains ⟦<&'a [u8] as Ord>⟧.cmp revoked.new s)
        ↔ (IsTrue (sorted.contains ⟦<&'a [u8] as Ord>⟧.cmp revoked.old s)
        ⊎ Any (λ t. (t.now ≡ s.now) × IsTrue (sorted.contains ⟦<&'a [u8] as Ord>⟧.cmp set.now t)) asked.now)) }
{
    for serial in asked {
        if set.contains(serial) {
            revoked.insert(*serial)?;
        }
    }
    Ok(())
}

/// Adds, of the serial numbers of a list, at least those that are asked about. If fewer are
/// asked about than the list has, and the list's are known as a set, each is looked up there.
pub(crate) fn add_list<'a>(
    revoked: &mut BTreeSet<&'a [u8]>,
    serials: &[&'a [u8]],
    known: Option<&BTreeSet<&'a [u8]>>,
    asked: &[&'a [u8]],
) -> Result<(), AllocError>
    requires { IfSome known (λ set. IsSetOf serials.now set.now) }
    ensures { OnOk result ((s : Bor (List ℕ)) → HasEqual s.now asked.now → IsTrue (sorted.contains ⟦<&'a [u8] as Ord>⟧.cmp revoked.new s)
        ↔ (IsTrue (sorted.contains ⟦<&'a [u8] as Ord>⟧.cmp revoked.old s) ⊎ HasEqual s.now serials.now)) }
{
    match known {
        Some(set) if asked.len() < serials.len() => add_asked(revoked, set, asked),
        _ => add_all(revoked, serials),
    }
}
