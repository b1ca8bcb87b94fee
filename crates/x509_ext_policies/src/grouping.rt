//! A map from identifiers to groups of values.

ghost use Rattle.std.specs.Prelude.{◌≡◌, ◌++◌, ◌∷◌, [], ℕ, List, Some, None, IfOk, if◌then◌else◌, bytes_eq};
ghost use Rattle.x509_ext_policies.specs.Grouping.{held_at, values_or_none};

use asn1_core::OutOfMemory;
use asn1_oid::Oid;
use std::alloc::Global;
use std::collections::BTreeMap;

/// Appends a value to the group of its identifier.
///
/// # Errors
///
/// `OutOfMemory`; the group of this identifier may be gone then.
pub fn add_to_group<'a, T: Drop>(
    alloc: Global,
    groups: &mut BTreeMap<Oid<'a>, Vec<T>>,
    oid: Oid<'a>,
    value: T,
) -> Result<(), OutOfMemory>
    ensures { IfOk result (λ _. (id : List ℕ) → held_at groups.new id
        ≡ (if bytes_eq oid.entry id then Some (values_or_none (held_at groups.old id) ++ value ∷ []) else held_at groups.old id)) }
{
    let mut values = take_group(alloc, groups, &oid);
    values.push(value)?;
    groups.insert(oid, values)?;
    Ok(())
}

// Takes the values of an identifier out of the map.
fn take_group<'a, T: Drop>(
    alloc: Global,
    groups: &mut BTreeMap<Oid<'a>, Vec<T>>,
    oid: &Oid<'a>,
) -> Vec<T>
    ensures items { result.items ≡ values_or_none (held_at groups.old oid.now) }
    ensures others { (id : List ℕ) → held_at groups.new id ≡ (if bytes_eq oid.now id then None else held_at groups.old id) }
{
    match groups.remove(oid) {
        Some(values) => values,
        None => Vec::new(alloc),
    }
}
