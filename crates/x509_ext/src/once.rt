//! A map that keeps the first value of each identifier.

ghost use Rattle.std.specs.Prelude.{◌≡◌, ℕ, List, not, IfOk, OnOk, OnErr, is_some, Some, None, if◌then◌else◌, bytes_eq};
ghost use Rattle.x509_ext.specs.Maps.{held_at, first_or};

use asn1_core::OutOfMemory;
use asn1_oid::Oid;
use std::collections::BTreeMap;

/// Inserts a value if its identifier has none yet; returns whether it was inserted. Takes log n
/// time for n values.
///
/// # Errors
///
/// Out of memory.
pub fn add_once<'a, T: Drop>(
    values: &mut BTreeMap<Oid<'a>, T>,
    oid: Oid<'a>,
    value: T,
) -> Result<bool, OutOfMemory>
    ensures told { IfOk result (λ added. added ≡ not (is_some (held_at values.old oid.entry))) }
    ensures held { OnOk result ((id : List ℕ) → held_at values.new id
        ≡ (if bytes_eq oid.entry id then Some (first_or (held_at values.old id) value) else held_at values.old id)) }
    ensures absent { OnErr result (held_at values.old oid.entry ≡ None) }
    ensures unchanged { OnErr result ((id : List ℕ) → held_at values.new id ≡ held_at values.old id) }
{
    if values.contains_key(&oid) {
        return Ok(false);
    }
    values.insert(oid, value)?;
    Ok(true)
}
