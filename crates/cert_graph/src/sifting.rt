//! Places chosen among others.

ghost use Rattle.std.specs.Prelude.{◌≡◌, ◌↔◌, ◌+◌, ◌<◌, ◌^◌, ℕ, IfOk, Contains, Option, is_some};
ghost use Rattle.std.specs.List.Sorted.{IsStrictlyIncreasing};
ghost use Rattle.cert_graph.specs.Places.{text_at};
ghost use Rattle.cert_graph.specs.declared.places.Part.TheVariants.{Id};

use crate::places::{Part, Place, text_at};
use std::alloc::{AllocError, Global};

/// Returns the chosen places from `first` to below `first + count`, each less `first`, ascending.
/// The only error is out of memory.
pub fn between(
    alloc: Global,
    chosen: &[usize],
    first: usize,
    count: usize,
) -> Result<Vec<usize>, AllocError>
    requires { IsStrictlyIncreasing chosen.now }
    ensures ascends { IfOk result (λ found. IsStrictlyIncreasing found.items) }
    ensures exact { IfOk result (λ found. (v : ℕ) → Contains found.items v ↔ (Contains chosen.now (first + v) × (v < count))) }
{
    let mut found = Vec::new(alloc);
    for place in chosen {
        if *place >= first && *place - first < count {
            found.push(*place - first)?;
        }
    }
    Ok(found)
}

/// The chosen places that show a key identifier, or those that show none.
pub(crate) fn identified(
    alloc: Global,
    all: &[Place<'_>],
    chosen: &[usize],
    shown: bool,
) -> Result<Vec<usize>, AllocError>
    requires { IsStrictlyIncreasing chosen.now }
    ensures ascends { IfOk result (λ found. IsStrictlyIncreasing found.items) }
    ensures exact { IfOk result (λ found. (v : ℕ) → Contains found.items v ↔ (Contains chosen.now v × (is_some (text_at Id all.now v) ≡ shown))) }
{
    let mut found = Vec::new(alloc);
    for place in chosen {
        if text_at(all, Part::Id, *place).is_some() == shown {
            found.push(*place)?;
        }
    }
    Ok(found)
}
