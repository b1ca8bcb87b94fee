//! The content of a set: what is written of its values, in ascending order.

ghost use Rattle.std.specs.Prelude.{◌≡◌, ◌<◌, length, map, IfOk, IfErr, OnErr};
ghost use Rattle.std.specs.List.{flat_map};
ghost use Rattle.std.specs.Vec.{vec_items};
ghost use Rattle.asn1_traits.specs.Lists.{all_written, EachIs};
ghost use Rattle.asn1_traits.specs.Writes.{IsLong};
ghost use Rattle.asn1_lists.specs.Encoding.{Unmade};
ghost use Rattle.asn1_lists.specs.Ordered.{encodings, set_order};

use asn1_core::{SerializeError, SerializeResult};
use asn1_traits::ToDer;
use std::alloc::{AllocError, Global};

/// Returns the octets that are written of each value, in ascending order of these octets
/// (X.690, 11.6).
pub(crate) fn set_content<T: ToDer>(items: &[T], alloc: Global) -> SerializeResult<Vec<u8>>
    ensures ok { IfOk result (λ v. v.items ≡ all_written T.element (set_order T.element items.now)) }
    ensures err { IfErr result (Unmade (IsLong (all_written T.element items.now)) (0 < length items.now) (EachIs T.is_der items.now → ⊥)) }
{
    let mut parts = match encode_each(items, alloc) {
        Ok(parts) => parts,
        Err(e) => return Err(e),
    };
    match parts.sort() {
        Ok(()) => {}
        Err(_) => return Err(SerializeError::OutOfMemory),
    }
    match join(parts.as_slice(), alloc) {
        Ok(octets) => Ok(octets),
        Err(_) => Err(SerializeError::OutOfMemory),
    }
}

// What is written of each value.
fn encode_each<T: ToDer>(items: &[T], alloc: Global) -> SerializeResult<Vec<Vec<u8>>>
    ensures ok { IfOk result (λ parts. map vec_items parts.items ≡ encodings T.element items.now) }
    ensures err { IfErr result (Unmade (IsLong (all_written T.element items.now)) (0 < length items.now) (EachIs T.is_der items.now → ⊥)) }
{
    let mut parts = Vec::new(alloc);
    let mut rest = items;
    while let Some((item, after)) = rest.split_first() {
        let octets = match item.to_der_vec(alloc) {
            Ok(octets) => octets,
            Err(e) => return Err(e),
        };
        match parts.push(octets) {
            Ok(()) => rest = after,
            Err(_) => return Err(SerializeError::OutOfMemory),
        }
    }
    Ok(parts)
}

// The octets of the parts, one after another.
fn join(parts: &[Vec<u8>], alloc: Global) -> Result<Vec<u8>, AllocError>
    ensures ok { IfOk result (λ v. v.items ≡ flat_map vec_items parts.now) }
    ensures err { OnErr result (0 < length parts.now) }
{
    let mut octets = Vec::new(alloc);
    let mut rest = parts;
    while let Some((part, after)) = rest.split_first() {
        match octets.extend_from_slice(part.as_slice()) {
            Ok(()) => rest = after,
            Err(e) => return Err(e),
        }
    }
    Ok(octets)
}
