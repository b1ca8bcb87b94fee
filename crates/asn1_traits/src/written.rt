//! Values written one after another.

ghost use Rattle.std.specs.Prelude.{◌≡◌, ◌↔◌, IsTrue};
ghost use Rattle.asn1_traits.specs.Lists.{all_written, EachIs, OneIs};
ghost use Rattle.asn1_traits.specs.Writes.{IsLong, Measures, Writes};

use crate::write::ToDer;
use asn1_core::{SerializeError, SerializeResult};
use asn1_device::Sink;

/// Returns whether each value is in DER form.
pub fn are_in_der_form<T: ToDer>(items: &[T]) -> bool
    ensures { IsTrue result ↔ EachIs T.is_der items.now }
{
    let mut rest = items;
    while let Some((item, after)) = rest.split_first() {
        if !item.in_der_form() {
            return false;
        }
        rest = after;
    }
    true
}

/// Returns how many octets are written of the values, one after another. `InvalidLength` if the
/// number passes `usize`.
pub fn items_len<T: ToDer>(items: &[T]) -> SerializeResult<usize>
    ensures { Measures (all_written T.element items.now) result }
{
    let mut total = 0usize;
    let mut rest = items;
    while let Some((item, after)) = rest.split_first() {
        let n = match item.to_der_len() {
            Ok(n) => n,
            Err(e) => return Err(e),
        };
        total = match total.checked_add(n) {
            Some(n) => n,
            None => return Err(SerializeError::InvalidLength),
        };
        rest = after;
    }
    Ok(total)
}

/// Writes the values one after another, and returns the number of octets. Errors are those of
/// `write_der`.
pub fn write_items<T: ToDer, S: Sink>(items: &[T], writer: &mut S) -> SerializeResult<usize>
    ensures { Writes (S.contents writer.old) (S.contents writer.new) (S.failures writer.old) (S.failures writer.new)
        (IsLong (all_written T.element items.now)) (OneIs T.grows items.now) (EachIs T.is_der items.now → ⊥) (all_written T.element items.now) result }
{
    let mut total = 0usize;
    let mut rest = items;
    while let Some((item, after)) = rest.split_first() {
        let n = match item.write_der(writer) {
            Ok(n) => n,
            Err(e) => return Err(e),
        };
        total = match total.checked_add(n) {
            Some(n) => n,
            None => return Err(SerializeError::InvalidLength),
        };
        rest = after;
    }
    Ok(total)
}
