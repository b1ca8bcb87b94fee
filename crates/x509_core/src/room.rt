//! Pushing into a vector with room for several values at once.

ghost use Rattle.std.specs.Prelude.{◌≡◌, ◌≤◌, ◌∷◌, ◌++◌, [], if◌then◌else◌, vec_len, vec_capacity, is_ok, IfErr, OnErr};

use std::alloc::AllocFailed;

/// Adds a value to a vector. The first push reserves room for `room` values, so an empty vector
/// takes no memory, and it isn't moved until more are added.
///
/// If that room is refused, the vector grows as by `Vec::push`.
///
/// # Errors
///
/// `AllocFailed` if that is refused too: it returns the value, and the vector is unchanged.
#[inline(always)]
pub fn push_in_room<T>(values: &mut Vec<T>, value: T, room: usize) -> Result<(), AllocFailed<T>>
    ensures items { values.new.items ≡ (if is_ok result then values.old.items ++ value ∷ [] else values.old.items) }
    ensures value_returned { IfErr result (λ e. e.value ≡ value) }
    ensures full { OnErr result (vec_capacity values.old ≤ vec_len values.old) }
{
    if values.is_empty() {
        let _ = values.reserve_exact(room);
    }
    values.push(value)
}
