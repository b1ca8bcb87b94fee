//! Copies of values that hold vectors.

ghost use Rattle.std.specs.Prelude.{◌≡◌, IfOk, map, option_map};

use asn1_core::OutOfMemory;
use std::alloc::Global;
use x509_core::Oid;

/// A type whose values can be copied with equal data.
pub trait Copies: Sized {
    ghost use Rattle.std.specs.Prelude.{◌≡◌, IfOk};

    /// The data that a value represents.
    ghost Value: { Type 0 };

    /// The data of a value.
    ghost value: { Self → Value };

    /// A copy that borrows the same octets as the value.
    ///
    /// # Errors
    ///
    /// Out of memory.
    fn copy(&self, alloc: Global) -> Result<Self, OutOfMemory>
        ensures { IfOk result (λ copy. value copy ≡ value self.now) };
}

/// Copies all values in order.
///
/// # Errors
///
/// Out of memory.
pub fn copy_all<T: Copies + Drop>(alloc: Global, items: &[T]) -> Result<Vec<T>, OutOfMemory>
    ensures { IfOk result (λ copies. map T.value copies.items ≡ map T.value items.now) }
{
    let mut copies = Vec::new(alloc);
    for item in items {
        copies.push(item.copy(alloc)?)?;
    }
    Ok(copies)
}

impl<'a> Copies for Oid<'a> {
    ghost use Rattle.std.specs.Prelude.{List, ℕ};

    ghost Value = { List ℕ };

    ghost value = { λ oid. oid };

    fn copy(&self, alloc: Global) -> Result<Oid<'a>, OutOfMemory> {
        self.clone(alloc)
    }
}

/// Copies all values in order, if there is a vector of them.
///
/// # Errors
///
/// Out of memory.
pub fn copy_some<T: Copies + Drop>(
    alloc: Global,
    items: &Option<Vec<T>>,
) -> Result<Option<Vec<T>>, OutOfMemory>
    ensures { IfOk result (λ copies. option_map (λ v. map T.value v.items) copies ≡ option_map (λ v. map T.value v.items) items.now) }
{
    match items {
        Some(items) => Ok(Some(copy_all(alloc, items.as_slice())?)),
        None => Ok(None),
    }
}
