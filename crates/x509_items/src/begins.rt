//! Readers of repeated values.

ghost use Rattle.std.specs.Prelude.{◌≡◌, map, All, IfOk};
ghost use Rattle.x509_core.specs.Reading.{many_of};
ghost use Rattle.x509_items.specs.Answers.{Takes, IfTaken};
ghost use Rattle.x509_items.specs.Reading.{some_of, all_of};

use asn1_core::OutOfMemory;
use std::alloc::Global;

/// A type with a reader for the front of octets.
pub trait Begins<'a>: Sized {
    ghost use Rattle.std.specs.Prelude.{◌<◌, length};
    ghost use Rattle.x509_core.specs.Reading.{Reader};
    ghost use Rattle.x509_items.specs.Answers.{Takes, IfTaken};

    /// The data that a value represents.
    ghost Data: { Type 0 };

    /// The data of a value.
    ghost stands_for: { Self → Data };

    /// The function of the reader.
    ghost reader: { Reader Data };

    /// The elements in a value have the lengths of their contents.
    ghost IsCounted: { Self → Type 0 };

    /// Reads one value from the front. Returns `(rest, value)`, or `None`.
    fn begin(alloc: Global, i: &'a [u8]) -> Result<Option<(&'a [u8], Self)>, OutOfMemory>
        ensures read { Takes (λ r. (stands_for r.1, r.0.now)) result (reader i.now) }
        ensures counted { IfTaken result (λ r. IsCounted r.1) }
        ensures shorter { IfTaken result (λ r. length r.0.now < length i.now) };
}

/// Reads values until none begins. Returns `(rest, values)`.
///
/// # Errors
///
/// Out of memory.
pub fn each<'a, T: Begins<'a> + Drop>(
    alloc: Global,
    i: &'a [u8],
) -> Result<(&'a [u8], Vec<T>), OutOfMemory>
    ensures read { IfOk result (λ r. many_of T.reader i.now ≡ (map T.stands_for r.1.items, r.0.now)) }
    ensures counted { IfOk result (λ r. All T.IsCounted r.1.items) }
{
    let mut values = Vec::new(alloc);
    let mut left = i;
    while let Some((rest, value)) = T::begin(alloc, left)? {
        values.push(value)?;
        left = rest;
    }
    Ok((left, values))
}

/// Reads at least one value, until none begins. Returns `(rest, values)`, or `None` if none begins.
///
/// # Errors
///
/// Out of memory.
pub fn some<'a, T: Begins<'a> + Drop>(
    alloc: Global,
    i: &'a [u8],
) -> Result<Option<(&'a [u8], Vec<T>)>, OutOfMemory>
    ensures read { Takes (λ r. (map T.stands_for r.1.items, r.0.now)) result (some_of T.reader i.now) }
    ensures counted { IfTaken result (λ r. All T.IsCounted r.1.items) }
{
    let (rest, values) = each::<T>(alloc, i)?;
    if values.is_empty() {
        return Ok(None);
    }
    Ok(Some((rest, values)))
}

/// Reads values to the end of the octets; `None` if octets are left.
///
/// # Errors
///
/// Out of memory.
pub fn all<'a, T: Begins<'a> + Drop>(
    alloc: Global,
    i: &'a [u8],
) -> Result<Option<Vec<T>>, OutOfMemory>
    ensures read { Takes (λ v. map T.stands_for v.items) result (all_of T.reader i.now) }
    ensures counted { IfTaken result (λ v. All T.IsCounted v.items) }
{
    let (rest, values) = each::<T>(alloc, i)?;
    if rest.is_empty() {
        return Ok(Some(values));
    }
    Ok(None)
}
