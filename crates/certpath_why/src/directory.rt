//! A look-up of positions by name, made once for the subjects of items and anchors and for the
//! issuers of lists. It costs a sort of the names; each look-up is one of a sorted map.

ghost use Rattle.std.specs.Prelude.{◌≡◌, ◌↔◌, ◌<◌, ℕ, List, length, IfOk, Contains, slice_index_or};
ghost use Rattle.std.specs.List.Sorted.{IsStrictlyIncreasing};
ghost use Rattle.cert_graph.specs.declared.places.Place.{Place};
ghost use Rattle.cert_graph.specs.declared.places.Part.TheVariants.{Name};
ghost use Rattle.cert_graph.specs.Places.{Shows};
ghost use Rattle.cert_graph.specs.declared.buckets.Bucket.{Bucket};
ghost use Rattle.certpath_why.specs.Reached.{ArePositions};
ghost use Rattle.certpath_why.specs.Numbered.{AreNumbered};
ghost use Rattle.certpath_why.specs.Directories.{IsDirectory};

use cert_graph::{Bucket, Part, Place, TextNumbers, alike};
use std::alloc::{AllocError, Global};

/// The positions of each name, found by a sorted map.
#[derive(Drop)]
pub(crate) struct Directory<'a> {
    pub(crate) buckets: Vec<Bucket<'a>>,
    numbers: TextNumbers<'a>,
    ghost numbered: { AreNumbered buckets.items (length buckets.items) numbers },
}

/// Returns the numbers below a count, in ascending order.
pub(crate) fn numbers_below(alloc: Global, count: usize) -> Result<Vec<usize>, AllocError>
    ensures ascends { IfOk result (λ numbers. IsStrictlyIncreasing numbers.items) }
    ensures exact { IfOk result (λ numbers. (v : ℕ) → Contains numbers.items v ↔ (v < count)) }
{
    let mut numbers = Vec::with_capacity(alloc, count)?;
    for number in 0..count {
        numbers.push(number)?;
    }
    Ok(numbers)
}

/// The number of each bucket, by its text.
fn numbers_of<'a>(alloc: Global, buckets: &[Bucket<'a>]) -> Result<TextNumbers<'a>, AllocError>
    ensures { IfOk result (AreNumbered buckets.now (length buckets.now)) }
{
    let mut numbers = TextNumbers::new(alloc);
    for (number, bucket) in buckets.iter().enumerate() {
        numbers.insert(bucket.text, number)?;
    }
    Ok(numbers)
}

/// The places of a bucket.
fn places_in<'b>(buckets: &'b [Bucket<'_>], number: usize) -> &'b [usize]
    requires { number < length buckets.now }
    ensures { (b : Bucket) → result.now ≡ (slice_index_or buckets.now number b).places.items }
{
    let bucket = &buckets[number];
    bucket.places.as_slice()
}

impl<'a> Directory<'a> {
    /// The directory of some places.
    pub(crate) fn new(alloc: Global, all: &[Place<'a>]) -> Result<Directory<'a>, AllocError>
        ensures { IfOk result (λ d. IsDirectory all.now d.buckets.items) }
    {
        let chosen = numbers_below(alloc, all.len())?;
        let buckets = alike(alloc, all, Part::Name, &chosen)?;
        let numbers = numbers_of(alloc, &buckets)?;
        Ok(Directory { buckets, numbers })
    }

    /// The positions that show a name, in ascending order.
    pub(crate) fn positions(&self, name: &'a [u8]) -> &[usize]
        ensures { (all : List Place) → IsDirectory all self.now.buckets.items → ArePositions (λ v. Shows Name all v name.now) result.now }
    {
        match self.numbers.get(name) {
            Some(number) => places_in(&self.buckets, number),
            None => &[],
        }
    }
}
