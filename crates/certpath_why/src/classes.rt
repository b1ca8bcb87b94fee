//! Octets by numbers: equal octets have one number, so that what is asked of them is asked once.

ghost use Rattle.std.specs.Prelude.{◌≡◌, ◌<◌, ℕ, length, slice_index_or, Contains, IfOk, OnOk};
ghost use Rattle.std.specs.List.Sorted.{IsStrictlyIncreasing};
ghost use Rattle.certpath_why.specs.Classes.{AreClasses, AreKept, AreKnown, IsNumberOf, number_at};

use crate::positions::put_in_order;
use cert_graph::TextNumbers;
use std::alloc::{AllocError, Global};

/// The numbers of octets, from 0.
#[derive(Drop)]
pub(crate) struct Classes<'a> {
    /// The number of each, by its position.
    pub(crate) numbers: Vec<usize>,
    /// The octets of each number.
    pub(crate) texts: Vec<&'a [u8]>,
}

/// The number of octets, which is a new one if they are new.
fn number_of<'a>(
    known: &mut TextNumbers<'a>,
    texts: &mut Vec<&'a [u8]>,
    text: &'a [u8],
) -> Result<usize, AllocError>
    requires { AreKnown texts.now.items known.now }
    ensures known { OnOk result (AreKnown texts.new.items known.new) }
    ensures kept { OnOk result (AreKept texts.old.items texts.new.items) }
    ensures number { IfOk result (λ n. IsNumberOf texts.new.items n text.now) }
{
    if let Some(number) = known.get(text) {
        return Ok(number);
    }
    let number = texts.len();
    known.insert(text, number)?;
    texts.push(text)?;
    Ok(number)
}

/// The numbers of all these octets. It costs a sort of them.
pub(crate) fn classes_of<'a>(alloc: Global, all: &[&'a [u8]]) -> Result<Classes<'a>, AllocError>
    ensures { IfOk result (AreClasses all.now) }
{
    let mut known = TextNumbers::new(alloc);
    let mut texts = Vec::new(alloc);
    let mut numbers = Vec::with_capacity(alloc, all.len())?;
    for text in all {
        let number = number_of(&mut known, &mut texts, text)?;
        numbers.push(number)?;
    }
    Ok(Classes { numbers, texts })
}

/// Returns the numbers at some places, in ascending order and each once.
pub(crate) fn numbers_at(
    alloc: Global,
    numbers: &[usize],
    places: &[usize],
) -> Result<Vec<usize>, AllocError>
    ensures ascend { IfOk result (λ found. IsStrictlyIncreasing found.items) }
    ensures all { IfOk result (λ found. (v : ℕ) → Contains places.now v → v < length numbers.now → Contains found.items (slice_index_or numbers.now v 0)) }
    ensures only { IfOk result (λ found. (n : ℕ) → Contains found.items n → (v : ℕ) × Contains places.now v × (v < length numbers.now) × (slice_index_or numbers.now v 0 ≡ n)) }
{
    let mut found = Vec::new(alloc);
    for place in places {
        let at = *place;
        if at >= numbers.len() {
            continue;
        }
        found.push(numbers[at])?;
    }
    put_in_order(&mut found)?;
    Ok(found)
}

impl Classes<'_> {
    /// The number of the octets at a position.
    pub(crate) fn number(&self, place: usize) -> usize
        requires { place < length self.now.numbers.items }
        ensures { result ≡ slice_index_or self.now.numbers.items place 0 }
    {
        self.numbers[place]
    }

    /// The octets at a position by another number, of which one is given for each of their numbers.
    pub(crate) fn number_by(&self, others: &[usize], place: usize) -> usize
        requires place { place < length self.now.numbers.items }
        requires number { slice_index_or self.now.numbers.items place 0 < length others.now }
        ensures { result ≡ number_at self.now others.now place }
    {
        let number = self.number(place);
        others[number]
    }
}
