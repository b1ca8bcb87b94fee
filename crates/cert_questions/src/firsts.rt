//! The first holder of each key under a name.

ghost use Rattle.std.specs.Prelude.{◌≡◌, ◌↔◌, ◌<◌, ℕ, List, length, option_map, IfOk, Contains};
ghost use Rattle.std.specs.List.Sorted.{IsStrictlyIncreasing};
ghost use Rattle.cert_graph.specs.declared.places.Place.{Place};
ghost use Rattle.cert_graph.specs.declared.places.Part.TheVariants.{Key};
ghost use Rattle.cert_graph.specs.Places.{text_at};
ghost use Rattle.cert_questions.specs.Firsts.{IsFirstAmong, AreFirstsUnder, Knows};

use cert_graph::{Part, Place, alike};
use std::alloc::{AllocError, Global};
use std::collections::{BTreeMap, BTreeSet};

/// The first holder of each key, name by name.
#[derive(Drop)]
pub(crate) struct KeyHolders<'a> {
    /// The number of each name.
    numbers: BTreeMap<&'a [u8], usize>,
    /// By that number, the places of the first holders in ascending order.
    firsts: Vec<Vec<usize>>,
}

fn key_at<'a>(all: &[Place<'a>], place: usize) -> Option<&'a [u8]>
    ensures { option_map (λ t. t.now) result ≡ text_at Key all.now place }
{
    match all.get(place) {
        Some(holder) => holder.key,
        None => None,
    }
}

fn numbers_below(alloc: Global, count: usize) -> Result<Vec<usize>, AllocError>
    ensures ascends { IfOk result (λ numbers. IsStrictlyIncreasing numbers.items) }
    ensures exact { IfOk result (λ numbers. (v : ℕ) → Contains numbers.items v ↔ (v < count)) }
{
    let mut numbers = Vec::with_capacity(alloc, count)?;
    for number in 0..count {
        numbers.push(number)?;
    }
    Ok(numbers)
}

/// Of some places, the first that shows each key.
fn firsts_of(alloc: Global, all: &[Place<'_>], places: &[usize]) -> Result<Vec<usize>, AllocError>
    requires { IsStrictlyIncreasing places.now }
    ensures ascends { IfOk result (λ firsts. IsStrictlyIncreasing firsts.items) }
    ensures exact { IfOk result (λ firsts. (v : ℕ) → Contains firsts.items v ↔ (Contains places.now v × IsFirstAmong all.now places.now v)) }
{
    let mut seen = BTreeSet::new(alloc);
    let mut firsts = Vec::new(alloc);
    for place in places {
        if let Some(key) = key_at(all, *place) {
            if seen.insert(key)? {
                firsts.push(*place)?;
            }
        }
    }
    Ok(firsts)
}

impl<'a> KeyHolders<'a> {
    /// The first holders among places.
    pub(crate) fn new(alloc: Global, all: &[Place<'a>]) -> Result<KeyHolders<'a>, AllocError>
        ensures { IfOk result (λ holders. Knows all.now holders) }
    {
        let mut numbers = BTreeMap::new(alloc);
        let mut firsts = Vec::new(alloc);
        let chosen = numbers_below(alloc, all.len())?;
        let buckets = alike(alloc, all, Part::Name, &chosen)?;
        for (number, bucket) in buckets.iter().enumerate() {
            numbers.insert(bucket.text, number)?;
            firsts.push(firsts_of(alloc, all, &bucket.places)?)?;
        }
        Ok(KeyHolders { numbers, firsts })
    }

    /// The first holders of the keys under a name, in ascending order.
    pub(crate) fn under(&self, name: &'a [u8]) -> &[usize]
        ensures { (all : List Place) → Knows all self.now → AreFirstsUnder all name.now result.now }
    {
        let Some(number) = self.numbers.get(&name) else {
            return &[];
        };
        match self.firsts.get(*number) {
            Some(places) => places,
            None => &[],
        }
    }
}
