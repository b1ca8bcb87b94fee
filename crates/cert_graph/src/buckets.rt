//! Places with equal octets in one part.

ghost use Rattle.std.specs.Prelude.{◌≡◌, ◌<◌, ℕ, length, IfOk, OnOk};
ghost use Rattle.std.specs.List.Sorted.{IsStrictlyIncreasing};
ghost use Rattle.cert_graph.specs.Places.{Shows};
ghost use Rattle.cert_graph.specs.Buckets.{AreBuckets, IsPushed};

use crate::places::{Part, Place, text_at};
use crate::texts::TextNumbers;
use std::alloc::{AllocError, Global};

/// Places whose part has these octets, in ascending order.
#[derive(Drop)]
pub struct Bucket<'a> {
    pub text: &'a [u8],
    pub places: Vec<usize>,
}

// One place more at the end of a bucket.
fn push_to(buckets: &mut Vec<Bucket<'_>>, number: usize, place: usize) -> Result<(), AllocError>
    requires { number < length buckets.now.items }
    ensures { OnOk result (IsPushed buckets.old.items buckets.new.items number place) }
{
    let bucket = &mut buckets[number];
    bucket.places.push(place)?;
    Ok(())
}

/// Returns a bucket for each value that the chosen places have in a part, with the places that have
/// it in ascending order; places without the part are in none. Takes as many comparisons of octets
/// as a sorted map of them: by the last eight octets, and whole if these are equal. The only error
/// is out of memory.
pub fn alike<'a>(
    alloc: Global,
    all: &[Place<'a>],
    part: Part,
    chosen: &[usize],
) -> Result<Vec<Bucket<'a>>, AllocError>
    requires { IsStrictlyIncreasing chosen.now }
    ensures { IfOk result (λ buckets. AreBuckets (Shows part all.now) chosen.now buckets.items) }
{
    let mut known = TextNumbers::new(alloc);
    let mut buckets = Vec::new(alloc);
    for place in chosen {
        if let Some(text) = text_at(all, part, *place) {
            match known.get(text) {
                Some(number) => push_to(&mut buckets, number, *place)?,
                None => {
                    known.insert(text, buckets.len())?;
                    let places = vec![in alloc; *place]?;
                    buckets.push(Bucket { text, places })?;
                }
            }
        }
    }
    Ok(buckets)
}
