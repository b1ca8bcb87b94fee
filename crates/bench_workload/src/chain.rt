//! A long chain of issuers that leads to the anchor, with a target beside it that nobody issued, and one below it.

use crate::bundles::{Inputs, key_digest};
use crate::digest::Digest;
use crate::failure::Failure;
use crate::random::Random;
use crate::runs::note_run;
use crate::shapes::{Numbers, Shapes};
use std::alloc::Global;

const LENGTH: usize = 8_000;

const FEW: usize = 6;

/// How far below the anchor the second target is.
const NEAR: usize = 4;

/// Runs on the target beside the chain, and on one that is a few steps below the anchor.
pub(crate) fn run_all(
    alloc: Global,
    shapes: &Shapes,
    random: &mut Random,
    small: bool,
) -> Result<Digest, Failure> {
    let length = if small { FEW } else { LENGTH };
    let mut numbers = Numbers {
        subject: random.number(),
        issuer: random.number(),
        serial: random.number(),
        drawn: random.number(),
    };
    let mut inputs = Inputs::new(alloc);
    shapes.link.write(&mut inputs.anchors, &numbers)?;
    let mut key = key_digest(alloc, &shapes.link, &numbers)?;
    for _ in 0..length {
        numbers.issuer = numbers.subject;
        numbers.subject = random.number();
        numbers.drawn = random.number();
        inputs.push(alloc, &shapes.link, &numbers, Some(&key))?;
        key = key_digest(alloc, &shapes.link, &numbers)?;
    }
    numbers.issuer = random.number();
    numbers.subject = random.number();
    inputs.push(alloc, &shapes.link, &numbers, None)?;
    let mut digest = Digest::new();
    note_run(alloc, &mut digest, &inputs, length, false)?;
    note_run(alloc, &mut digest, &inputs, NEAR, false)?;
    Ok(digest)
}
