//! Certificates that all have one name, as subject and as issuer, and a key each.

use crate::bundles::{Inputs, key_digest};
use crate::digest::Digest;
use crate::failure::Failure;
use crate::random::Random;
use crate::runs::note_run;
use crate::shapes::{Numbers, Shapes};
use std::alloc::Global;

const CERTIFICATES: usize = 360;

const FEW: usize = 8;

/// How many runs there are, each on certificates of its own.
const RUNS: usize = 3;

/// Runs on the first of so many certificates. Of every four, one is vouched for by the key of the one before it; nobody vouches for
/// the first.
fn note_names(
    alloc: Global,
    digest: &mut Digest,
    shapes: &Shapes,
    random: &mut Random,
    count: usize,
) -> Result<(), Failure> {
    let mut inputs = Inputs::new(alloc);
    let mut before = None;
    for turn in 0..count {
        let numbers = Numbers {
            subject: random.number(),
            issuer: 0,
            serial: random.number(),
            drawn: random.number(),
        };
        let voucher = if turn % 4 == 3 { before.as_ref() } else { None };
        inputs.push(alloc, &shapes.same, &numbers, voucher)?;
        before = Some(key_digest(alloc, &shapes.same, &numbers)?);
    }
    let numbers = Numbers {
        subject: random.number(),
        issuer: 0,
        serial: random.number(),
        drawn: random.number(),
    };
    shapes.same.write(&mut inputs.anchors, &numbers)?;
    note_run(alloc, digest, &inputs, 0, false)
}

/// One run after the other.
pub(crate) fn run_all(
    alloc: Global,
    shapes: &Shapes,
    random: &mut Random,
    small: bool,
) -> Result<Digest, Failure> {
    let (runs, count) = if small {
        (1, FEW)
    } else {
        (RUNS, CERTIFICATES)
    };
    let mut digest = Digest::new();
    for _ in 0..runs {
        note_names(alloc, &mut digest, shapes, random, count)?;
    }
    Ok(digest)
}
