//! An inventory: for each of several targets of one bundle, whether it has a path.

use crate::bundles::{Inputs, key_digest};
use crate::digest::Digest;
use crate::failure::Failure;
use crate::lists::write_list;
use crate::random::Random;
use crate::runs::note_run;
use crate::shapes::{Numbers, Shapes};
use std::alloc::{AllocError, Global};

/// How large the bundle is, and how many targets are asked for.
#[derive(Drop)]
struct Size {
    anchors: usize,
    authorities: usize,
    leaves: usize,
    entries: usize,
    targets: usize,
}

const WHOLE: Size = Size {
    anchors: 8,
    authorities: 40,
    leaves: 1_400,
    entries: 30,
    targets: 24,
};

const SMALL: Size = Size {
    anchors: 2,
    authorities: 4,
    leaves: 12,
    entries: 3,
    targets: 2,
};

/// Who issues: the number of its name, and the digest of its key.
#[derive(Clone, Copy)]
struct Issuer {
    number: u32,
    key: [u8; 32],
}

/// One of several issuers.
fn one_of(issuers: &[Issuer], random: &mut Random) -> Option<Issuer> {
    issuers.get(random.below(issuers.len())).copied()
}

fn numbers_of(subject: u32, issuer: u32, random: &mut Random) -> Numbers {
    Numbers {
        subject,
        issuer,
        serial: random.number(),
        drawn: random.number(),
    }
}

/// The anchors, written to the anchors' file.
fn make_anchors(
    alloc: Global,
    shapes: &Shapes,
    random: &mut Random,
    inputs: &mut Inputs,
    count: usize,
) -> Result<Vec<Issuer>, Failure> {
    let mut issuers = Vec::new(alloc);
    for _ in 0..count {
        let number = random.number();
        let numbers = numbers_of(number, number, random);
        shapes.anchor.write(&mut inputs.anchors, &numbers)?;
        let key = key_digest(alloc, &shapes.anchor, &numbers)?;
        issuers
            .push(Issuer { number, key })
            .map_err(AllocError::from)?;
    }
    Ok(issuers)
}

/// The authorities, each with a certificate by an anchor and one by an authority before it, and a list.
fn make_authorities(
    alloc: Global,
    shapes: &Shapes,
    random: &mut Random,
    inputs: &mut Inputs,
    anchors: &[Issuer],
    size: &Size,
) -> Result<Vec<Issuer>, Failure> {
    let mut issuers: Vec<Issuer> = Vec::new(alloc);
    for turn in 0..size.authorities {
        let number = random.number();
        let mut numbers = numbers_of(number, 0, random);
        let key = key_digest(alloc, &shapes.authority, &numbers)?;
        // a quarter of them lead to an anchor by others alone
        let above = if turn % 4 == 3 {
            None
        } else {
            one_of(anchors, random)
        };
        for issuer in [above, one_of(&issuers, random)].into_iter().flatten() {
            numbers.issuer = issuer.number;
            numbers.drawn = random.number();
            inputs.push(alloc, &shapes.authority, &numbers, Some(&issuer.key))?;
        }
        let mut list = Vec::new(alloc);
        write_list(alloc, &mut list, shapes, random, number, size.entries)?;
        inputs.push_item(alloc, &list, Some(&key))?;
        issuers
            .push(Issuer { number, key })
            .map_err(AllocError::from)?;
    }
    Ok(issuers)
}

/// The whole of it: leaves first, since their places are the targets.
fn make(
    alloc: Global,
    shapes: &Shapes,
    random: &mut Random,
    size: &Size,
) -> Result<Inputs, Failure> {
    let mut above = Inputs::new(alloc);
    let anchors = make_anchors(alloc, shapes, random, &mut above, size.anchors)?;
    let issuers = make_authorities(alloc, shapes, random, &mut above, &anchors, size)?;
    let mut inputs = Inputs::new(alloc);
    for turn in 0..size.leaves {
        let Some(issuer) = one_of(&issuers, random) else {
            return Err(Failure::Unread);
        };
        let numbers = numbers_of(random.number(), issuer.number, random);
        let Some(shape) = shapes.leaves.get(turn % 3) else {
            return Err(Failure::Shapes);
        };
        inputs.push(alloc, shape, &numbers, Some(&issuer.key))?;
    }
    inputs.bundle.extend_from_slice(&above.bundle)?;
    inputs.anchors.extend_from_slice(&above.anchors)?;
    inputs.vouchers.extend_from_slice(&above.vouchers)?;
    Ok(inputs)
}

/// A run for each of the targets, every other one demanding lists.
pub(crate) fn run_all(
    alloc: Global,
    shapes: &Shapes,
    random: &mut Random,
    small: bool,
) -> Result<Digest, Failure> {
    let size = if small { SMALL } else { WHOLE };
    let inputs = make(alloc, shapes, random, &size)?;
    let mut digest = Digest::new();
    for turn in 0..size.targets {
        // another target at each turn, since the leaves are more than the turns
        let target = turn.saturating_mul(5);
        note_run(alloc, &mut digest, &inputs, target, turn % 2 == 1)?;
    }
    Ok(digest)
}
