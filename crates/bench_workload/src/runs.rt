//! Runs over octets.

use crate::bundles::Inputs;
use crate::digest::Digest;
use crate::failure::Failure;
use asn1_device::{ReadSource, WriteSink};
use certcheck::Policy;
use certpath_run::{Outcome, RunError, Settings, run};
use jiff::civil::date;
use std::alloc::Global;
use std::io::Cursor;

/// The most content octets of an item.
const LIMIT: u32 = 16_777_216;

/// A run on a target, and what it writes.
pub(crate) fn note_run(
    alloc: Global,
    digest: &mut Digest,
    inputs: &Inputs,
    target: usize,
    demand_lists: bool,
) -> Result<(), Failure> {
    let settings = Settings {
        target,
        policy: Policy::new(date(2026, 6, 1).at(0, 0, 0, 0), demand_lists),
        limit: LIMIT,
    };
    let mut bundle = ReadSource::new(Cursor::new(inputs.bundle.as_slice()));
    let mut anchors = ReadSource::new(Cursor::new(inputs.anchors.as_slice()));
    let mut vouchers = ReadSource::new(Cursor::new(inputs.vouchers.as_slice()));
    let mut sink = WriteSink::new(Vec::new(alloc));
    let outcome = run(
        alloc,
        &mut bundle,
        &mut anchors,
        &mut vouchers,
        &settings,
        &mut sink,
    );
    digest.octets(&sink.into_inner());
    match outcome {
        Ok(Outcome::Path) => digest.number(1),
        Ok(Outcome::NoPath) => digest.number(2),
        Ok(Outcome::NoTarget) => digest.number(3),
        Err(RunError::OutOfMemory) => return Err(Failure::OutOfMemory),
        Err(_) => return Err(Failure::Unread),
    }
    Ok(())
}
