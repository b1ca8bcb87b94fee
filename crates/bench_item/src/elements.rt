//! Elements within elements.

use anyhow::{Context, Result, bail};
use asn1_any::Any;
use asn1_core::Error;
use asn1_lists::{DerParser, SequenceIterator};
use std::alloc::Global;

/// The most levels of elements within elements.
const LEVELS: u32 = 50;

/// How many elements the octets are, each behind the other, with those within.
pub(crate) fn count_elements(alloc: Global, octets: &[u8]) -> Result<usize> {
    count_levels(alloc, octets, LEVELS)
}

/// The same on so many levels.
fn count_levels(alloc: Global, octets: &[u8], levels: u32) -> Result<usize> {
    let Some(below) = levels.checked_sub(1) else {
        bail!("more than {LEVELS} levels");
    };
    let mut count: usize = 0;
    for any in SequenceIterator::<Any<'_>, DerParser, Error>::new(alloc, octets) {
        let Ok(any) = any else {
            bail!("no element begins the octets behind {count} others");
        };
        let within = if any.header.is_constructed() {
            count_levels(alloc, any.content, below)?
        } else {
            0
        };
        count = count
            .checked_add(within)
            .and_then(|n| n.checked_add(1))
            .context("too many elements")?;
    }
    Ok(count)
}
