//! Values by themselves.

use anyhow::{Context, Result, bail};
use asn1_core::Error;
use asn1_times::UtcTime;
use asn1_traits::{FromDer, ToDer};
use std::alloc::Global;

/// How often the values of a file are read, or written.
const ROUNDS: usize = 1_000;

/// Reads the times that stand one behind the other, round after round.
pub(crate) fn read_times(alloc: Global, octets: &[u8]) -> Result<usize> {
    let mut count: usize = 0;
    for _ in 0..ROUNDS {
        let times = count_times(alloc, octets)?;
        count = count.checked_add(times).context("too many times")?;
    }
    Ok(count)
}

/// How many UTCTimes the octets are, one behind the other.
fn count_times(alloc: Global, octets: &[u8]) -> Result<usize> {
    let mut rest = octets;
    for count in 0..=octets.len() {
        if rest.is_empty() {
            return Ok(count);
        }
        let Ok((after, _)) = <UtcTime as FromDer<Error>>::from_der(alloc, rest) else {
            bail!("no time begins {} octets before the end", rest.len());
        };
        rest = after;
    }
    bail!("more times than octets")
}

/// Reads the numbers once, and writes them round after round.
pub(crate) fn write_numbers(alloc: Global, octets: &[u8]) -> Result<usize> {
    let Ok((_, numbers)) = <Vec<u32> as FromDer<Error>>::from_der(alloc, octets) else {
        bail!("no sequence of numbers");
    };
    let mut size: usize = 0;
    for _ in 0..ROUNDS {
        let Ok(written) = numbers.to_der_vec(alloc) else {
            bail!("not written");
        };
        size = size.checked_add(written.len()).context("too many octets")?;
    }
    Ok(size)
}
