//! Reads files, and says how much there was. Words come in pairs, how a file is read and the file: `elements` for `SequenceIterator` on all
//! levels, `objects` for `parse_der`; `typed` for `X509Certificate::from_der`, `plain` for a parser that leaves the values of extensions
//! unparsed, `list` for `CertificateRevocationList::from_der`, `tree` for `read_tree`, `road` for `read_typed`; `times` for UTCTimes,
//! which are read a thousand times over, `numbers` for a SEQUENCE of INTEGERs, which is read once and written a thousand times.
//!
//! Of a file of items it also checks an answer, where every key vouches for everything: `path` for the first ten items as a path to the first
//! anchor, `none`, or `find` for what is found on the first item. The anchors are those of the file behind `anchors`, which comes before; standard error
//! has how long each took.
#![tactic(auto)]

mod answers;
mod checks;
mod elements;
mod items;
mod values;

use crate::checks::{framed, run};
use crate::elements::count_elements;
use crate::items::count_items;
use crate::values::{read_times, write_numbers};
use anyhow::{Context, Result, bail};
use certcheck::Items;
use std::alloc::Global;
use std::{env, fs};

fn main(rt: HostRuntime) -> Result<()> {
    let mut anchors = framed(rt.alloc(), &[])?;
    let mut reader = None;
    for word in env::args(&rt)?.skip(1) {
        match reader.take() {
            None => reader = Some(word),
            Some(reader) => tell(&rt, reader.as_str(), word.as_str(), &mut anchors)?,
        }
    }
    if reader.is_some() {
        bail!("words come in pairs: how a file is read, and the file");
    }
    Ok(())
}

/// Says what there is in the file, read so.
fn tell(rt: &HostRuntime, reader: &str, name: &str, anchors: &mut Items) -> Result<()> {
    let octets = fs::read(rt, name).context(format_args!("reading {name:?}"))?;
    match reader {
        "anchors" => *anchors = framed(rt.alloc(), octets.as_slice())?,
        "path" | "none" | "find" => {
            let items = framed(rt.alloc(), octets.as_slice())?;
            run(rt, reader, &items, anchors)?;
        }
        _ => {
            let count = counted(rt.alloc(), reader, octets.as_slice())?;
            println!(rt; "{name}: {count} {reader} in {} octets", octets.len())?;
        }
    }
    Ok(())
}

/// How much there is, read so.
fn counted(alloc: Global, reader: &str, octets: &[u8]) -> Result<usize> {
    match reader {
        "elements" => count_elements(alloc, octets),
        "times" => read_times(alloc, octets),
        "numbers" => write_numbers(alloc, octets),
        _ => count_items(alloc, reader, octets),
    }
}
