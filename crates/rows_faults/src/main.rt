//! Reads items in hex from standard input, one a line, and prints of each the text of its first fault by the strict grammar; `none` of a
//! certificate or a list.
//!
//! Empty lines and those that begin with `#` are printed as they are.
#![tactic(auto)]

use cert_faults::first_fault;
use fault_texts::push_fault;
use rows_hex::{Added, Rows, octets_of, print_rows};
use std::alloc::AllocError;
use std::io;

fn main(rt: HostRuntime) -> io::Result<()> {
    print_rows(&rt, &FaultRows)
}

/// The rows of items.
struct FaultRows;

impl Rows for FaultRows {
    fn add_outcome(&self, text: &mut String, row: &str) -> Added {
        let alloc = *text.allocator();
        let Some(octets) = octets_of(alloc, row)? else {
            return text.push_str("no octets");
        };
        match first_fault(alloc, octets.as_slice()) {
            Ok(Some(fault)) => push_fault(text, &fault),
            Ok(None) => text.push_str("none"),
            Err(_) => Err(AllocError),
        }
    }
}
