//! Reads items in hex from standard input, one a line, and prints each with its class by both roads: `HEX = other`, or `certificate` or
//! `list` and below it each field in a line of its own, by its name, and what the fields write. `N:HEX` tells whether the item's fields are in range
//! where their version is the digit N, counted from 0 as it is written. `keys:HEX` tells a certificate's key identifiers. `typed,N,M:HEX` tells
//! whether `read_typed_counted` tries at least N headers and at most M, `tree,N,M:HEX` whether the reader of trees does.
//!
//! Empty lines and those that begin with `#` are printed as they stand.
#![tactic(auto)]

mod attempts;
mod classes;
mod fields;
mod parts;

use crate::classes::add_item;
use rows_hex::{Added, Rows, octets_of, print_rows};
use std::io;

fn main(rt: HostRuntime) -> io::Result<()> {
    print_rows(&rt, &CertRows)
}

/// The rows of items.
struct CertRows;

impl Rows for CertRows {
    fn add_outcome(&self, text: &mut String, row: &str) -> Added {
        let (question, digits) = match row.split_once(':') {
            Some((question, digits)) => (Some(question), digits),
            None => (None, row),
        };
        let alloc = *text.allocator();
        match octets_of(alloc, digits)? {
            Some(octets) => add_item(text, question, &octets),
            None => text.push_str("no octets"),
        }
    }
}
