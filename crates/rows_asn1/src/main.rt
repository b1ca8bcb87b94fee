//! Reads rows `KIND OCTETS` from standard input, and prints each with what its octets mean: `KIND OCTETS = OUTCOME`.
//!
//! The octets stand in hex, or as a text in quotes. A kind is a call and what it is called for, as `der:u32`, or the name of a reader
//! of objects, as `parse_der`. Empty lines and those that begin with `#` are printed as they stand.
#![tactic(auto)]

mod contents;
mod conversions;
mod elements;
mod headers;
mod kinds;
mod lists;
mod objects;
mod tagged;
mod tags;
mod texts;
mod tree;
mod trees;
mod values;
mod words;

use crate::kinds::add_row;
use rows_hex::{Added, Rows, print_rows};
use std::io;

fn main(rt: HostRuntime) -> io::Result<()> {
    print_rows(&rt, &Asn1Rows)
}

/// The rows of values, elements, headers, tags and objects.
struct Asn1Rows;

impl Rows for Asn1Rows {
    fn add_outcome(&self, text: &mut String, row: &str) -> Added {
        add_row(text, row)
    }
}
