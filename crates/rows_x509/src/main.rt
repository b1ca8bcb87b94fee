//! Reads rows `GROUP CALL OCTETS` from standard input, and prints each with what the call answers: `GROUP CALL OCTETS = OUTCOME`.
//!
//! Groups: of readers `certificate`, `list`, `value`; of calls on what was read `walk`, `validator`, `call`; `tables` names the calls
//! of each. The octets stand in hex. Empty lines and those that begin with `#` are printed as they stand.
#![tactic(auto)]

mod call;
mod called;
mod certificate;
mod kinds;
mod list;
mod row;
mod tables;
mod validator;
mod value;
mod walk;
mod words;

use crate::row::add_row;
use rows_hex::{Added, Rows, print_rows};
use std::io;

fn main(rt: HostRuntime) -> io::Result<()> {
    print_rows(&rt, &X509Rows)
}

/// The rows of all crates of `x509_parser`.
struct X509Rows;

impl Rows for X509Rows {
    fn add_outcome(&self, text: &mut String, row: &str) -> Added {
        add_row(text, row)
    }
}
