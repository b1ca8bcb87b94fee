//! Reads lines from standard input and prints each; behind a line that asks whether an answer is adequate, what `check` says.
//!
//! `octets NAME HEX` names octets. `case` begins a new case, in which nothing is held; `at YEAR MONTH DAY HOUR MINUTE SECOND` sets
//! its moment, `demand` demands lists, `items NAME..` and `anchors NAME..` add items and anchors, `vouch KEY NAME..` lets a
//! key vouch for items. The questions are `path TARGET POSITION.. to ANCHOR ROW..`, `none TARGET ROW..` and `other TARGET`; a
//! row is `No`, `Any` and numbers, with commas between them. Behind `run TARGET` comes what a run writes and answers, behind `find TARGET` the
//! table of the answer that is found. `all` is followed by whether the verdicts on all items are what is found for each alone, and what
//! `check_all` says of them. Other lines are printed as they stand.
#![tactic(auto)]

mod answers;
mod cases;
mod inventories;
mod reports;
mod vouching;

use crate::cases::Case;
use jiff::civil::DateTime;
use std::io;

fn main(rt: HostRuntime) -> io::Result<()> {
    let mut case = Case::new(rt.alloc(), DateTime::MIN);
    for line in rt.lines(rt.alloc()) {
        let line = line?;
        let mut text = String::new(rt.alloc());
        case.add_line(&mut text, line.as_str())?;
        println!(rt; "{text}")?;
    }
    Ok(())
}
