//! Reads tickets in DER from the file that the command line names, prints each, and shows that it is written as it was read.
#![tactic(auto)]

mod ticket;

use crate::ticket::Ticket;
use anyhow::{Context, Result, bail};
use asn1_core::Error;
use asn1_traits::{FromDer, ToDer};
use std::{env, fs};

fn main(rt: HostRuntime) -> Result<()> {
    let Some(name) = env::args(&rt)?.nth(1) else {
        bail!("the word is a FILE of tickets");
    };
    let octets = fs::read(&rt, name.as_str()).context(format_args!("cannot read {name}"))?;
    let mut rest = octets.as_slice();
    for _ in 0..octets.len() {
        if rest.is_empty() {
            break;
        }
        rest = print_first(&rt, rest)?;
    }
    Ok(())
}

/// Prints the ticket at the front of the octets, and returns the rest.
fn print_first<'a>(rt: &HostRuntime, octets: &'a [u8]) -> Result<&'a [u8]> {
    let (rest, ticket) = <Ticket as FromDer<'_, Error>>::from_der(rt.alloc(), octets)?;
    let written = ticket.to_der_vec(rt.alloc())?;
    let is_same = octets.starts_with(written.as_slice());
    println!(rt;
        "ticket {}, valid: {}, written as it was read: {is_same}",
        ticket.serial, ticket.valid
    )?;
    Ok(rest)
}
