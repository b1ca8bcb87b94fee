//! Prints, of certificates that are written out here, the reasons why each is not usable, and the
//! reasons why it may not issue others.
#![tactic(auto)]

mod processing;
mod rows;

use crate::processing::Processing;
use crate::rows::{ROWS, Row, certificate, moment};
use cert_reasons::{why_no_issuer, why_unusable};
use std::alloc::{AllocError, Global};
use std::io;

fn main(rt: HostRuntime) -> io::Result<()> {
    let alloc = rt.alloc();
    for row in ROWS.iter() {
        let Ok(text) = text_of(alloc, row) else {
            return Err(io::Error::from(io::ErrorKind::OutOfMemory));
        };
        println!(&rt; "{text}")?;
    }
    Ok(())
}

/// The row's name with the reasons of its certificate.
fn text_of(alloc: Global, row: &Row) -> Result<String, AllocError> {
    let fields = certificate(alloc, row.extensions)?;
    let moment = moment(row.when);
    let processing = Processing {
        identifier: row.processes,
    };
    let unusable = why_unusable(alloc, &fields, &processing, &[], &moment)?;
    let no_issuer = why_no_issuer(alloc, &fields)?;
    format!(in alloc; "{}: {unusable:?} {no_issuer:?}", row.name)
}
