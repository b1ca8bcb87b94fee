//! What a run writes, and the table of the answer that is found.

use crate::vouching::{VouchedPair, VouchedPairs};
use asn1_device::{ReadSource, WriteSink};
use cert_graph::{Answer, Reach, Table, rows_of};
use certpath_run::{Settings, run};
use rows_hex::{Added, add_debug};
use sha2::{Digest, Sha256};
use std::alloc::{AllocError, Global};
use std::io::Cursor;

fn add_digest(text: &mut String, octets: &[u8]) -> Added {
    let digits = hex::encode(*text.allocator(), Sha256::digest(octets))?;
    text.push_str(digits.as_str())
}

fn add_pair(text: &mut String, pair: &VouchedPair) -> Added {
    add_digest(text, &pair.key)?;
    text.push(' ')?;
    add_digest(text, &pair.item)?;
    text.push('\n')
}

/// The pairs as a voucher file.
fn voucher_text(alloc: Global, vouched: &VouchedPairs) -> Result<String, AllocError> {
    let mut text = String::new(alloc);
    for pair in &vouched.pairs {
        add_pair(&mut text, pair)?;
    }
    Ok(text)
}

/// Adds what a run over these octets writes, and what it answers.
pub(crate) fn add_report(
    text: &mut String,
    items: &[u8],
    anchors: &[u8],
    vouched: &VouchedPairs,
    settings: &Settings,
) -> Added {
    let alloc = *text.allocator();
    let vouchers = voucher_text(alloc, vouched)?;
    let mut bundle = ReadSource::new(Cursor::new(items));
    let mut anchors = ReadSource::new(Cursor::new(anchors));
    let mut vouchers = ReadSource::new(Cursor::new(vouchers.as_bytes()));
    let mut sink = WriteSink::new(Vec::new(alloc));
    let answer = run(
        alloc,
        &mut bundle,
        &mut anchors,
        &mut vouchers,
        settings,
        &mut sink,
    );
    add_written(text, &sink.into_inner())?;
    match answer {
        Ok(outcome) => add_debug(text, &outcome),
        Err(error) => add_debug(text, &error),
    }
}

/// Adds what was written, below the line.
fn add_written(text: &mut String, octets: &[u8]) -> Added {
    text.push('\n')?;
    match str::from_utf8(octets) {
        Ok(written) => text.push_str(written),
        Err(_) => text.push_str("no text "),
    }
}

fn add_reach(text: &mut String, reach: Reach) -> Added {
    match reach {
        Reach::No => text.push_str("No"),
        Reach::UpTo(number) => write!(text, "{number}"),
        Reach::Any => text.push_str("Any"),
    }
}

fn add_row(text: &mut String, row: &[Reach]) -> Added {
    for (place, reach) in row.iter().enumerate() {
        text.push(if place == 0 { ' ' } else { ',' })?;
        add_reach(text, *reach)?;
    }
    Ok(())
}

fn add_rows(text: &mut String, table: &Table) -> Added {
    match table {
        Table::Row(row) => add_row(text, row),
        Table::Rows { width, steps } => {
            let rows = rows_of(*text.allocator(), *width, steps)?;
            for row in &rows {
                add_row(text, row)?;
            }
            Ok(())
        }
    }
}

/// Adds the rows of an answer's table, below the line.
pub(crate) fn add_table(text: &mut String, answer: &Answer) -> Added {
    text.push_str("\ntable")?;
    match answer {
        Answer::Path { table, .. } => add_rows(text, table),
        Answer::NoPath { table } => add_rows(text, table),
        Answer::NoTarget => Ok(()),
    }
}
