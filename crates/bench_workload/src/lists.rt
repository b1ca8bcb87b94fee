//! Revocation lists with many entries, read.

use crate::digest::Digest;
use crate::failure::Failure;
use crate::parts::{note_extensions, note_time};
use crate::random::Random;
use crate::shapes::{Numbers, Shapes};
use std::alloc::{AllocError, Global};
use x509_parser::FromDer;
use x509_parser::revocation_list::{CertificateRevocationList, RevokedCertificate};

/// How many lists there are, and how many entries the longest has at most.
const LISTS: usize = 200;

const ENTRIES: usize = 48_000;

const FEW: usize = 3;

/// The octet of a size that counts in units of so many.
fn octet_of(size: usize, unit: usize) -> u8 {
    match size.checked_div(unit) {
        Some(units) => (units % 256) as u8,
        None => 0,
    }
}

/// The header of a SEQUENCE of so many content octets, in its shortest form; of fewer than 2^24.
fn push_header(out: &mut Vec<u8>, size: usize) -> Result<(), AllocError> {
    let last = octet_of(size, 1);
    let middle = octet_of(size, 256);
    let first = octet_of(size, 65_536);
    match size {
        0..=0x7f => out.extend_from_slice(&[0x30, last]),
        0x80..=0xff => out.extend_from_slice(&[0x30, 0x81, last]),
        0x100..=0xffff => out.extend_from_slice(&[0x30, 0x82, middle, last]),
        _ => out.extend_from_slice(&[0x30, 0x83, first, middle, last]),
    }
}

/// Appends a SEQUENCE.
fn push_sequence(out: &mut Vec<u8>, content: &[u8]) -> Result<(), AllocError> {
    push_header(out, content.len())?;
    out.extend_from_slice(content)
}

/// Appends a list of an issuer, with so many entries, a third of them with a reason.
pub(crate) fn write_list(
    alloc: Global,
    out: &mut Vec<u8>,
    shapes: &Shapes,
    random: &mut Random,
    issuer: u32,
    entries: usize,
) -> Result<(), AllocError> {
    let mut numbers = Numbers {
        subject: 0,
        issuer,
        serial: random.number(),
        drawn: random.number(),
    };
    let mut revoked = Vec::new(alloc);
    for turn in 0..entries {
        numbers.serial = random.number();
        if turn % 3 == 0 {
            shapes.list.reasoned.write(&mut revoked, &numbers)?;
        } else {
            shapes.list.entry.write(&mut revoked, &numbers)?;
        }
    }
    let mut signed = Vec::new(alloc);
    shapes.list.head.write(&mut signed, &numbers)?;
    push_sequence(&mut signed, &revoked)?;
    shapes.list.extensions.write(&mut signed, &numbers)?;
    let mut whole = Vec::new(alloc);
    push_sequence(&mut whole, &signed)?;
    shapes.list.signature.write(&mut whole, &numbers)?;
    push_sequence(out, &whole)
}

/// What an entry says: whose serial number, since when, and why; and its extensions.
fn note_entry(digest: &mut Digest, entry: &RevokedCertificate<'_>) {
    digest.octets(entry.raw_serial());
    note_time(digest, entry.revocation_date);
    match entry.reason_code() {
        Some((critical, reason)) => {
            digest.flag(critical);
            digest.number(u64::from(reason.0));
        }
        None => digest.number(10),
    }
    note_extensions(digest, entry.extensions());
}

/// What a list says.
fn note_list(
    alloc: Global,
    digest: &mut Digest,
    list: &CertificateRevocationList<'_>,
) -> Result<(), AllocError> {
    match list.version() {
        Some(version) => digest.number(u64::from(version.0)),
        None => digest.number(10),
    }
    let issuer = format!(in alloc; "{}", list.issuer())?;
    digest.octets(issuer.as_bytes());
    note_time(digest, list.last_update());
    match list.next_update() {
        Some(time) => note_time(digest, time),
        None => digest.number(10),
    }
    match list.crl_number() {
        Some(number) => digest.octets(number.as_bytes()),
        None => digest.number(10),
    }
    for entry in list.iter_revoked_certificates() {
        note_entry(digest, entry);
    }
    note_extensions(digest, list.extensions());
    digest.octets(list.signature_algorithm.algorithm.as_bytes());
    digest.number(u64::from(list.signature_value.unused_bits));
    digest.octets(list.signature_value.content);
    Ok(())
}

/// Reads lists of drawn lengths, and notes each entry.
pub(crate) fn read_all(
    alloc: Global,
    shapes: &Shapes,
    random: &mut Random,
    small: bool,
) -> Result<Digest, Failure> {
    let (lists, entries) = if small { (FEW, 20) } else { (LISTS, ENTRIES) };
    let mut digest = Digest::new();
    for turn in 0..lists {
        let issuer = random.number();
        // a part of the longest, by its place, so that each seed has as many entries
        let count = entries / (turn % 8 + 1);
        let mut octets = Vec::new(alloc);
        write_list(alloc, &mut octets, shapes, random, issuer, count)?;
        match CertificateRevocationList::from_der(alloc, octets.as_slice()) {
            Ok((rest, list)) => {
                digest.octets(rest);
                note_list(alloc, &mut digest, &list)?;
            }
            Err(_) => return Err(Failure::Unread),
        }
    }
    Ok(digest)
}
