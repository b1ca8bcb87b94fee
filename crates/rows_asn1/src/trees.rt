//! Objects of any type.

use crate::tree::add_words_of;
use der_parser::{
    BerObject, BerResult, parse_ber, parse_ber_recursive, parse_der, parse_der_recursive,
};
use rows_hex::{Added, add_debug};
use std::alloc::Global;

/// Adds what `parse_der` reads, whether it is written as it was read, and how many of its shorter fronts are read.
pub(crate) fn add_der(text: &mut String, octets: &[u8]) -> Added {
    match parse_der(*text.allocator(), octets) {
        Ok((rest, object)) => add_der_words(text, &object, rest.len()),
        Err(error) => add_debug(text, &error),
    }
}

fn add_der_words(text: &mut String, object: &BerObject<'_>, left: usize) -> Added {
    let alloc = *text.allocator();
    let written = if is_written(alloc, object) {
        "written again"
    } else {
        "written otherwise"
    };
    let fronts = der_fronts(alloc, object.as_raw());
    add_words_of(text, object)?;
    write!(text, ", {left} left, {written}, {fronts} fronts")
}

/// Whether the object's octets are written of it.
fn is_written(alloc: Global, object: &BerObject<'_>) -> bool {
    match object.to_vec(alloc) {
        Ok(octets) => octets.as_slice() == object.as_raw(),
        Err(_) => false,
    }
}

/// How many shorter fronts of the octets `parse_der` reads.
fn der_fronts(alloc: Global, octets: &[u8]) -> usize {
    let mut fronts: usize = 0;
    for end in 0..octets.len() {
        if parse_der(alloc, &octets[..end]).is_ok() {
            fronts = fronts.saturating_add(1);
        }
    }
    fronts
}

/// Adds what `parse_ber` reads, whether `parse_der` takes the same octets, and how many of their shorter fronts are read.
pub(crate) fn add_ber(text: &mut String, octets: &[u8]) -> Added {
    match parse_ber(*text.allocator(), octets) {
        Ok((rest, object)) => add_ber_words(text, &object, rest.len()),
        Err(error) => add_debug(text, &error),
    }
}

fn add_ber_words(text: &mut String, object: &BerObject<'_>, left: usize) -> Added {
    let alloc = *text.allocator();
    let strict = if parse_der(alloc, object.as_raw()).is_ok() {
        "DER"
    } else {
        "not DER"
    };
    let fronts = ber_fronts(alloc, object.as_raw());
    add_words_of(text, object)?;
    write!(text, ", {left} left, {strict}, {fronts} fronts")
}

/// How many shorter fronts of the octets `parse_ber` reads.
fn ber_fronts(alloc: Global, octets: &[u8]) -> usize {
    let mut fronts: usize = 0;
    for end in 0..octets.len() {
        if parse_ber(alloc, &octets[..end]).is_ok() {
            fronts = fronts.saturating_add(1);
        }
    }
    fronts
}

/// Adds what is read of so many levels, by DER's rules or by BER's.
pub(crate) fn add_levels(text: &mut String, is_der: bool, allowed: &str, octets: &[u8]) -> Added {
    let alloc = *text.allocator();
    match allowed.parse::<usize>() {
        Ok(allowed) if is_der => add_object(text, parse_der_recursive(alloc, octets, allowed)),
        Ok(allowed) => add_object(text, parse_ber_recursive(alloc, octets, allowed)),
        Err(_) => text.push_str("no number of levels"),
    }
}

/// Adds the object and how many octets are left, or the error.
pub(crate) fn add_object(text: &mut String, read: BerResult<'_>) -> Added {
    match read {
        Ok((rest, object)) => {
            add_words_of(text, &object)?;
            write!(text, ", {} left", rest.len())
        }
        Err(error) => add_debug(text, &error),
    }
}
