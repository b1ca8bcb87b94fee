//! A module for each crate, and what they share. What is answered is compared as its debug text.

mod ber_trees;
mod combinators;
mod der_trees;
mod skipped_octets;

use asn1_core::{Class, Err as Refusal, Error, Length};
use asn1_device::WriteSink;
use der_tree::{BerObject, BerObjectContent, BerResult, ber_encode_object};
use std::alloc::{AllocError, Global};
use std::fmt::Debug;
use std::process::Abort;

// That what came is this text.
fn says<R: Abort>(rt: &R, got: Result<String, AllocError>, want: &str) {
    match got {
        Ok(text) => assert!(rt; text.as_str() == want, "{text} where {want} is wanted"),
        Err(AllocError) => assert!(rt; false),
    }
}

// That the debug text of what came is this one.
fn tells<R: Abort + AllocGlobal, T: Debug + Drop>(rt: &R, got: T, want: &str) {
    says(rt, format!(in rt.alloc(); "{got:?}"), want)
}

// What a content holds; of a sequence or a set how many parts.
#[derive(Debug, Drop)]
enum Content<'a> {
    Sequence(usize),
    Set(usize),
    Octets(&'a [u8]),
    Other,
}

fn content_of<'a>(content: &BerObjectContent<'a>) -> Content<'a> {
    match content {
        BerObjectContent::Sequence(parts) => Content::Sequence(parts.len()),
        BerObjectContent::Set(parts) => Content::Set(parts.len()),
        _ => match content.as_slice() {
            Ok(octets) => Content::Octets(octets),
            Err(_) => Content::Other,
        },
    }
}

// An object's class, the length that its header told, the octets that it was read from, and what it holds.
type Seen<'a> = (Class, Length, &'a [u8], Content<'a>);

fn seen<'a>(object: &BerObject<'a>) -> Seen<'a> {
    (
        object.header.class(),
        object.header.length(),
        object.as_raw(),
        content_of(&object.content),
    )
}

// That an object is read so, with the octets after it first; or that it is refused so.
fn reads<R: Abort + AllocGlobal>(rt: &R, read: BerResult<'_>, want: &str) {
    let read = match read {
        Ok((rest, object)) => Ok((rest, seen(&object))),
        Err(refusal) => Err(refusal),
    };
    tells(rt, read, want)
}

// The content octets of an identifier.
fn arcs_of<'b>(object: &'b BerObject<'_>) -> Option<&'b [u8]> {
    match object.as_oid() {
        Ok(identifier) => Some(identifier.as_bytes()),
        Err(_) => None,
    }
}

// What the accessors of an object answer: as a truth value, a number, octets, an identifier, bits and a text.
fn answers(alloc: Global, object: &BerObject<'_>) -> Result<String, AllocError> {
    format!(in alloc;
        "{:?} {:?} {:?} {:?} {:?} {:?}",
        object.as_bool(),
        object.as_u64().ok(),
        object.as_slice().ok(),
        arcs_of(object),
        object.as_bitstring().ok(),
        object.as_str().ok()
    )
}

// That the parts, one after the other, are read so, and that there are no more.
fn has_parts<R: Abort + AllocGlobal>(rt: &R, parts: &[BerObject<'_>], wants: &[&str]) {
    let mut wants = wants.iter();
    for part in parts {
        match wants.next() {
            Some(want) => tells(rt, seen(part), want),
            None => tells(rt, "a part more", "none"),
        }
    }
    assert!(rt; wants.next().is_none())
}

// Whether an object is written as these octets to a device.
fn is_encoded(alloc: Global, object: &BerObject<'_>, octets: &[u8]) -> bool {
    let mut sink = WriteSink::new(Vec::new(alloc));
    match ber_encode_object(alloc, &mut sink, object) {
        Ok(length) => length == octets.len() && sink.into_inner().as_slice() == octets,
        Err(_) => false,
    }
}

// The same at once.
fn is_vector(alloc: Global, object: &BerObject<'_>, octets: &[u8]) -> bool {
    match object.to_vec(alloc) {
        Ok(written) => written.as_slice() == octets,
        Err(_) => false,
    }
}

// Whether an object is written as these octets, at once and to a device.
fn is_written(alloc: Global, object: &BerObject<'_>, octets: &[u8]) -> bool {
    is_vector(alloc, object, octets) && is_encoded(alloc, object, octets)
}

// How many parts the sequences of thousands have.
const MANY: u32 = 20_000;

// So many numbers of two octets, 256 to 511 over and over, each with this header.
fn numbers(alloc: Global, before: &[u8], header: &[u8]) -> Result<Vec<u8>, AllocError> {
    let mut octets = before.to_vec(alloc)?;
    for number in 0..MANY {
        octets.extend_from_slice(header)?;
        octets.extend_from_slice(&[1, (number % 256) as u8])?;
    }
    Ok(octets)
}

// How many parts there are before one that is no such number.
fn count_of_numbers(parts: &[BerObject<'_>]) -> u32 {
    let mut count = 0u32;
    for part in parts {
        let is_long = part.header.length() == Length::Definite(2);
        if !is_long || part.as_u32() != Ok(256 + count % 256) {
            return count;
        }
        count = count.wrapping_add(1);
    }
    count
}

// How many octets are left, how many parts the sequence has, and how many of them are such numbers.
fn counts(read: BerResult<'_>) -> Result<(usize, usize, u32), Refusal<Error>> {
    let (rest, object) = read?;
    match object.as_sequence() {
        Ok(parts) => Ok((rest.len(), parts.len(), count_of_numbers(parts))),
        Err(error) => Err(Refusal::Error(error)),
    }
}
