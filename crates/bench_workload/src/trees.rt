//! Certificates as trees of objects.

use crate::digest::Digest;
use crate::failure::Failure;
use crate::random::Random;
use crate::shapes::{Numbers, Shapes};
use der_parser::{BerObject, parse_der};
use std::alloc::Global;

const CERTIFICATES: usize = 450_000;

const FEW: usize = 12;

/// How many levels of a tree are looked at.
const LEVELS: usize = 6;

/// The objects within one, where it is a sequence or a set.
fn parts_of<'o, 'a>(object: &'o BerObject<'a>) -> Option<&'o [BerObject<'a>]> {
    if let Ok(parts) = object.as_sequence() {
        return Some(parts.as_slice());
    }
    match object.as_set() {
        Ok(parts) => Some(parts.as_slice()),
        Err(_) => None,
    }
}

/// An object: the number of its octets, and the objects within it, so many levels deep, or else all its octets.
fn note_object(digest: &mut Digest, object: &BerObject<'_>, levels: usize) {
    let raw = object.as_raw();
    match parts_of(object) {
        Some(parts) if levels > 0 => {
            digest.number(raw.len() as u64);
            digest.number(parts.len() as u64);
            for part in parts {
                note_object(digest, part, levels - 1);
            }
        }
        _ => digest.octets(raw),
    }
    if let Ok(identifier) = object.as_oid() {
        digest.octets(identifier.as_bytes());
    }
}

/// Reads one certificate after the other as a tree.
pub(crate) fn read_all(
    alloc: Global,
    shapes: &Shapes,
    random: &mut Random,
    small: bool,
) -> Result<Digest, Failure> {
    let count = if small { FEW } else { CERTIFICATES };
    let mut digest = Digest::new();
    let mut octets = Vec::new(alloc);
    for turn in 0..count {
        octets.clear();
        let numbers = Numbers {
            subject: random.number(),
            issuer: random.number(),
            serial: random.number(),
            drawn: random.number(),
        };
        shapes.write_leaf(&mut octets, turn, &numbers)?;
        match parse_der(alloc, octets.as_slice()) {
            Ok((rest, object)) => {
                digest.octets(rest);
                note_object(&mut digest, &object, LEVELS);
            }
            Err(_) => return Err(Failure::Unread),
        }
    }
    Ok(digest)
}
