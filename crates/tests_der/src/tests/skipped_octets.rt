//! What is skipped is what is read: the same octets behind it and as many headers tried, also where octets are refused. No clause
//! says how many are tried there.

use asn1_core::HeaderCount;
use der_tree::{
    is_der_object, parse_der_recursive, parse_der_recursive_counted, skip_object_counted,
};
use std::alloc::{AllocError, Global};
use std::process::Abort;

// Whether the object that begins the octets is skipped as it is read, and counted alike.
fn is_skipped_as_read(alloc: Global, octets: &[u8], levels: usize) -> bool {
    let mut tried = HeaderCount::new();
    let mut told = HeaderCount::new();
    let read = parse_der_recursive_counted(alloc, octets, levels, &mut tried);
    let skipped = skip_object_counted(octets, levels, &mut told);
    let is_same = match (read, skipped) {
        (Ok((rest, _)), Some(behind)) => rest == behind,
        (Err(_), None) => true,
        _ => false,
    };
    is_same && tried.get() == told.get()
}

// Whether the octets are told to be one object where they are read as one.
fn is_told_as_read(alloc: Global, octets: &[u8], levels: usize) -> bool {
    let is_read = match parse_der_recursive(alloc, octets, levels) {
        Ok((rest, _)) => rest.is_empty(),
        Err(_) => false,
    };
    is_der_object(octets, levels) == is_read
}

fn agree<R: Abort + AllocGlobal>(rt: &R, octets: &[u8]) {
    for levels in [0, 1, 2, 3, 50] {
        let is_same = is_skipped_as_read(rt.alloc(), octets, levels)
            && is_told_as_read(rt.alloc(), octets, levels);
        assert!(rt; is_same, "{octets:?} in {levels} levels");
    }
}

// Tags and lengths of which short objects are made, and octets that are refused there.
const ALPHABET: [u8; 8] = [0x30, 0x31, 0x02, 0x01, 0x05, 0x00, 0x1f, 0x80];

// The string of so many letters that has this number.
fn letters(alloc: Global, size: usize, mut number: u32) -> Result<Vec<u8>, AllocError> {
    let mut octets = Vec::new(alloc);
    for _ in 0..size {
        octets.push(ALPHABET[(number % 8) as usize])?;
        number /= 8;
    }
    Ok(octets)
}

#[test]
fn short_octets_are_skipped_as_read(rt: HostRuntime) -> Result<(), AllocError> {
    for (size, strings) in [(0, 1u32), (1, 8), (2, 64), (3, 512), (4, 4096), (5, 32768)] {
        for number in 0..strings {
            let octets = letters(rt.alloc(), size, number)?;
            agree(&rt, octets.as_slice());
        }
    }
    Ok(())
}

fn agree_where_cut<R: Abort + AllocGlobal>(rt: &R, octets: &[u8]) {
    for end in 0..octets.len() {
        agree(rt, &octets[..end]);
    }
    agree(rt, octets)
}

// With each octet at that place.
fn agree_where_changed<R: Abort + AllocGlobal>(
    rt: &R,
    octets: &[u8],
    at: usize,
) -> Result<(), AllocError> {
    let mut changed = octets.to_vec(rt.alloc())?;
    for octet in 0..=255u8 {
        if let Some(place) = changed.get_mut(at) {
            *place = octet;
        }
        agree(rt, changed.as_slice());
    }
    Ok(())
}

#[test]
fn worked_octets_are_skipped_as_read(rt: HostRuntime) -> Result<(), AllocError> {
    let rows = [
        b"\x01\x01\xff".as_slice(),
        b"\x02\x02\x00\xff".as_slice(),
        b"\x02\x0a\x00\x80\x00\x00\x00\x00\x00\x00\x00\x01".as_slice(),
        b"\x03\x02\x04\xf0".as_slice(),
        b"\x05\x00".as_slice(),
        b"\x06\x06\x2a\x81\x7a\x01\x10\x09".as_slice(),
        b"\x0a\x01\x05".as_slice(),
        b"\x0c\x02\xc3\xa9".as_slice(),
        b"\x17\x0d240229235959Z\x05".as_slice(),
        b"\x18\x0f20240229235959Z".as_slice(),
        b"\x81\x01\x05".as_slice(),
        b"\xbf\x1f\x03\x02\x01\x05".as_slice(),
        b"\x30\x02\x30\x00\x05".as_slice(),
        b"\x30\x06\x01\x01\xff\x02\x01\x00".as_slice(),
        b"\x30\x81\x03\x02\x01\x05".as_slice(),
        b"\x31\x80\x02\x01\x05\x30\x80\x05\x00\x00\x00\x00\x00\x07".as_slice(),

        // four levels, with two parts behind the deepest, and an object behind all
        b"\x30\x12\x31\x0b\x30\x09\x06\x03\x55\x04\x03\x0c\x02\xc3\xa9\x05\x00\x0a\x01\x05\x05\x00".as_slice(),

        // a part that is cut within a whole sequence, between parts that are read
        b"\x30\x0c\x05\x00\x30\x03\x30\x01\x05\x02\x01\x01\x05\x00".as_slice(),
    ];
    for octets in rows {
        agree_where_cut(&rt, octets);
        for at in 0..octets.len() {
            agree_where_changed(&rt, octets, at)?;
        }
    }
    Ok(())
}
