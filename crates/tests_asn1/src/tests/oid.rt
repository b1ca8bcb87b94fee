//! Identifiers made of components, and what is read of their octets. How octets are shown stands in the rows of `rows_asn1`.

use super::same;
use asn1_core::Error;
use asn1_oid::{Oid, is_oid_content};
use std::alloc::Global;
use std::collections::HashSet;
use std::process::Abort;
use std::test::Fail;

// The components of identifiers, and the octets that spell them (X.690, 8.19.4).
#[test]
fn spells_components(rt: HostRuntime) -> Result<(), Fail> {
    let rows = [
        ([1, 2, 3].as_slice(), b"\x2a\x03".as_slice()),
        (&[1, 2, 250, 1, 16, 9], b"\x2a\x81\x7a\x01\x10\x09"),
        (&[0, 39], b"\x27"),
        (&[2, 999], b"\x88\x37"),
        (&[2, 999, 128, 0], b"\x88\x37\x81\x00\x00"),
        (
            &[1, 2, u64::MAX],
            b"\x2a\x81\xff\xff\xff\xff\xff\xff\xff\xff\x7f",
        ),
        (
            &[2, u64::MAX - 80],
            b"\x81\xff\xff\xff\xff\xff\xff\xff\xff\x7f",
        ),
    ];
    for (components, octets) in rows {
        let oid = Oid::from(rt.alloc(), components)?;
        same(&rt, oid.as_bytes(), octets);
        same(&rt, oid.is_strict(), true);
    }
    Ok(())
}

#[test]
fn refuses_other_components(rt: HostRuntime) {
    let none: [u64; 0] = [];
    let bad = [
        none.as_slice(),
        &[1],
        &[3, 0],
        &[0, 40],
        &[1, 40],
        &[2, u64::MAX - 79],
    ];
    for components in bad {
        match Oid::from(rt.alloc(), components) {
            Ok(_) => panic!(rt; "an identifier was made"),
            Err(e) => same(&rt, e, Error::BerValueError),
        }
    }
}

// Octets that DER allows or not, and that have no components of 64 bits.
#[test]
fn octets_without_components(rt: HostRuntime) {
    let rows = [
        (b"".as_slice(), false),
        (b"\x2a\x80\x01", false),
        (b"\x2a\x81", false),
        (b"\x80\x01", false),
        (b"\x2a\x82\x80\x80\x80\x80\x80\x80\x80\x80\x00", true),
    ];
    for (octets, strict) in rows {
        let oid = Oid::new(octets);
        same(&rt, oid.is_strict(), strict);
        same(&rt, is_oid_content(octets), strict);
        same(&rt, oid.iter().is_none(), true);
    }
}

#[test]
fn texts(rt: HostRuntime) -> Result<(), Fail> {
    let oid = Oid::new(b"\x2a\x03");
    same(&rt, oid.to_id_string(rt.alloc())?.as_str(), "1.2.3");
    let text = format!(in rt.alloc(); "{oid:>9}")?;
    same(&rt, text.as_str(), "1.2.3");
    let oid = Oid::new(b"\x2a\x80\x01");
    same(&rt, oid.to_id_string(rt.alloc())?.as_str(), "2a 80 01");
    Ok(())
}

#[test]
fn thousands_of_components(rt: HostRuntime) -> Result<(), Fail> {
    let mut components = Vec::new(rt.alloc());
    components.push(1)?;
    for component in 0..5000u64 {
        components.push(component.min(39))?;
    }
    let oid = Oid::from(rt.alloc(), components.as_slice())?;
    let left = oid.iter().ok_or("components")?;
    same(&rt, left.len(), 5001);
    same(&rt, left.size_hint(), (5001, Some(5001)));
    let read = left.collect::<Vec<u64>>(rt.alloc())?;
    same(&rt, read.as_slice(), components.as_slice());
    Ok(())
}

// A copy is equal to what it was made of.
fn is_copied<R: Abort>(rt: &R, alloc: Global, oid: &Oid<'_>) {
    match oid.clone(alloc) {
        Ok(copy) => same(rt, copy == *oid, true),
        Err(_) => panic!(rt; "out of memory"),
    }
}

#[test]
fn compares_octets(rt: HostRuntime) -> Result<(), Fail> {
    let made = Oid::from(rt.alloc(), &[1, 2, 3])?;
    let borrowed = Oid::new(b"\x2a\x03");
    let longer = Oid::new(b"\x2a\x03\x01");
    same(&rt, made == borrowed, true);
    same(&rt, made.borrowed().is_none(), true);
    same(&rt, borrowed.borrowed().is_some(), true);
    same(&rt, borrowed < longer, true);
    same(&rt, longer.starts_with(&made), true);
    same(&rt, made.starts_with(&longer), false);
    is_copied(&rt, rt.alloc(), &made);
    is_copied(&rt, rt.alloc(), &borrowed);
    Ok(())
}

#[test]
fn a_set_finds_equal_octets(rt: HostRuntime) -> Result<(), Fail> {
    let mut seen = HashSet::new(rt.alloc());
    seen.insert(Oid::from(rt.alloc(), &[1, 2, 3])?)?;
    same(&rt, seen.contains(&Oid::new(b"\x2a\x03")), true);
    same(&rt, seen.contains(&Oid::new(b"\x2a\x03\x01")), false);
    Ok(())
}
