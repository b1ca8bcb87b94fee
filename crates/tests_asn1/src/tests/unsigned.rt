//! Numbers of any size: their octets, their order and their hashes.

use super::same;
use asn1_unsigned::{UnsignedBytes, laws};
use std::cmp::Ordering;
use std::collections::hash_map::DefaultHasher;
use std::hash::{Hash, Hasher};
use std::process::Abort;

fn from(octets: &[u8]) -> UnsignedBytes<'_> {
    UnsignedBytes::from_bytes_be(octets)
}

fn hash_of<T: Hash>(value: &T) -> u64 {
    let mut hasher = DefaultHasher::new();
    value.hash(&mut hasher);
    hasher.finish()
}

fn greatest<T: Ord + Copy>(left: T, right: T) -> T {
    if left < right { right } else { left }
}

// The octets behind the leading zeros, and the number where it has 64 bits.
#[test]
fn leading_zeros_are_trimmed(rt: HostRuntime) {
    let rows = [
        (b"".as_slice(), b"".as_slice(), Some(0)),
        (b"\x00", b"", Some(0)),
        (b"\x00\x00", b"", Some(0)),
        (b"\x00\x01\x00", b"\x01\x00", Some(256)),
        (b"\x01\x00", b"\x01\x00", Some(256)),
        (b"\x80", b"\x80", Some(128)),
        (
            b"\x00\xff\xff\xff\xff\xff\xff\xff\xff",
            &[0xff; 8],
            Some(u64::MAX),
        ),
        (
            b"\x01\x00\x00\x00\x00\x00\x00\x00\x00",
            b"\x01\x00\x00\x00\x00\x00\x00\x00\x00",
            None,
        ),
        (&[0xff; 40], &[0xff; 40], None),
    ];
    for (octets, kept, number) in rows {
        same(&rt, from(octets).as_bytes(), kept);
        same(&rt, from(octets).as_u64(), number);
    }
}

fn are_ordered<'a, R: Abort>(
    rt: &R,
    left: &UnsignedBytes<'a>,
    right: &UnsignedBytes<'a>,
    order: Ordering,
) {
    same(rt, left.cmp(right), order);
    same(rt, left.partial_cmp(right), Some(order));
    same(rt, left == right, order == Ordering::Equal);
    same(rt, left < right, order == Ordering::Less);
}

#[test]
fn numbers_are_compared(rt: HostRuntime) {
    let rows = [
        (
            b"\x00\x01\x00".as_slice(),
            b"\x01\x00".as_slice(),
            Ordering::Equal,
        ),
        (b"", b"\x00", Ordering::Equal),
        (b"\x01\x02", b"\x00\x01\x02", Ordering::Equal),
        (b"\x01", b"\x01\x00", Ordering::Less),
        (b"", b"\x01", Ordering::Less),
        (b"\x00\x00\x02", b"\x01\x00", Ordering::Less),
        (b"\xff", b"\x01\x00", Ordering::Less),
        (b"\x01\x02", b"\x02\x01", Ordering::Less),
        (b"\x01\x01", b"\x01\x02", Ordering::Less),
        (b"\x01\x02\x00", b"\x02\x01", Ordering::Greater),
    ];
    for (left, right, order) in rows.iter() {
        are_ordered(&rt, &from(left), &from(right), *order);
    }
    let greatest = greatest(from(b"\x00\x00\x00\x09"), from(b"\x01\x00"));
    same(&rt, greatest.as_u64(), Some(256));
}

#[test]
fn equal_numbers_have_equal_hashes(rt: HostRuntime) {
    same(&rt, hash_of(&from(&[0, 1, 0])), hash_of(&from(&[1, 0])));
    same(&rt, hash_of(&from(&[1])) == hash_of(&from(&[1, 0])), false);
}

#[test]
fn laws_are_called() {
    laws::one_spelling();
}
