//! Worked streams: their items and ends, whole, octet by octet, and with empty pieces between.

use cert_framing::{
    Bundle, BundleError, End, Items, any_cutting, one_bundle, one_framing, one_item, one_stream,
};
use std::alloc::{AllocError, Global};
use std::fmt::Debug;
use std::process::Abort;
use std::test::Fail;

// What came is what was wanted.
fn same<R: Abort, T: PartialEq + Debug + Drop>(rt: &R, got: T, want: T) {
    assert_eq!(rt; got, want);
}

/// A certificate of version 1.
pub(crate) const FIRST: [u8; 69] = [
    0x30, 0x43, 0x30, 0x38, 0x02, 0x01, 0x01, 0x30, 0x04, 0x06, 0x02, 0x2a, 0x03, 0x30, 0x00, 0x30,
    0x1e, 0x17, 0x0d, 0x32, 0x35, 0x30, 0x31, 0x30, 0x31, 0x30, 0x30, 0x30, 0x30, 0x30, 0x30, 0x5a,
    0x17, 0x0d, 0x32, 0x36, 0x30, 0x31, 0x30, 0x31, 0x30, 0x30, 0x30, 0x30, 0x30, 0x30, 0x5a, 0x30,
    0x00, 0x30, 0x09, 0x30, 0x04, 0x06, 0x02, 0x2a, 0x03, 0x03, 0x01, 0x00, 0x30, 0x04, 0x06, 0x02,
    0x2a, 0x03, 0x03, 0x01, 0x00,
];

/// A certificate of version 3.
pub(crate) const THIRD: [u8; 89] = [
    0x30, 0x57, 0x30, 0x4c, 0xa0, 0x03, 0x02, 0x01, 0x02, 0x02, 0x01, 0x01, 0x30, 0x04, 0x06, 0x02,
    0x2a, 0x03, 0x30, 0x00, 0x30, 0x1e, 0x17, 0x0d, 0x32, 0x35, 0x30, 0x31, 0x30, 0x31, 0x30, 0x30,
    0x30, 0x30, 0x30, 0x30, 0x5a, 0x17, 0x0d, 0x32, 0x36, 0x30, 0x31, 0x30, 0x31, 0x30, 0x30, 0x30,
    0x30, 0x30, 0x30, 0x5a, 0x30, 0x00, 0x30, 0x09, 0x30, 0x04, 0x06, 0x02, 0x2a, 0x03, 0x03, 0x01,
    0x00, 0xa3, 0x0d, 0x30, 0x0b, 0x30, 0x09, 0x06, 0x03, 0x55, 0x1d, 0x13, 0x04, 0x02, 0x30, 0x00,
    0x30, 0x04, 0x06, 0x02, 0x2a, 0x03, 0x03, 0x01, 0x00,
];

/// The limit that the program takes by default, and the greatest.
const USUAL: u32 = 16_777_216;

const GREATEST: u32 = 4_294_967_295;

/// A stream by its items and the octets behind them, the limit that it is framed under, and its end.
type Row = (u32, &'static [&'static [u8]], &'static [u8], End);

const ROWS: [Row; 26] = [
    (USUAL, &[], &[], End::Clean),
    (USUAL, &[&[0x30, 0x00]], &[], End::Clean),
    (USUAL, &[&[0x30, 0x00], &[0x30, 0x00]], &[], End::Clean),
    (USUAL, &[&FIRST, &THIRD], &[], End::Clean),
    (USUAL, &[&[0x30, 0x00]], &[0x31, 0x00], End::Fault(2)),
    (USUAL, &[&FIRST], &[0x30, 0x57], End::Cut(69)),
    (USUAL, &[], &[0x30, 0x03, 0x02, 0x01], End::Cut(0)),
    (USUAL, &[], &[0x30, 0x81, 0x00], End::Fault(0)),
    (USUAL, &[], &[0x30, 0x80, 0x00, 0x00], End::Fault(0)),
    (67, &[&FIRST], &[], End::Clean),
    (66, &[], &FIRST, End::Fault(0)),
    (0, &[&[0x30, 0x00]], &[], End::Clean),
    (0, &[], &[0x30], End::Cut(0)),
    (0, &[], &[0x30, 0x01], End::Fault(0)),
    (200, &[], &[0x30, 0x81], End::Cut(0)),
    (200, &[], &[0x30, 0x81, 0xc8], End::Cut(0)),
    (200, &[], &[0x30, 0x81, 0xc9], End::Fault(0)),
    (200, &[], &[0x30, 0x82], End::Fault(0)),
    (127, &[], &[0x30, 0x81], End::Fault(0)),
    (128, &[], &[0x30, 0x81], End::Cut(0)),
    (255, &[], &[0x30, 0x82], End::Fault(0)),
    (256, &[], &[0x30, 0x82, 0x01, 0x00], End::Cut(0)),
    (256, &[], &[0x30, 0x82, 0x00], End::Fault(0)),
    (GREATEST, &[], &[0x30, 0x85], End::Fault(0)),
    (
        GREATEST,
        &[],
        &[0x30, 0x84, 0xff, 0xff, 0xff, 0xff],
        End::Cut(0),
    ),
    (16_777_215, &[], &[0x30, 0x84], End::Fault(0)),
];

fn stream_of(alloc: Global, items: &[&[u8]], rest: &[u8]) -> Result<Vec<u8>, AllocError> {
    let mut stream = Vec::new(alloc);
    for item in items {
        stream.extend_from_slice(item)?;
    }
    stream.extend_from_slice(rest)?;
    Ok(stream)
}

/// The stream in pieces of so many octets, with an empty piece behind each.
fn framed(alloc: Global, limit: u32, stream: &[u8], size: usize) -> Result<Items, BundleError> {
    let mut bundle = Bundle::new(alloc, limit);
    for piece in stream.chunks(size.max(1)) {
        bundle.feed(piece)?;
        bundle.feed(&[])?;
    }
    bundle.finish()
}

fn assert_items(rt: &impl Abort, found: &Items, items: &[&[u8]], end: End) {
    same(rt, found.end(), end);
    assert!(rt; found.len() == items.len());
    same(rt, found.is_empty(), items.is_empty());
    for k in 0..items.len() {
        assert!(rt; found.get(k) == items[k], "item {k}");
    }
}

/// By octets, by pieces, and whole: none is longer than 256 octets.
#[test]
fn frames_streams_in_pieces(rt: HostRuntime) -> Result<(), Fail> {
    for (limit, items, rest, end) in ROWS.iter() {
        let stream = stream_of(rt.alloc(), items, rest)?;
        frames_in_pieces(&rt, rt.alloc(), *limit, &stream, items, *end)?;
    }
    Ok(())
}

fn frames_in_pieces<R: Abort>(
    rt: &R,
    alloc: Global,
    limit: u32,
    stream: &[u8],
    items: &[&[u8]],
    end: End,
) -> Result<(), Fail> {
    for size in [1, 2, 3, 64, 256] {
        let found = framed(alloc, limit, stream, size)?;
        assert_items(rt, &found, items, end);
    }
    Ok(())
}

/// Thousands of items of different lengths, in pieces that end anywhere.
#[test]
fn frames_thousands_of_items(rt: HostRuntime) -> Result<(), Fail> {
    let mut stream = Vec::new(rt.alloc());
    for _ in 0..1500 {
        stream.extend_from_slice(&[0x30, 0x00, 0x30, 0x01, 0x05])?;
    }
    let items = framed(rt.alloc(), USUAL, &stream, 7)?;
    same(&rt, items.end(), End::Clean);
    assert!(rt; items.len() == 3000);
    for k in 0..1500 {
        same(&rt, items.get(2 * k), [0x30, 0x00].as_slice());
        same(&rt, items.get(2 * k + 1), [0x30, 0x01, 0x05].as_slice());
    }
    Ok(())
}

/// Octets of any kind behind a fault change nothing.
#[test]
fn takes_octets_behind_a_fault(rt: HostRuntime) -> Result<(), Fail> {
    let mut bundle = Bundle::new(rt.alloc(), USUAL);
    for piece in [&[0x30, 0x00, 0x31][..], &[0x30, 0x00], &FIRST, &[]] {
        bundle.feed(piece)?;
    }
    assert_items(&rt, &bundle.finish()?, &[&[0x30, 0x00]], End::Fault(2));
    Ok(())
}

/// With ample memory no call is refused. Under `rt try --test --fail-alloc 1..` each growth is refused in turn: the call
/// answers `OutOfMemory`, and every later one `Failed`.
#[test]
fn answers_failed_once_memory_was_refused(rt: HostRuntime) -> Result<(), Fail> {
    let mut bundle = Bundle::new(rt.alloc(), USUAL);
    let mut refused = false;
    for piece in [&FIRST[..30], &FIRST[30..], &THIRD, &[0x30], &[0x00]] {
        match bundle.feed(piece) {
            Ok(()) => assert!(rt; !refused),
            Err(error) => {
                let told = if refused {
                    BundleError::Failed
                } else {
                    BundleError::OutOfMemory
                };
                same(&rt, error, told);
                refused = true;
            }
        }
    }
    match bundle.finish() {
        Ok(items) => {
            assert!(rt; !refused);
            assert_items(&rt, &items, &[&FIRST, &THIRD, &[0x30, 0x00]], End::Clean);
        }
        Err(error) => {
            assert!(rt; refused);
            same(&rt, error, BundleError::Failed);
        }
    }
    Ok(())
}

#[test]
fn errors_print_their_names(rt: HostRuntime) -> Result<(), Fail> {
    for (error, name) in [
        (BundleError::OutOfMemory, "OutOfMemory"),
        (BundleError::Failed, "Failed"),
    ] {
        let text = format!(in rt.alloc(); "{error}")?;
        same(&rt, text.as_str(), name);
    }
    Ok(())
}

#[test]
fn laws_are_calls_that_do_nothing() {
    one_framing();
    one_item();
    one_bundle();
    any_cutting();
    one_stream();
}
