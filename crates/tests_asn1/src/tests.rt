//! A module for each crate, and what they share.

mod any;
mod device;
mod headers;
mod lists;
mod narrow;
mod oid;
mod pairs;
mod strings;
mod tagged;
mod times;
mod traits;
mod unformed;
mod unsigned;
mod values;

use asn1_core::Error;
use asn1_traits::{FromDer, TaggedElement, read_back, read_back_optional};
use std::alloc::Global;
use std::fmt::Debug;
use std::process::Abort;
use std::test::Fail;

// What came is what was wanted.
fn same<R: Abort, T: PartialEq + Debug + Drop>(rt: &R, got: T, want: T) {
    assert_eq!(rt; got, want);
}

// Through the bounds of the laws alone: what is read back, written again, and taken for a present value; and that another
// element, or none, is taken for an absent one.
fn back_again<'a, R: Abort, T: FromDer<'a, Error> + TaggedElement + Drop>(
    rt: &R,
    alloc: Global,
    octets: &'a [u8],
    another: &'a [u8],
) -> Result<(), Fail> {
    let (rest, value) = read_back::<Error, T>(alloc, octets)?;
    same(rt, rest.len(), 0);
    let written = value.to_der_vec(alloc)?;
    same(rt, written.as_slice(), octets);
    let (rest, value) = read_back_optional::<Error, T>(alloc, octets)?;
    same(rt, rest.len(), 0);
    same(rt, value.is_some(), true);
    let (rest, value) = read_back_optional::<Error, T>(alloc, another)?;
    same(rt, rest.len(), another.len());
    same(rt, value.is_some(), false);
    Ok(())
}
