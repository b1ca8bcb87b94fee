//! What rows of octets don't tell: whole elements, many values, round trips, writers that fail. What
//! octets are read as and written stands in the rows of `rows_asn1`.

use super::narrow::leaves_a_front;
use super::{back_again, same};
use asn1_any::Any;
use asn1_core::{DerConstraint, Err as Refusal, Error, Tag};
use asn1_traits::{FromAny, FromDerAny, ToDer, read_back};
use std::test::Fail;

#[test]
fn whole_elements(rt: HostRuntime) -> Result<(), Fail> {
    let any = Any::from_tag_and_data(Tag(2), &[0, 5]);
    let read: Result<u8, Refusal<Error>> = u8::try_from_any(rt.alloc(), any);
    same(&rt, read, Ok(5));
    let read: Result<u8, Refusal<Error>> = u8::try_from_der_any(rt.alloc(), any);
    same(
        &rt,
        read,
        Err(Refusal::Error(Error::DerConstraintFailed(DerConstraint::IntegerLeadingZeroes))),
    );
    Ok(())
}

#[test]
fn round_trips(rt: HostRuntime) -> Result<(), Fail> {
    back_again::<_, u32>(&rt, rt.alloc(), &[2, 3, 1, 0, 0], &[])?;
    back_again::<_, Vec<u32>>(&rt, rt.alloc(), &[0x30, 3, 2, 1, 9], &[])
}

#[test]
fn thousands_of_values(rt: HostRuntime) -> Result<(), Fail> {
    let mut items = Vec::new(rt.alloc());
    for item in 0..3000u32 {
        items.push(item)?;
    }
    let written = items.to_der_vec(rt.alloc())?;
    let (rest, read) = read_back::<Error, Vec<u32>>(rt.alloc(), written.as_slice())?;
    same(&rt, rest.len(), 0);
    same(&rt, read.as_slice(), items.as_slice());
    Ok(())
}

#[test]
fn a_failed_write_leaves_a_front(rt: HostRuntime) -> Result<(), Fail> {
    let mut items = Vec::new(rt.alloc());
    items.push(1u32)?;
    items.push(300u32)?;
    let octets = [0x30, 7, 2, 1, 1, 2, 2, 1, 0x2c];
    leaves_a_front(&rt, rt.alloc(), &items, &octets);
    Ok(())
}

#[test]
fn long_headers(rt: HostRuntime) -> Result<(), Fail> {
    let content = [7; 300];
    let written = content.as_slice().to_der_vec(rt.alloc())?;
    same(&rt, written.len(), 304);
    same(
        &rt,
        &written.as_slice()[..5],
        [4, 0x82, 1, 0x2c, 7].as_slice(),
    );
    same(&rt, content.as_slice().der_constructed(), false);
    let value = &content[..200];
    same(&rt, value.to_der_len(), Ok(203));
    Ok(())
}
