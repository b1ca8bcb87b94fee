//! The values of a `SequenceOf`.

use super::same;
use asn1_core::Error;
use asn1_lists::SequenceOf;
use asn1_traits::{FromDer, ToDer};
use std::test::Fail;

#[test]
fn values_are_pushed_and_read(rt: HostRuntime) -> Result<(), Fail> {
    let mut values = SequenceOf::new(rt.alloc());
    same(&rt, values.is_empty(), true);
    same(&rt, values.len(), 0);
    values.push(300u32)?;
    values.push(1)?;
    same(&rt, values.is_empty(), false);
    same(&rt, values.len(), 2);
    same(&rt, values.as_slice(), [300, 1].as_slice());
    same(&rt, values.as_ref(), [300, 1].as_slice());
    same(&rt, values.iter().next(), Some(&300));
    let written = values.to_der_vec(rt.alloc())?;
    same(
        &rt,
        written.as_slice() == [0x30, 7, 2, 2, 1, 0x2c, 2, 1, 1].as_slice(),
        true,
    );
    let held = values.into_vec();
    same(&rt, held.as_slice(), [300, 1].as_slice());
    same(&rt, SequenceOf::from_vec(held).len(), 2);
    Ok(())
}

#[test]
fn thousands_of_values(rt: HostRuntime) -> Result<(), Fail> {
    let alloc = rt.alloc();
    let mut values = SequenceOf::new(alloc);
    for value in 0..3000u32 {
        values.push(value)?;
    }
    let octets = values.to_der_vec(alloc)?;
    let (rest, read) = <SequenceOf<u32> as FromDer<Error>>::from_der(alloc, octets.as_slice())?;
    same(&rt, rest.is_empty(), true);
    same(&rt, read.as_slice() == values.as_slice(), true);
    same(&rt, read.to_der_len() == Ok(octets.len()), true);
    Ok(())
}
