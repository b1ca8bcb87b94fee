//! The order in which a `SetOf` is written.

use super::same;
use crate::tests::narrow::leaves_a_front;
use asn1_lists::SetOf;
use asn1_traits::ToDer;
use std::test::Fail;

#[test]
fn values_are_kept_as_pushed(rt: HostRuntime) -> Result<(), Fail> {
    let mut values = SetOf::new(rt.alloc());
    same(&rt, values.is_empty(), true);
    values.push(9u32)?;
    values.push(7)?;
    same(&rt, values.is_empty(), false);
    same(&rt, values.len(), 2);
    let written = values.to_der_vec(rt.alloc())?;
    same(
        &rt,
        written.as_slice() == [0x31, 6, 2, 1, 7, 2, 1, 9].as_slice(),
        true,
    );
    same(&rt, values.as_ref(), [9, 7].as_slice());
    same(&rt, values.iter().next(), Some(&9));
    let held = values.into_vec();
    same(&rt, held.as_slice(), [9, 7].as_slice());
    let values = SetOf::from_vec(held);
    same(&rt, values.as_slice(), [9, 7].as_slice());
    Ok(())
}

#[test]
fn a_failed_write_leaves_a_front(rt: HostRuntime) -> Result<(), Fail> {
    let mut values = SetOf::new(rt.alloc());
    values.push(300u32)?;
    values.push(1)?;
    let octets = [0x31, 7, 2, 1, 1, 2, 2, 1, 0x2c];
    leaves_a_front(&rt, rt.alloc(), &values, &octets);
    Ok(())
}
