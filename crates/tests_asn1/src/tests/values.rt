//! What rows of octets don't tell: the calls of values, values out of form, round trips, a writer that fails. What octets are
//! read as and written, and what contents are as numbers, stands in the rows of `rows_asn1`.

use super::narrow::leaves_a_front;
use super::{back_again, same};
use asn1_core::{Error, Tag};
use asn1_traits::{ToDer, read_back};
use asn1_values::{BitString, Boolean, Enumerated, Integer, Null, OctetString, laws};
use std::test::Fail;

#[test]
fn round_trips(rt: HostRuntime) -> Result<(), Fail> {
    let alloc = rt.alloc();
    back_again::<_, Boolean>(&rt, alloc, &[1, 1, 0xff], &[])?;
    back_again::<_, Null>(&rt, alloc, &[5, 0], &[])?;
    back_again::<_, Enumerated>(&rt, alloc, &[10, 2, 0, 0x80], &[])?;
    back_again::<_, Integer>(&rt, alloc, &[2, 2, 0xff, 0x7f], &[])?;
    back_again::<_, BitString>(&rt, alloc, &[3, 2, 7, 0x80], &[])?;
    back_again::<_, OctetString>(&rt, alloc, &[4, 2, 0, 0xff], &[])
}

#[test]
fn values_and_octets(rt: HostRuntime) {
    same(&rt, Boolean::TRUE.bool(), true);
    same(&rt, Boolean::FALSE.bool(), false);
    same(&rt, Boolean::new(5).bool(), true);
    same(&rt, Boolean::new(5) == Boolean::TRUE, false);
    same(&rt, Null::default() == Null::new(), true);
    same(&rt, Enumerated::new(7) == Enumerated(7), true);
    same(&rt, Integer::new(&[0, 1]) == Integer::new(&[1]), false);
    same(&rt, Integer::new(&[1, 2]).as_ref(), [1, 2].as_slice());
    same(&rt, Integer::new(&[1, 2]).any().tag(), Tag(2));
    same(&rt, OctetString::new(&[1, 2]).as_ref(), [1, 2].as_slice());
}

// The first bit is the highest of the first octet (X.690, 8.6.2).
#[test]
fn bits(rt: HostRuntime) {
    let bits = BitString::new(6, &[0x6e, 0x5d, 0xc0]);
    same(&rt, bits.bit_len(), 18);
    same(&rt, bits.as_ref(), [0x6e, 0x5d, 0xc0].as_slice());
    for bit in [1, 9, 15, 17] {
        same(&rt, bits.is_set(bit), true);
    }
    for bit in [0, 7, 18, 24, usize::MAX] {
        same(&rt, bits.is_set(bit), false);
    }
    same(&rt, BitString::new(7, &[1]).is_set(7), true);
    same(&rt, BitString::new(7, &[]).bit_len(), 0);
}

// What no octets are read as.
#[test]
fn out_of_form(rt: HostRuntime) {
    same(&rt, Integer::new(&[]).in_der_form(), false);
    same(&rt, BitString::new(8, &[0]).in_der_form(), false);
    same(&rt, BitString::new(1, &[]).in_der_form(), false);
}

#[test]
fn values_of_a_sequence(rt: HostRuntime) -> Result<(), Fail> {
    let octets = [0x30, 6, 10, 1, 2, 10, 1, 3];
    let (rest, items) = read_back::<Error, Vec<Enumerated>>(rt.alloc(), &octets)?;
    same(&rt, rest.len(), 0);
    same(
        &rt,
        items.as_slice() == [Enumerated(2), Enumerated(3)].as_slice(),
        true,
    );
    leaves_a_front(&rt, rt.alloc(), &items, &octets);
    Ok(())
}

#[test]
fn a_failed_write_leaves_a_front(rt: HostRuntime) {
    let bits = BitString::new(6, &[0x6e, 0x5d, 0xc0]);
    let octets = [3, 4, 6, 0x6e, 0x5d, 0xc0];
    leaves_a_front(&rt, rt.alloc(), &bits, &octets);
    leaves_a_front(&rt, rt.alloc(), &Integer::new(&[1, 2]).any(), &[2, 2, 1, 2]);
}

#[test]
fn laws_are_called() {
    laws::octet_means_bool();
    laws::one_spelling();
    laws::bit_functions();
    laws::integer_functions();
}
