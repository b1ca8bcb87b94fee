//! `Sequence` and `Set`.

use super::same;
use asn1_core::{Err as Refusal, Error, IResult, Needed};
use asn1_lists::{Sequence, Set};
use std::process::Abort;

// A reader: the octet at the front.
fn front(octets: &[u8]) -> IResult<&[u8], u8, Error> {
    match octets.split_first() {
        Some((octet, rest)) => Ok((rest, *octet)),
        None => Err(Refusal::Incomplete(Needed::Size(1))),
    }
}

#[test]
fn a_sequence_keeps_its_content(rt: HostRuntime) {
    let octets = [2, 1, 7, 2, 1, 9];
    let sequence = Sequence::new(&octets);
    same(&rt, sequence.as_ref(), octets.as_slice());
    same(&rt, sequence.into_content(), octets.as_slice());
    same(&rt, sequence.parse(front), Ok((&octets[1..], 2)));
    same(&rt, sequence.and_then(front), Ok((&octets[1..], 2)));
    let cut = Err(Refusal::Incomplete(Needed::Size(1)));
    same(&rt, Sequence::new(&[]).parse(front), cut);
    same(&rt, Sequence::new(&[]).and_then(front), cut);
}

#[test]
fn a_set_keeps_its_content(rt: HostRuntime) {
    let octets = [2, 1, 9, 2, 1, 7];
    let set = Set::new(&octets);
    same(&rt, set.as_ref(), octets.as_slice());
    same(&rt, set.into_content(), octets.as_slice());
    same(&rt, set.parse(front), Ok((&octets[1..], 2)));
    same(&rt, set.and_then(front), Ok((&octets[1..], 2)));
    let cut = Err(Refusal::Incomplete(Needed::Size(1)));
    same(&rt, Set::new(&[]).parse(front), cut);
    same(&rt, Set::new(&[]).and_then(front), cut);
}

// The values that are read of the content in these tests.
fn are_read<R: Abort>(rt: &R, values: Result<Vec<u32>, Refusal<Error>>) {
    match values {
        Ok(values) => same(rt, values.as_slice(), [9, 7].as_slice()),
        Err(e) => panic!(rt; "{e}"),
    }
}

#[test]
fn values_of_a_content(rt: HostRuntime) {
    let octets = [2, 1, 9, 2, 1, 7];
    let sequence = Sequence::new(&octets);
    are_read(&rt, sequence.der_sequence_of(rt.alloc()));
    are_read(&rt, sequence.ber_sequence_of(rt.alloc()));
    let set = Set::new(&octets);
    are_read(&rt, set.der_set_of(rt.alloc()));
    are_read(&rt, set.ber_set_of(rt.alloc()));
}

#[test]
fn iterators_over_a_content(rt: HostRuntime) {
    let octets = [2, 1, 9, 2, 1, 7];
    let sequence = Sequence::new(&octets);
    let mut items = sequence.der_iter::<u32, Error>(rt.alloc());
    same(&rt, items.next(), Some(Ok(9)));
    let mut items = sequence.ber_iter::<u32, Error>(rt.alloc());
    same(&rt, items.next(), Some(Ok(9)));
    let set = Set::new(&octets);
    let mut items = set.der_iter::<u32, Error>(rt.alloc());
    same(&rt, items.next(), Some(Ok(9)));
    let mut items = set.ber_iter::<u32, Error>(rt.alloc());
    same(&rt, items.next(), Some(Ok(9)));
}
