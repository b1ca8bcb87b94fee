//! The iterator over a content.

use super::same;
use asn1_any::Any;
use asn1_core::{Err as Refusal, Error, ErrorKind, Needed, Tag};
use asn1_lists::{BerParser, DerParser, SequenceIterator};

#[test]
fn elements_until_one_is_cut(rt: HostRuntime) {
    let mut items: SequenceIterator<Any, DerParser, Error> = SequenceIterator::new(
        rt.alloc(),
        &[2, 1, 1, 2, 1],
    );
    let first = Any::from_tag_and_data(Tag::Integer, &[1]);
    same(&rt, items.next(), Some(Ok(first)));
    let cut = Error::Incomplete(Needed::Size(1));
    same(&rt, items.next(), Some(Err(Refusal::Error(cut))));
    same(&rt, items.next(), None);
    same(&rt, items.next(), None);
}

#[test]
fn nothing_behind_the_end(rt: HostRuntime) {
    let mut items: SequenceIterator<u32, DerParser, Error> = SequenceIterator::new(
        rt.alloc(),
        &[2, 1, 7],
    );
    same(&rt, items.next(), Some(Ok(7)));
    same(&rt, items.next(), None);
    same(&rt, items.next(), None);
    let mut items: SequenceIterator<u32, BerParser, Error> = SequenceIterator::new(
        rt.alloc(),
        &[2, 0, 2, 1, 7],
    );
    same(
        &rt,
        items.next(),
        Some(Err(Refusal::Error(Error::InvalidLength))),
    );
    same(&rt, items.next(), None);
    same(&rt, items.next(), None);
}

#[test]
fn a_value_takes_an_octet(rt: HostRuntime) {
    let no_octet = Refusal::Error(Error::NomError(ErrorKind::Many0));
    let mut items: SequenceIterator<Option<u32>, DerParser, Error> = SequenceIterator::new(
        rt.alloc(),
        &[2, 1, 7, 4, 0],
    );
    same(&rt, items.next(), Some(Ok(Some(7))));
    same(&rt, items.next(), Some(Err(no_octet)));
    same(&rt, items.next(), None);
    let mut items: SequenceIterator<Option<u32>, BerParser, Error> = SequenceIterator::new(
        rt.alloc(),
        &[4, 0],
    );
    same(&rt, items.next(), Some(Err(no_octet)));
    same(&rt, items.next(), None);
}
