//! Pairs read, written and read back, by themselves and within other types.

use super::{back_again, same};
use asn1_core::{Err as Refusal, Error, IResult, Needed};
use asn1_lists::{Pair, SetOf};
use asn1_tagged::{OptTaggedExplicit, TaggedImplicit};
use asn1_traits::{FromDer, ToDer, read_back};
use std::test::Fail;

#[test]
fn pairs(rt: HostRuntime) -> Result<(), Fail> {
    let alloc = rt.alloc();
    let octets = b"\x30\x06\x02\x01\x05\x01\x01\xff\x09";
    let (rest, pair) = read_back::<Error, Pair<u32, bool>>(alloc, octets)?;
    same(&rt, rest.len(), 1);
    same(&rt, (pair.first, pair.second), (5, true));
    same(&rt, pair.to_der_vec(alloc)?.as_slice(), &octets[..8]);
    // a third value, and a missing one
    let refused = Pair::<u32, bool>::from_der(alloc, b"\x30\x08\x02\x01\x05\x01\x01\xff\x05\x00");
    same(&rt, refused, Err(Refusal::Error(Error::InvalidLength)));
    let missing: IResult<_, Pair<u32, bool>, Error> = Pair::from_der(
        alloc,
        b"\x30\x03\x02\x01\x05",
    );
    same(
        &rt,
        missing,
        Err(Refusal::Error(Error::Incomplete(Needed::Size(1)))),
    );
    Ok(())
}

#[test]
fn pairs_in_others(rt: HostRuntime) -> Result<(), Fail> {
    let octets = b"\x30\x07\x30\x05\x02\x01\x01\x30\x00";
    back_again::<_, Vec<Pair<u32, Vec<u8>>>>(&rt, rt.alloc(), octets, b"")?;
    back_again::<_, SetOf<Pair<u32, u32>>>(&rt, rt.alloc(), b"\x31\x00", b"")
}

#[test]
fn pairs_under_tags(rt: HostRuntime) {
    let octets = b"\xa0\x06\x02\x01\x05\x02\x01\x06";
    match TaggedImplicit::<Pair<u32, u32>, Error, 0>::from_der(rt.alloc(), octets) {
        Ok((_, tagged)) => same(&rt, tagged.into_inner().second, 6),
        Err(e) => panic!(rt; "{e}"),
    }
    match OptTaggedExplicit::<Pair<u32, u32>, Error, 0>::from_der(rt.alloc(), b"\xa1\x00") {
        Ok((_, tagged)) => same(&rt, tagged.is_none(), true),
        Err(e) => panic!(rt; "{e}"),
    }
}
