//! What rows of octets don't tell: closures, many values, round trips, writers that fail. What octets are read as and written
//! stands in the rows of `rows_asn1`.

mod collections;
mod held;
mod iterating;
mod sets;

use super::{back_again, same};
use asn1_lists::{Sequence, SequenceOf, Set, SetOf};
use std::test::Fail;

#[test]
fn round_trips(rt: HostRuntime) -> Result<(), Fail> {
    let alloc = rt.alloc();
    back_again::<_, Sequence>(&rt, alloc, b"\x30\x01\x05", b"\x31\x00")?;
    back_again::<_, Set>(&rt, alloc, b"\x31\x01\x05", b"\x30\x00")?;
    let octets = b"\x30\x06\x02\x01\x09\x02\x01\x07";
    back_again::<_, SequenceOf<u32>>(&rt, alloc, octets, b"\x02\x01\x00")?;
    let octets = b"\x31\x0d\x02\x01\x07\x02\x01\x09\x02\x01\x09\x02\x02\x01\x00";
    back_again::<_, SetOf<u32>>(&rt, alloc, octets, b"\x30\x00")
}
