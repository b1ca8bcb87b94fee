//! The forms of lengths that objects tell, and a sequence of thousands of parts. Rows of octets are those of the program
//! `rows_asn1`.

use super::{counts, has_parts, numbers, reads, seen, tells};
use ber_tree::{more_ber_levels, one_ber_tree, parse_ber, strict_is_ber};
use std::alloc::AllocError;

#[test]
fn lengths_are_told_as_they_were_read(rt: HostRuntime) {
    let octets = b"\x31\x80\x02\x01\x05\x30\x80\x05\x00\x00\x00\x00\x00\x07";
    let set =
        "([7], (Universal, Indefinite, [49, 128, 2, 1, 5, 48, 128, 5, 0, 0, 0, 0, 0], Set(2)))";
    let parts = [
        "(Universal, Definite(1), [2, 1, 5], Octets([5]))",
        "(Universal, Indefinite, [48, 128, 5, 0, 0, 0], Sequence(1))",
    ];
    match parse_ber(rt.alloc(), octets) {
        Ok((rest, object)) => {
            tells(&rt, (rest, seen(&object)), set);
            match object.as_set() {
                Ok(read) => has_parts(&rt, read, &parts),
                Err(error) => tells(&rt, error, "a set"),
            }
        }
        Err(refusal) => tells(&rt, refusal, set),
    }
    reads(
        &rt,
        parse_ber(rt.alloc(), b"\x00\x00"),
        "Ok(([], (Universal, Definite(0), [0, 0], Other)))",
    );
}

#[test]
fn thousands_of_parts_are_read(rt: HostRuntime) -> Result<(), AllocError> {
    let alloc = rt.alloc();
    let mut octets = numbers(alloc, b"\x30\x80", b"\x02\x81\x02")?;
    octets.extend_from_slice(b"\x00\x00")?;
    let octets = octets.as_slice();
    tells(
        &rt,
        counts(parse_ber(alloc, octets)),
        "Ok((0, 20000, 20000))",
    );
    // the last octet is cut
    match octets.split_last() {
        Some((_, short)) => reads(&rt, parse_ber(alloc, short), "Err(Incomplete(Size(1)))"),
        None => tells(&rt, "no octets", "octets"),
    }
    Ok(())
}

#[test]
fn laws_of_objects() {
    one_ber_tree();
    more_ber_levels();
    strict_is_ber();
}
