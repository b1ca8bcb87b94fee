//! Calls one by one, a sequence of thousands of parts, and devices. Rows of octets are those of the program `rows_asn1`.

use super::{answers, counts, is_written, numbers, reads, says, tells};
use asn1_core::{Error, HeaderCount};
use asn1_device::WriteSink;
use der_tree::{
    BerObject, ber_encode_object, bits_of, is_negative_integer, is_shortest_integer, number_of,
    parse_der, parse_der_recursive, parse_der_recursive_counted, text_of, u32_of,
};
use std::alloc::AllocError;
use std::io::{ErrorKind, Write};

#[test]
fn thousands_of_parts_are_read(rt: HostRuntime) -> Result<(), AllocError> {
    let alloc = rt.alloc();
    let octets = numbers(alloc, b"\x30\x83\x01\x38\x80", b"\x02\x02")?;
    let octets = octets.as_slice();
    let mut count = HeaderCount::new();
    let read = parse_der_recursive_counted(alloc, octets, 2, &mut count);
    tells(&rt, counts(read), "Ok((0, 20000, 20000))");
    tells(&rt, count.get(), "20001");
    // the last part is cut
    match octets.split_last() {
        Some((_, short)) => reads(&rt, parse_der(alloc, short), "Err(Incomplete(Size(1)))"),
        None => tells(&rt, "no octets", "octets"),
    }
    Ok(())
}

#[test]
fn thousands_of_parts_are_written(rt: HostRuntime) -> Result<(), AllocError> {
    let alloc = rt.alloc();
    let octets = numbers(alloc, b"\x30\x83\x01\x38\x80", b"\x02\x02")?;
    let octets = octets.as_slice();
    match parse_der(alloc, octets) {
        Ok((_, object)) => assert!(rt; is_written(alloc, &object, octets)),
        Err(refusal) => tells(&rt, refusal, "a sequence"),
    }
    Ok(())
}

#[test]
fn objects_are_read_in_so_many_levels(rt: HostRuntime) {
    let octets = b"\x30\x02\x30\x00\x05";
    reads(
        &rt,
        parse_der_recursive(rt.alloc(), octets, 2),
        "Ok(([5], (Universal, Definite(2), [48, 2, 48, 0], Sequence(1))))",
    );
    let refused = parse_der_recursive(rt.alloc(), octets, 1);
    reads(&rt, refused, "Err(Error(BerMaxDepth))");
}

#[test]
fn contents_alone_are_answered(rt: HostRuntime) {
    tells(&rt, u32_of(b"\x00\xff\xff\xff\xff"), "Ok(4294967295)");
    let too_large = "Err(IntegerTooLarge)";
    tells(&rt, u32_of(b"\x01\x00\x00\x00\x00"), too_large);
    tells(
        &rt,
        u32_of(b"\x01\x00\x00\x00\x00\x00\x00\x00\x00"),
        too_large,
    );
    tells(&rt, u32_of(b"\x80"), "Err(IntegerNegative)");
    tells(&rt, u32_of(b"\x00\x7f"), "Err(BerValueError)");
    tells(&rt, u32_of(b""), "Err(BerValueError)");
    tells(&rt, is_shortest_integer(b"\x00\x80"), "true");
    tells(&rt, is_shortest_integer(b"\xff\x80"), "false");
    tells(&rt, is_negative_integer(b"\x80"), "true");
    tells(&rt, is_negative_integer(b"\x7f"), "false");
    tells(&rt, number_of(b"\x01\x02"), "Some(258)");
    tells(&rt, text_of(b"\xc3\xa9"), "Some(\"\u{e9}\")");
    tells(&rt, text_of(b"\xc3"), "None");
    tells(&rt, bits_of(b"\x04\xf0"), "Some((4, [240]))");
    tells(&rt, bits_of(b"\x04\xf8"), "None");
}

#[test]
fn headers_are_counted(rt: HostRuntime) {
    let alloc = rt.alloc();
    let mut count = HeaderCount::new();
    reads(
        &rt,
        parse_der_recursive_counted(alloc, b"", 50, &mut count),
        "Err(Incomplete(Size(1)))",
    );
    tells(&rt, count.get(), "0");
    reads(
        &rt,
        parse_der_recursive_counted(alloc, b"\x30\x06\x01\x01\xff\x02\x01\x00", 50, &mut count),
        "Ok(([], (Universal, Definite(6), [48, 6, 1, 1, 255, 2, 1, 0], Sequence(2))))",
    );
    tells(&rt, count.get(), "3");
}

#[test]
fn accessors_answer_what_is_held(rt: HostRuntime) {
    let rows = [
        (
            b"\x01\x01\xff".as_slice(),
            "Ok(true) None None None None None",
        ),
        (
            b"\x02\x02\x00\xff".as_slice(),
            "Err(BerTypeError) Some(255) Some([0, 255]) None None None",
        ),
        (
            b"\x06\x06\x2a\x81\x7a\x01\x10\x09".as_slice(),
            "Err(BerTypeError) None None Some([42, 129, 122, 1, 16, 9]) None None",
        ),
        (
            b"\x03\x02\x04\xf0".as_slice(),
            "Err(BerTypeError) None Some([240]) None Some((4, [240])) None",
        ),
        (
            b"\x0c\x02\xc3\xa9".as_slice(),
            "Err(BerTypeError) None Some([195, 169]) None None Some(\"é\")",
        ),
        (
            b"\x31\x00".as_slice(),
            "Err(BerTypeError) None None None None None",
        ),
        (
            b"\x81\x01\x05".as_slice(),
            "Err(BerTypeError) None Some([5]) None None None",
        ),
    ];
    for (octets, want) in rows {
        match parse_der(rt.alloc(), octets) {
            Ok((_, object)) => says(&rt, answers(rt.alloc(), &object), want),
            Err(refusal) => tells(&rt, refusal, want),
        }
    }
}

// The octets and the value of a number that is not negative.
fn unsigned<'a>(object: &BerObject<'a>) -> Result<(&'a [u8], Option<u64>), Error> {
    match object.as_unsigned() {
        Ok(number) => Ok((number.as_bytes(), number.as_u64())),
        Err(error) => Err(error),
    }
}

#[test]
fn integers_of_any_size_are_answered(rt: HostRuntime) {
    let rows = [
        (b"\x02\x01\x00".as_slice(), "Ok(([], Some(0)))"),
        (
            b"\x02\x0a\x00\x80\x00\x00\x00\x00\x00\x00\x00\x01".as_slice(),
            "Ok(([128, 0, 0, 0, 0, 0, 0, 0, 1], None))",
        ),
        (b"\x02\x01\x80".as_slice(), "Err(IntegerNegative)"),
        (b"\x0a\x01\x05".as_slice(), "Err(BerTypeError)"),
    ];
    for (octets, want) in rows {
        match parse_der(rt.alloc(), octets) {
            Ok((_, object)) => tells(&rt, unsigned(&object), want),
            Err(refusal) => tells(&rt, refusal, want),
        }
    }
}

// A device that takes nothing.
#[derive(Drop)]
struct Broken;

impl Write for Broken {
    fn write(&mut self, _octets: &[u8]) -> Result<usize, std::io::Error> {
        Err(std::io::Error::from(ErrorKind::Other))
    }

    fn flush(&mut self) -> Result<(), std::io::Error> {
        Ok(())
    }
}

#[test]
fn devices_are_written_to(rt: HostRuntime) {
    let alloc = rt.alloc();
    let octets = b"\x30\x06\x01\x01\xff\x02\x01\x00";
    match parse_der(alloc, octets) {
        Ok((_, object)) => assert!(rt; is_written(alloc, &object, octets)),
        Err(refusal) => tells(&rt, refusal, "a sequence"),
    }
    match parse_der(alloc, b"\x05\x00") {
        Ok((_, object)) => {
            let mut sink = WriteSink::new(Broken);
            let refused = ber_encode_object(alloc, &mut sink, &object);
            tells(&rt, refused, "Err(IOError)");
        }
        Err(refusal) => tells(&rt, refusal, "a null"),
    }
}
