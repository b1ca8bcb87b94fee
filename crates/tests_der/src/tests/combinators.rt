//! Each combinator with a closure that takes, leaves and refuses. Rows of octets are those of the program `rows_asn1`.

use super::{content_of, is_written, reads, tells};
use asn1_core::{Err as Refusal, Error, Header, Tag};
use der_parser::{
    BerObjectContent, BerResult, ber_read_element_header, der_read_element_header, parse_ber_bool,
    parse_der_bool, parse_der_content, parse_der_implicit, parse_der_sequence,
    parse_der_sequence_defined_g, parse_der_sequence_of_v, parse_der_set_defined_g,
    parse_der_tagged_explicit_g, parse_der_tagged_implicit, parse_der_tagged_implicit_g,
    parse_der_u32,
};
use std::alloc::Global;
use std::process::Abort;

#[test]
fn typed_objects_keep_their_octets(rt: HostRuntime) {
    let octets = b"\x9f\x01\x81\x01\x00\x07";
    let want = "Ok(([7], (ContextSpecific, Definite(1), [159, 1, 129, 1, 0], Other)))";
    reads(&rt, parse_der_bool(octets), want);
    reads(&rt, parse_ber_bool(octets), want);
    let octets = b"\x30\x06\x01\x01\xff\x02\x01\x00";
    match parse_der_sequence(rt.alloc(), octets) {
        Ok((_, object)) => assert!(rt; is_written(rt.alloc(), &object, octets)),
        Err(refusal) => tells(&rt, refusal, "a sequence"),
    }
}

fn small(i: &[u8]) -> BerResult<'_, u8> {
    let (rest, number) = parse_der_u32(i)?;
    match u8::try_from(number) {
        Ok(small) => Ok((rest, small)),
        Err(_) => Err(Refusal::Error(Error::IntegerTooLarge)),
    }
}

// The first small number of a sequence, of a set, and under tag number 2.
fn in_sequence(i: &[u8]) -> BerResult<'_, u8> {
    parse_der_sequence_defined_g(i, |content, _| small(content))
}

fn in_set(i: &[u8]) -> BerResult<'_, u8> {
    parse_der_set_defined_g(i, |content, _| small(content))
}

fn in_tag(i: &[u8]) -> BerResult<'_, u8> {
    parse_der_tagged_explicit_g(i, Tag(2), |content, _| small(content))
}

// The small numbers of a sequence.
fn all_small(alloc: Global, i: &[u8]) -> BerResult<'_, Vec<u8>> {
    parse_der_sequence_of_v(alloc, i, |item| small(item))
}

const NO_SEQUENCE: &str = "Err(Error(UnexpectedTag { expected: Some(Tag(16)), actual: Tag(17) }))";

#[test]
fn contents_are_handed_over(rt: HostRuntime) {
    let two = b"\x30\x06\x02\x01\x01\x02\x01\x02";
    tells(&rt, in_sequence(two), "Ok(([], 1))");
    let negative = in_sequence(b"\x30\x03\x02\x01\x80");
    tells(&rt, negative, "Err(Error(IntegerNegative))");
    tells(&rt, in_sequence(b"\x31\x00"), NO_SEQUENCE);
    tells(
        &rt,
        in_sequence(b"\x30\x03\x02"),
        "Err(Incomplete(Size(2)))",
    );
    tells(&rt, in_set(b"\x31\x03\x02\x01\x07"), "Ok(([], 7))");
    tells(
        &rt,
        in_set(b"\x30\x00"),
        "Err(Error(UnexpectedTag { expected: Some(Tag(17)), actual: Tag(16) }))",
    );
    tells(&rt, in_tag(b"\xa2\x03\x02\x01\x07\x08"), "Ok(([8], 7))");
    tells(
        &rt,
        in_tag(b"\xa1\x00"),
        "Err(Error(UnexpectedTag { expected: Some(Tag(2)), actual: Tag(1) }))",
    );
    // the whole content, and the octets after the element
    let whole = parse_der_sequence_defined_g(
        b"\x30\x03\x01\x02\x03\x04",
        |i, header| Ok::<_, Refusal<Error>>((i, (i, header.length()))),
    );
    tells(&rt, whole, "Ok(([4], ([1, 2, 3], Definite(3))))");
}

// How long an element of context tag number 2 is, whether it is primitive, and how many levels are left.
fn form_of(i: &[u8]) -> BerResult<'_, (usize, bool, usize)> {
    parse_der_tagged_implicit_g(i, Tag(2), |content, header, levels| {
        Ok((content, (content.len(), header.is_primitive(), levels)))
    })
}

// An element of context tag number 2 whose content is that of a type of this tag number.
fn as_type<'a>(alloc: Global, i: &'a [u8], tag: Tag) -> BerResult<'a> {
    parse_der_tagged_implicit(i, Tag(2), |content, header, levels| {
        parse_der_content(alloc, content, tag, header, levels)
    })
}

#[test]
fn implicit_objects_are_read(rt: HostRuntime) {
    let alloc = rt.alloc();
    let other = "Err(Error(UnexpectedTag { expected: Some(Tag(2)), actual: Tag(3) }))";
    tells(&rt, form_of(b"\x82\x02\x01\x02"), "Ok(([], (2, true, 50)))");
    tells(&rt, form_of(b"\x83\x00"), other);
    reads(
        &rt,
        as_type(alloc, b"\x82\x02\x00\x80\x05", Tag::Integer),
        "Ok(([5], (ContextSpecific, Definite(2), [130, 2, 0, 128], Octets([0, 128]))))",
    );
    reads(
        &rt,
        as_type(alloc, b"\xa2\x03\x02\x01\x05", Tag::Sequence),
        "Ok(([], (ContextSpecific, Definite(3), [162, 3, 2, 1, 5], Sequence(1))))",
    );
    let long = as_type(alloc, b"\x82\x02\x00\x7f", Tag::Integer);
    reads(&rt, long, "Err(Error(BerValueError))");
    let constructed = as_type(alloc, b"\xa2\x01\x05", Tag::Integer);
    reads(&rt, constructed, "Err(Error(ConstructUnexpected))");
    reads(&rt, as_type(alloc, b"\x83\x01\x05", Tag::Integer), other);
    let cut = as_type(alloc, b"\x82\x02\x05", Tag::Integer);
    reads(&rt, cut, "Err(Incomplete(Size(1)))");
    let octets = parse_der_implicit(b"\x81\x01\x05", Tag(1), |content, _, _| {
        Ok::<_, Refusal<Error>>((content, BerObjectContent::OctetString(content)))
    });
    reads(
        &rt,
        octets,
        "Ok(([], (ContextSpecific, Definite(1), [129, 1, 5], Octets([5]))))",
    );
}

// That the content behind a header is read so, with the octets after it first; or that it is refused so.
fn holds<R: Abort + AllocGlobal>(
    rt: &R,
    header: BerResult<'_, Header>,
    content: &[u8],
    tag: Tag,
    levels: usize,
    want: &str,
) {
    let read = match header {
        Ok((_, header)) => match parse_der_content(rt.alloc(), content, tag, header, levels) {
            Ok((rest, content)) => Ok((rest, content_of(&content))),
            Err(refusal) => Err(refusal),
        },
        Err(refusal) => Err(refusal),
    };
    tells(rt, read, want)
}

#[test]
fn contents_alone_are_read(rt: HostRuntime) {
    let number = |content: &[u8], levels: usize, want: &str| {
        holds(
            &rt,
            der_read_element_header(b"\x82\x02"),
            content,
            Tag::Integer,
            levels,
            want,
        )
    };
    number(b"\x00\x80\x05", 1, "Ok(([5], Octets([0, 128])))");
    number(b"\x00\x80", 0, "Err(Error(BerMaxDepth))");
    number(b"\x00", 1, "Err(Incomplete(Size(1)))");
    number(b"\x00\x7f", 1, "Err(Error(BerValueError))");
    holds(
        &rt,
        ber_read_element_header(b"\x30\x80"),
        b"\x00\x00",
        Tag::Sequence,
        1,
        "Err(Error(IndefiniteLengthUnexpected))",
    );
    // parts have a level less
    let parts = |levels: usize, want: &str| {
        holds(
            &rt,
            der_read_element_header(b"\x30\x02"),
            b"\x30\x00",
            Tag::Sequence,
            levels,
            want,
        )
    };
    parts(2, "Ok(([], Sequence(1)))");
    parts(1, "Err(Error(BerMaxDepth))");
}

#[test]
fn items_are_read_to_the_end(rt: HostRuntime) {
    let alloc = rt.alloc();
    let two = all_small(alloc, b"\x30\x06\x02\x01\x01\x02\x01\x02\x09");
    tells(&rt, two, "Ok(([9], [1, 2]))");
    tells(&rt, all_small(alloc, b"\x30\x00"), "Ok(([], []))");
    let negative = all_small(alloc, b"\x30\x06\x02\x01\x01\x02\x01\x80");
    tells(&rt, negative, "Err(Error(IntegerNegative))");
    let cut = all_small(alloc, b"\x30\x05\x02\x01\x01\x02\x01");
    tells(&rt, cut, "Err(Error(Incomplete(Size(1))))");
    tells(&rt, all_small(alloc, b"\x31\x00"), NO_SEQUENCE);
    let short = all_small(alloc, b"\x30\x01");
    tells(&rt, short, "Err(Incomplete(Size(1)))");
}

#[test]
fn refusals_of_items_are_told(rt: HostRuntime) {
    let alloc = rt.alloc();
    let none_taken = parse_der_sequence_of_v(alloc, b"\x30\x01\x00", |i| {
        Ok::<_, Refusal<Error>>((i, 0u8))
    });
    tells(&rt, none_taken, "Err(Error(NomError(Many0)))");
    let failing = parse_der_sequence_of_v(alloc, b"\x30\x01\x00", |_| {
        Err::<(&[u8], u8), _>(Refusal::Failure(Error::OutOfMemory))
    });
    tells(&rt, failing, "Err(Failure(OutOfMemory))");
}
