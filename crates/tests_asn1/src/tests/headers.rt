//! Each call once on its happy path. What the header readers answer to octets stands in the rows of `rows_asn1`.

use super::same;
use asn1_core::{
    Class, DerConstraint, Err, Error, ErrorKind, Header, HeaderCount, Length, Needed, OutOfMemory,
    ParseResult, SerializeError, Tag, fewest_digits, lenient_is_ber, long_length, one_ber_header,
    one_element, one_header, one_lenient_header, strict_is_lenient,
};
use std::alloc::{AllocError, AllocFailed, Global};
use std::fmt::Display;
use std::process::Abort;

#[test]
fn built_headers(rt: HostRuntime) {
    let header = Header::new(Class::Private, true, Tag(7), Length::Definite(3));
    same(&rt, header.class(), Class::Private);
    same(&rt, header.constructed(), true);
    same(&rt, header.tag(), Tag(7));
    same(&rt, header.length(), Length::Definite(3));
    same(&rt, header.with_length(Length::Indefinite), header);
    same(
        &rt,
        header.with_length(Length::Indefinite).length(),
        Length::Indefinite,
    );
    same(&rt, header.with_class(Class::Universal) != header, true);
    same(&rt, header.with_constructed(false) != header, true);
    same(&rt, header.with_tag(Tag(8)) != header, true);
    let sequence = Header::new_simple(Tag::Sequence);
    same(
        &rt,
        sequence,
        Header::new(Class::Universal, true, Tag(16), Length::Definite(0)),
    );
    same(&rt, Header::from(Tag::Set), Header::new_simple(Tag(17)));
    same(&rt, Header::new_simple(Tag::Set).is_constructed(), true);
    same(&rt, Header::new_simple(Tag::Null).is_primitive(), true);
}

#[test]
fn checked_headers(rt: HostRuntime) {
    let header = Header::new(Class::ContextSpecific, true, Tag(1), Length::Indefinite);
    same(&rt, header.assert_class(Class::ContextSpecific), Ok(()));
    same(
        &rt,
        header.assert_class(Class::Private),
        Err(Error::unexpected_class(Some(Class::Private), Class::ContextSpecific)),
    );
    same(&rt, header.assert_tag(Tag(1)), Ok(()));
    same(
        &rt,
        header.assert_tag(Tag(2)),
        Err(Error::unexpected_tag(Some(Tag(2)), Tag(1))),
    );
    same(&rt, header.assert_constructed(), Ok(()));
    same(
        &rt,
        header.assert_primitive(),
        Err(Error::ConstructUnexpected),
    );
    same(
        &rt,
        header.with_constructed(false).assert_primitive(),
        Ok(()),
    );
    same(
        &rt,
        header.with_constructed(false).assert_constructed(),
        Err(Error::ConstructExpected),
    );
    same(
        &rt,
        header.assert_definite(),
        Err(Error::IndefiniteLengthUnexpected),
    );
    same(
        &rt,
        header.with_length(Length::Definite(0)).assert_definite(),
        Ok(()),
    );
    same(&rt, header.is_contextspecific(), true);
    same(
        &rt,
        header.with_class(Class::Universal).is_universal(),
        true,
    );
    same(
        &rt,
        header.with_class(Class::Application).is_application(),
        true,
    );
    same(&rt, header.with_class(Class::Private).is_private(), true);
    same(&rt, header.is_private(), false);
}

#[test]
fn numbers_of_classes(rt: HostRuntime) {
    same(&rt, Class::try_from(Class::UNIVERSAL), Ok(Class::Universal));
    same(
        &rt,
        Class::try_from(Class::APPLICATION),
        Ok(Class::Application),
    );
    same(
        &rt,
        Class::try_from(Class::CONTEXT_SPECIFIC),
        Ok(Class::ContextSpecific),
    );
    same(&rt, Class::try_from(Class::PRIVATE), Ok(Class::Private));
    same(&rt, Class::try_from(4).is_err(), true);
    same(&rt, Class::Private as u8, 3);
    same(&rt, Class::Private.assert_eq(Class::Private), Ok(()));
    same(&rt, Tag::from(5), Tag::Null);
    same(&rt, Tag::T61String, Tag::TeletexString);
    same(&rt, Tag::BmpString.assert_eq(Tag(30)), Ok(()));
}

#[test]
fn lengths(rt: HostRuntime) {
    same(&rt, Length::from(4), Length::Definite(4));
    same(&rt, Length::Definite(4).definite(), Ok(4));
    same(
        &rt,
        Length::Indefinite.definite(),
        Err(Error::IndefiniteLengthUnexpected),
    );
    same(&rt, Length::Definite(0).is_null(), true);
    same(&rt, Length::Indefinite.is_null(), false);
    same(&rt, Length::Definite(1).is_definite(), true);
    same(&rt, Length::Definite(1).assert_definite(), Ok(()));
    same(
        &rt,
        Length::Indefinite.assert_definite(),
        Err(Error::IndefiniteLengthUnexpected),
    );
}

// The value prints as this text.
fn prints<R: Abort, T: Display>(rt: &R, alloc: Global, value: &T, text: &str) {
    match format!(in alloc; "{value}") {
        Ok(printed) => same(rt, printed.as_str(), text),
        Err(_) => panic!(rt; "out of memory"),
    }
}

#[test]
fn texts(rt: HostRuntime) {
    let alloc = rt.alloc();
    let value = Tag::Boolean.invalid_value("no boolean");
    same(&rt, value, Error::invalid_value(Tag(1), "no boolean"));
    let constraint = Error::DerConstraintFailed(DerConstraint::InvalidBoolean);
    let errors = [
        (Error::BerTypeError, "BerTypeError"),
        (value, "InvalidValue"),
        (constraint, "DerConstraintFailed"),
    ];
    for (error, text) in errors {
        prints(&rt, alloc, &error, text);
    }
    let answers: [(Err<Error>, &str); 4] = [
        (Err::Incomplete(Needed::Size(12)), "incomplete 12"),
        (Err::Incomplete(Needed::Unknown), "incomplete unknown"),
        (Err::Error(Error::InvalidTag), "error InvalidTag"),
        (Err::Failure(Error::OutOfMemory), "failure OutOfMemory"),
    ];
    for (answer, text) in answers {
        prints(&rt, alloc, &answer, text);
    }
    prints(&rt, alloc, &ErrorKind::Many0, "Many0");
    let written = SerializeError::InvalidClass { class: 4 };
    prints(&rt, alloc, &written, "InvalidClass");
    prints(&rt, alloc, &Class::ContextSpecific, "CONTEXT-SPECIFIC");
    prints(&rt, alloc, &OutOfMemory, "OutOfMemory");
}

#[test]
fn conversions(rt: HostRuntime) {
    let refused: Err<Error> = Err::from(Error::InvalidTag);
    same(&rt, refused, Err::Error(Error::InvalidTag));
    let cut: Err<Error> = Err::Incomplete(Needed::Size(2));
    same(&rt, Error::from(cut), Error::Incomplete(Needed::Size(2)));
    let eof = Error::NomError(ErrorKind::Eof);
    same(&rt, Error::from(ErrorKind::Eof), eof);
    same(&rt, refused.is_incomplete(), false);
    same(&rt, cut.is_incomplete(), true);
    let unwritten = SerializeError::ASN1Error(Error::InvalidTag);
    same(&rt, SerializeError::from(Error::InvalidTag), unwritten);
    same(&rt, Err::convert(refused), Err::Error(unwritten));
}

// Want of memory stays what it is.
#[test]
fn conversions_of_want_of_memory(rt: HostRuntime) {
    let memory: Err<Error> = Err::Failure(Error::OutOfMemory);
    let answers = [
        Err::from(Error::OutOfMemory),
        Err::from(OutOfMemory),
        Err::from(AllocError),
        Err::from(AllocFailed { value: 1u8 }),
    ];
    same(&rt, answers.as_slice(), [memory; 4].as_slice());
    let errors = [
        Error::from(memory),
        Error::from(OutOfMemory),
        Error::from(AllocError),
        Error::from(AllocFailed { value: 1u8 }),
    ];
    same(&rt, errors.as_slice(), [Error::OutOfMemory; 4].as_slice());
    let written = [
        SerializeError::from(Error::OutOfMemory),
        SerializeError::from(OutOfMemory),
        SerializeError::from(AllocError),
        SerializeError::from(AllocFailed { value: 1u8 }),
    ];
    same(
        &rt,
        written.as_slice(),
        [SerializeError::OutOfMemory; 4].as_slice(),
    );
    same(&rt, OutOfMemory::from(AllocError), OutOfMemory);
    same(
        &rt,
        OutOfMemory::from(AllocFailed { value: 1u8 }),
        OutOfMemory,
    );
}

// The laws, which are contracts alone.
#[test]
fn laws_hold() {
    one_header();
    one_element();
    one_lenient_header();
    one_ber_header();
    fewest_digits();
    long_length();
    strict_is_lenient();
    lenient_is_ber();
}

// The length that a header tells, and how many octets are left behind it.
fn told(read: ParseResult<'_, Header>) -> Result<(Length, usize), Err<Error>> {
    match read {
        Ok((rest, header)) => Ok((header.length(), rest.len())),
        Err(e) => Err(e),
    }
}

#[test]
fn counted_headers(rt: HostRuntime) {
    let mut count = HeaderCount::new();
    same(&rt, count.get(), 0);
    let empty = Ok((Length::Definite(0), 0));
    let read = Header::from_der_counted(b"\x30\x81\x00", &mut count);
    same(&rt, told(read), empty);
    let read = Header::strict_counted(b"\x30\x00", &mut count);
    same(&rt, told(read), empty);
    let refused = Header::strict_counted(b"\x30\x81\x00", &mut count);
    same(&rt, told(refused), Err(Err::Error(Error::InvalidLength)));
    same(&rt, count.get(), 3);
}
