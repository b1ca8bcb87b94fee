//! Values under tags: their own calls, parsers with closures, want of memory and round trips. What octets are read as and
//! written stands in the rows of `rows_asn1`.

use super::{back_again, same};
use asn1_any::Any;
use asn1_core::{
    Class, Err as Refusal, Error, Header, Length, Needed, SerializeError, SerializeResult, Tag,
};
use asn1_device::{Sink, WriteSink};
use asn1_tagged::{
    Explicit, Implicit, OptTaggedExplicit, OptTaggedImplicit, OptTaggedParser, TaggedExplicit,
    TaggedImplicit, TaggedValue, opt_explicit_by_ber, opt_explicit_by_der, opt_implicit_by_ber,
    opt_implicit_by_der,
};
use asn1_traits::{DerLeaf, FromAny, FromBer, FromDer, FromDerAny, FromLeaf, Tagged, ToDer};
use std::alloc::Global;
use std::process::Abort;
use std::test::Fail;

type Two = TaggedExplicit<u8, Error, 0>;

type Short = TaggedImplicit<u8, Error, 0>;

fn two(n: u8) -> Two {
    TaggedExplicit::explicit(n)
}

fn short(n: u8) -> Short {
    TaggedImplicit::implicit(n)
}

fn wrong_class(expected: Option<Class>, actual: Class) -> Error {
    Error::UnexpectedClass { expected, actual }
}

#[test]
fn values_and_tags(rt: HostRuntime) -> Result<(), Fail> {
    same(&rt, two(2).der_constructed(), true);
    same(&rt, two(2).into_inner(), 2);
    same(&rt, *two(2).as_ref(), 2);
    same(&rt, two(2).class(), 2);
    same(&rt, two(2).tag(), Tag(0));
    same(&rt, Two::own_tag(), Tag(0));
    same(&rt, short(2).der_constructed(), false);
    same(&rt, short(2).into_inner(), 2);
    same(&rt, Short::own_class(), Class::ContextSpecific);
    Ok(())
}

// A class of number 4 is none: nothing is written.
fn refuses_class<R: Abort, T: ToDer + Drop>(rt: &R, alloc: Global, value: T) {
    same(rt, value.in_der_form(), false);
    same(rt, value.to_der_len(), Ok(0));
    same(rt, value.der_constructed(), false);
    match value.to_der_vec(alloc) {
        Ok(_) => assert!(rt; false),
        Err(e) => same(rt, e, SerializeError::InvalidClass { class: 4 }),
    }
}

#[test]
fn no_class(rt: HostRuntime) {
    let value: TaggedValue<u8, Error, Explicit, 4, 0> = TaggedValue::explicit(2);
    refuses_class(&rt, rt.alloc(), value);
    let value: TaggedValue<u8, Error, Implicit, 4, 0> = TaggedValue::implicit(2);
    refuses_class(&rt, rt.alloc(), value);
}

#[test]
fn whole_elements(rt: HostRuntime) -> Result<(), Fail> {
    let header = Header::new(Class::ContextSpecific, true, Tag(0), Length::Definite(3));
    let any = Any::new(header, &[2, 1, 2]);
    same(&rt, Two::try_from_any(rt.alloc(), any), Ok(two(2)));
    same(&rt, Two::try_from_der_any(rt.alloc(), any), Ok(two(2)));
    let header = Header::new(Class::ContextSpecific, false, Tag(0), Length::Definite(1));
    let any = Any::new(header, &[2]);
    same(&rt, Short::try_from_any(rt.alloc(), any), Ok(short(2)));
    same(&rt, Short::try_from_der_any(rt.alloc(), any), Ok(short(2)));
    Ok(())
}

#[test]
fn laws_of_optional_values(_rt: HostRuntime) -> Result<(), Fail> {
    opt_explicit_by_der::<u8, Error, 2, 0>();
    opt_explicit_by_ber::<u8, Error, 2, 0>();
    opt_implicit_by_der::<u8, Error, 2, 0>();
    opt_implicit_by_ber::<u8, Error, 2, 0>();
    Ok(())
}

// How many octets are left, and the class, constructed bit, length and value of the element.
type Seen = Option<(Class, bool, Length, u8)>;

fn seen(header: Header, value: u8) -> (Class, bool, Length, u8) {
    (header.class(), header.constructed(), header.length(), value)
}

fn parse_der(
    parser: &OptTaggedParser,
    alloc: Global,
    octets: &[u8],
) -> Result<(usize, Seen), Refusal<Error>> {
    let (rest, value) = parser.parse_der(octets, |header, content| {
        let (rest, value) = u8::from_der(alloc, content)?;
        Ok((rest, seen(header, value)))
    })?;
    Ok((rest.len(), value))
}

fn parse_ber(
    parser: &OptTaggedParser,
    alloc: Global,
    octets: &[u8],
) -> Result<(usize, Seen), Refusal<Error>> {
    let (rest, value) = parser.parse_ber(octets, |header, content| {
        let (rest, value) = u8::from_ber(alloc, content)?;
        Ok((rest, seen(header, value)))
    })?;
    Ok((rest.len(), value))
}

type Parsed = Result<(usize, Seen), Refusal<Error>>;

fn der_is<R: Abort>(rt: &R, alloc: Global, octets: &[u8], wanted: Parsed) {
    same(
        rt,
        parse_der(&OptTaggedParser::from(1), alloc, octets),
        wanted,
    );
}

fn ber_is<R: Abort>(rt: &R, alloc: Global, octets: &[u8], wanted: Parsed) {
    same(
        rt,
        parse_ber(&OptTaggedParser::from(1), alloc, octets),
        wanted,
    );
}

// So many octets are left, and the element is this one, of tag number 1.
fn found(left: usize, constructed: bool, length: Length) -> Parsed {
    Ok((left, Some((Class::ContextSpecific, constructed, length, 7))))
}

fn refused(error: Error) -> Parsed {
    Err(Refusal::Error(error))
}

fn missing(octets: usize) -> Parsed {
    Err(Refusal::Incomplete(Needed::Size(octets)))
}

#[test]
fn parsers_find(rt: HostRuntime) {
    let alloc = rt.alloc();
    same(
        &rt,
        OptTaggedParser::from(1),
        OptTaggedParser::new(Class::ContextSpecific, Tag(1)),
    );
    let whole = found(1, true, Length::Definite(4));
    der_is(&rt, alloc, &[0xa1, 4, 2, 1, 7, 0xff, 9], whole);

    // the constructed bit isn't looked at
    let primitive = found(0, false, Length::Definite(3));
    der_is(&rt, alloc, &[0x81, 3, 2, 1, 7], primitive);
    let indefinite = found(1, true, Length::Indefinite);
    ber_is(&rt, alloc, &[0xa1, 0x80, 2, 2, 0, 7, 0, 0, 5], indefinite);
}

#[test]
fn parsers_find_none(rt: HostRuntime) {
    let alloc = rt.alloc();
    der_is(&rt, alloc, &[], Ok((0, None)));
    ber_is(&rt, alloc, &[], Ok((0, None)));

    // another tag number, of whatever class, is another element, which has to be whole
    der_is(&rt, alloc, &[0xa2, 1, 0], Ok((3, None)));
    der_is(&rt, alloc, &[2, 1, 0, 9], Ok((4, None)));
    ber_is(&rt, alloc, &[0x30, 0x80, 0, 0], Ok((4, None)));
    der_is(&rt, alloc, &[0xa2, 3, 0], missing(2));
    ber_is(&rt, alloc, &[0xa2, 3, 0], missing(2));
}

#[test]
fn parsers_refuse(rt: HostRuntime) {
    let alloc = rt.alloc();
    der_is(&rt, alloc, &[0xa1, 3, 2], missing(2));
    let application = wrong_class(Some(Class::ContextSpecific), Class::Application);
    der_is(&rt, alloc, &[0x61, 3, 2, 1, 7], refused(application));
    let universal = wrong_class(Some(Class::ContextSpecific), Class::Universal);
    ber_is(&rt, alloc, &[1, 1, 0], refused(universal));

    // the closure's refusal is handed on
    let negative = refused(Error::IntegerNegative);
    der_is(&rt, alloc, &[0xa1, 3, 2, 1, 0xff], negative);
    ber_is(&rt, alloc, &[0xa1, 2, 2, 5], missing(5));
}

#[test]
fn parsers_of_other_classes(rt: HostRuntime) {
    let sequence = OptTaggedParser::new(Class::Universal, Tag(16));
    same(
        &rt,
        parse_der(&sequence, rt.alloc(), &[0x30, 3, 2, 1, 7]),
        Ok((0, Some((Class::Universal, true, Length::Definite(3), 7)))),
    );
}

// An octet string that no memory is ever found for.
#[derive(Debug, Drop, PartialEq, Eq)]
struct Hungry;

impl Tagged for Hungry {
    ghost use Rattle.std.specs.Prelude.{◌≡◌};

    const TAG: Tag = Tag(4);

    ghost tag_number = { 4 };

    fn own_class() -> Class {
        Class::Universal
    }

    fn own_tag() -> Tag {
        Tag(4)
    }
}

impl DerLeaf for Hungry {
    ghost use Rattle.std.specs.Prelude.{◌≡◌, [], refl};
    ghost use Rattle.std.proofs.Common.{lit<};

    ghost content_means = { λ c _. c ≡ [] };

    ghost content_allowed = { λ c. c ≡ [] };

    ghost content_grows = { Unit {0} };

    ghost leaf_form = { λ _. Unit {0} };

    ghost content = { λ _. [] };

    fn check_content(octets: &[u8]) -> Result<(), Error> {
        if octets.is_empty() {
            Ok(())
        } else {
            Err(Error::InvalidLength)
        }
    }

    fn leaf_in_form(&self) -> bool {
        true
    }

    fn leaf_len(&self) -> SerializeResult<usize> {
        Ok(0)
    }

    fn write_leaf<S: Sink>(&self, _writer: &mut S) -> SerializeResult<usize> {
        Ok(0)
    }

    ghost low = { lit< tt };

    ghost fits = { λ _ _. (refl, refl) };

    ghost same = { λ _ _ _ _. refl };
}

impl<'a> FromLeaf<'a> for Hungry {
    fn from_content(_alloc: Global, _octets: &'a [u8]) -> Result<Hungry, Error> {
        Err(Error::OutOfMemory)
    }
}

// The refusal by DER's rules, and by BER's.
fn der_refusal<'a, E: From<Error>, T: FromDer<'a, E> + Drop>(
    alloc: Global,
    octets: &'a [u8],
) -> Option<Refusal<E>> {
    match T::from_der(alloc, octets) {
        Ok(_) => None,
        Err(e) => Some(e),
    }
}

fn ber_refusal<'a, E: From<Error>, T: FromBer<'a, E> + Drop>(
    alloc: Global,
    octets: &'a [u8],
) -> Option<Refusal<E>> {
    match T::from_ber(alloc, octets) {
        Ok(_) => None,
        Err(e) => Some(e),
    }
}

fn hungry_by_der(parser: &OptTaggedParser, alloc: Global, octets: &[u8]) -> Option<Refusal<Error>> {
    match parser.parse_der(octets, |_, content| Hungry::from_der(alloc, content)) {
        Ok(_) => None,
        Err(e) => Some(e),
    }
}

fn hungry_by_ber(parser: &OptTaggedParser, alloc: Global, octets: &[u8]) -> Option<Refusal<Error>> {
    match parser.parse_ber(octets, |_, content| Hungry::from_ber(alloc, content)) {
        Ok(_) => None,
        Err(e) => Some(e),
    }
}

const WANT: Option<Refusal<Error>> = Some(Refusal::Failure(Error::OutOfMemory));

#[test]
fn want_of_memory_behind_a_tag(rt: HostRuntime) -> Result<(), Fail> {
    let alloc = rt.alloc();
    let wanted = WANT;
    let octets = [0xa0, 2, 4, 0];
    let came = der_refusal::<Error, TaggedExplicit<Hungry, Error, 0>>(alloc, &octets);
    same(&rt, came, wanted);
    let came = ber_refusal::<Error, TaggedExplicit<Hungry, Error, 0>>(alloc, &octets);
    same(&rt, came, wanted);
    let came = der_refusal::<Error, OptTaggedExplicit<Hungry, Error, 0>>(alloc, &octets);
    same(&rt, came, wanted);
    let came = ber_refusal::<Error, OptTaggedExplicit<Hungry, Error, 0>>(alloc, &octets);
    same(&rt, came, wanted);
    let parser = OptTaggedParser::from(0);
    same(&rt, hungry_by_der(&parser, alloc, &octets), wanted);
    same(&rt, hungry_by_ber(&parser, alloc, &octets), wanted);
    Ok(())
}

#[test]
fn want_of_memory_in_place_of_a_tag(rt: HostRuntime) -> Result<(), Fail> {
    let alloc = rt.alloc();
    let wanted = WANT;
    let octets = [0x80, 0];
    let came = der_refusal::<Error, TaggedImplicit<Hungry, Error, 0>>(alloc, &octets);
    same(&rt, came, wanted);
    let came = ber_refusal::<Error, TaggedImplicit<Hungry, Error, 0>>(alloc, &octets);
    same(&rt, came, wanted);
    let came = der_refusal::<Error, OptTaggedImplicit<Hungry, Error, 0>>(alloc, &octets);
    same(&rt, came, wanted);
    let came = ber_refusal::<Error, OptTaggedImplicit<Hungry, Error, 0>>(alloc, &octets);
    same(&rt, came, wanted);
    Ok(())
}

#[test]
fn round_trips(rt: HostRuntime) -> Result<(), Fail> {
    let alloc = rt.alloc();
    back_again::<_, Two>(&rt, alloc, &[0xa0, 3, 2, 1, 2], &[])?;
    back_again::<_, Short>(&rt, alloc, &[0x80, 1, 2], &[1, 1, 0])
}

#[test]
fn headers_and_contents(rt: HostRuntime) {
    let mut sink = WriteSink::new(Vec::new(rt.alloc()));
    same(&rt, two(2).write_der_header(&mut sink), Ok(2));
    same(&rt, two(2).write_der_content(&mut sink), Ok(3));
    same(&rt, short(2).write_der(&mut sink), Ok(3));
    let written = [0xa0, 3, 2, 1, 2, 0x80, 1, 2];
    same(&rt, sink.into_inner().as_slice(), written.as_slice());
}
