//! Objects of one type, numbers and headers.

use crate::headers::form_text;
use crate::trees::add_object;
use asn1_rs::Header;
use der_parser::{
    BerResult, ber_read_element_header, der_read_element_header, parse_ber_bool,
    parse_der_bitstring, parse_der_bmpstring, parse_der_bool, parse_der_enum,
    parse_der_generalizedtime, parse_der_ia5string, parse_der_integer, parse_der_null,
    parse_der_octetstring, parse_der_oid, parse_der_printablestring, parse_der_sequence,
    parse_der_set, parse_der_t61string, parse_der_u32, parse_der_universalstring,
    parse_der_utctime, parse_der_utf8string,
};
use rows_hex::{Added, add_debug, found};
use std::alloc::Global;

/// What a typed reader reads.
#[derive(Clone, Copy)]
enum Typed {
    BerHeader,
    DerHeader,
    U32,
    BerBool,
    Bool,
    Integer,
    Enum,
    BitString,
    OctetString,
    Null,
    Oid,
    Sequence,
    Set,
    Utf8String,
    PrintableString,
    Ia5String,
    UniversalString,
    BmpString,
    T61String,
    UtcTime,
    GeneralizedTime,
}

const READERS: [(&str, Typed); 21] = [
    ("ber_read_element_header", Typed::BerHeader),
    ("der_read_element_header", Typed::DerHeader),
    ("parse_der_u32", Typed::U32),
    ("parse_ber_bool", Typed::BerBool),
    ("parse_der_bool", Typed::Bool),
    ("parse_der_integer", Typed::Integer),
    ("parse_der_enum", Typed::Enum),
    ("parse_der_bitstring", Typed::BitString),
    ("parse_der_octetstring", Typed::OctetString),
    ("parse_der_null", Typed::Null),
    ("parse_der_oid", Typed::Oid),
    ("parse_der_sequence", Typed::Sequence),
    ("parse_der_set", Typed::Set),
    ("parse_der_utf8string", Typed::Utf8String),
    ("parse_der_printablestring", Typed::PrintableString),
    ("parse_der_ia5string", Typed::Ia5String),
    ("parse_der_universalstring", Typed::UniversalString),
    ("parse_der_bmpstring", Typed::BmpString),
    ("parse_der_t61string", Typed::T61String),
    ("parse_der_utctime", Typed::UtcTime),
    ("parse_der_generalizedtime", Typed::GeneralizedTime),
];

/// Adds what the typed reader of this name answers.
pub(crate) fn add_object_by(text: &mut String, call: &str, octets: &[u8]) -> Added {
    match found(&READERS, call) {
        Some(Typed::BerHeader) => add_header(text, ber_read_element_header(octets)),
        Some(Typed::DerHeader) => add_header(text, der_read_element_header(octets)),
        Some(Typed::U32) => add_debug(text, &parse_der_u32(octets)),
        Some(typed) => add_typed(text, typed, octets),
        None => text.push_str("no kind"),
    }
}

fn add_typed(text: &mut String, typed: Typed, octets: &[u8]) -> Added {
    let alloc = *text.allocator();
    add_object(text, read_by(alloc, typed, octets))
}

/// What the typed reader answers.
fn read_by(alloc: Global, typed: Typed, octets: &[u8]) -> BerResult<'_> {
    match typed {
        Typed::BerBool => parse_ber_bool(octets),
        Typed::Bool => parse_der_bool(octets),
        Typed::Integer => parse_der_integer(octets),
        Typed::Enum => parse_der_enum(octets),
        Typed::BitString => parse_der_bitstring(octets),
        Typed::OctetString => parse_der_octetstring(octets),
        Typed::Null => parse_der_null(octets),
        Typed::Oid => parse_der_oid(octets),
        Typed::Sequence => parse_der_sequence(alloc, octets),
        Typed::Set => parse_der_set(alloc, octets),
        _ => text_or_time(typed, octets),
    }
}

/// The same for texts and times.
fn text_or_time(typed: Typed, octets: &[u8]) -> BerResult<'_> {
    match typed {
        Typed::Utf8String => parse_der_utf8string(octets),
        Typed::PrintableString => parse_der_printablestring(octets),
        Typed::Ia5String => parse_der_ia5string(octets),
        Typed::UniversalString => parse_der_universalstring(octets),
        Typed::BmpString => parse_der_bmpstring(octets),
        Typed::T61String => parse_der_t61string(octets),
        Typed::UtcTime => parse_der_utctime(octets),
        _ => parse_der_generalizedtime(octets),
    }
}

/// Adds the header and how many octets are left, or the error.
fn add_header(text: &mut String, read: BerResult<'_, Header>) -> Added {
    match read {
        Ok((rest, header)) => add_parts(text, &header, rest.len()),
        Err(error) => add_debug(text, &error),
    }
}

fn add_parts(text: &mut String, header: &Header, left: usize) -> Added {
    add_debug(text, &header.class())?;
    text.push_str(form_text(header.is_constructed()))?;
    write!(text, "{} ", header.tag().0)?;
    add_debug(text, &header.length())?;
    write!(text, ", {left} left")
}
