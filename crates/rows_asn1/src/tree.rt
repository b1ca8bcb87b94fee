//! An object in words.

use crate::headers::form_text;
use asn1_rs::{Any, Length};
use der_parser::{BerObject, BerObjectContent};
use rows_hex::{Added, add_debug, add_hex};

/// Adds what the object holds; that its header told the indefinite form.
#[cycle(words)]
pub(crate) fn add_words_of(text: &mut String, object: &BerObject<'_>) -> Added {
    if object.header.length() == Length::Indefinite {
        text.push_str("indefinite ")?;
    }
    add_held(text, &object.content)
}

/// Adds what a content holds, its kind first.
#[cycle(words)]
fn add_held(text: &mut String, content: &BerObjectContent<'_>) -> Added {
    match content {
        BerObjectContent::Sequence(parts) => add_all(text, "sequence [", parts.as_slice()),
        BerObjectContent::Set(parts) => add_all(text, "set [", parts.as_slice()),
        _ => add_leaf(text, content),
    }
}

/// Adds the objects one after the other.
#[cycle(words)]
fn add_all(text: &mut String, kind: &str, parts: &[BerObject<'_>]) -> Added {
    text.push_str(kind)?;
    for part in parts {
        if !text.ends_with('[') {
            text.push_str("; ")?;
        }
        add_words_of(text, part)?;
    }
    text.push(']')
}

/// Adds what a content without parts holds.
fn add_leaf(text: &mut String, content: &BerObjectContent<'_>) -> Added {
    match content {
        BerObjectContent::EndOfContent => text.push_str("end of contents"),
        BerObjectContent::Boolean(value) => write!(text, "boolean {value}"),
        BerObjectContent::Null => text.push_str("null"),
        BerObjectContent::Enum(number) => write!(text, "enumerated {number}"),
        BerObjectContent::OID(identifier) => write!(text, "identifier {identifier}"),
        BerObjectContent::BitString(unused, octets) => {
            text.push_str("bits ")?;
            add_hex(text, octets)?;
            write!(text, ", {unused} unused")
        }
        BerObjectContent::Unknown(any) => add_raw(text, any),
        _ => add_octets(text, content),
    }
}

/// Adds an element of no type that is known.
fn add_raw(text: &mut String, any: &Any<'_>) -> Added {
    text.push_str("raw ")?;
    add_debug(text, &any.class())?;
    text.push_str(form_text(any.header.is_constructed()))?;
    write!(text, "{} ", any.tag().0)?;
    add_debug(text, &any.length())?;
    text.push(' ')?;
    add_hex(text, any.content)
}

/// Adds what a content that is octets or a text holds.
fn add_octets(text: &mut String, content: &BerObjectContent<'_>) -> Added {
    text.push_str(kind_of(content))?;
    match content.as_slice() {
        Ok(octets) => add_hex(text, octets),
        Err(_) => text.push_str("no octets"),
    }
}

/// The kind of what is octets or a text, and a blank.
fn kind_of(content: &BerObjectContent<'_>) -> &'static str {
    match content {
        BerObjectContent::Integer(_) => "integer ",
        BerObjectContent::OctetString(_) => "octets ",
        BerObjectContent::ObjectDescriptor(_) => "object descriptor ",
        BerObjectContent::UTF8String(_) => "UTF-8 text ",
        BerObjectContent::RelativeOID(_) => "relative identifier ",
        BerObjectContent::NumericString(_) => "numeric text ",
        BerObjectContent::PrintableString(_) => "printable text ",
        BerObjectContent::T61String(_) => "T61String text ",
        BerObjectContent::VideotexString(_) => "videotex text ",
        BerObjectContent::IA5String(_) => "IA5 text ",
        BerObjectContent::UTCTime(_) => "UTC time ",
        BerObjectContent::GeneralizedTime(_) => "generalized time ",
        BerObjectContent::GraphicString(_) => "graphic text ",
        BerObjectContent::VisibleString(_) => "visible text ",
        BerObjectContent::GeneralString(_) => "general text ",
        BerObjectContent::UniversalString(_) => "universal text ",
        BerObjectContent::BmpString(_) => "BMP text ",
        _ => "other ",
    }
}
