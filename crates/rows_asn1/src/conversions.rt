//! Elements, and what they mean by the conversions of `Any`.

use asn1_rs::{Any, AnyConversions};
use rows_hex::{Added, add_debug, found};

/// A conversion.
#[derive(Clone, Copy)]
enum As {
    Bool,
    Integer,
    Enumerated,
    BitString,
    OctetString,
    Null,
    Oid,
    AsOid,
    UtcTime,
    GeneralizedTime,
    Sequence,
    Set,
    Utf8String,
    PrintableString,
    Ia5String,
    U8,
    U16,
    U32,
    U64,
    I8,
    I16,
    I32,
    I64,
}

const CONVERSIONS: [(&str, As); 23] = [
    ("bool", As::Bool),
    ("integer", As::Integer),
    ("enumerated", As::Enumerated),
    ("bitstring", As::BitString),
    ("octetstring", As::OctetString),
    ("null", As::Null),
    ("oid", As::Oid),
    ("as_oid", As::AsOid),
    ("utctime", As::UtcTime),
    ("generalizedtime", As::GeneralizedTime),
    ("sequence", As::Sequence),
    ("set", As::Set),
    ("utf8string", As::Utf8String),
    ("printablestring", As::PrintableString),
    ("ia5string", As::Ia5String),
    ("u8", As::U8),
    ("u16", As::U16),
    ("u32", As::U32),
    ("u64", As::U64),
    ("i8", As::I8),
    ("i16", As::I16),
    ("i32", As::I32),
    ("i64", As::I64),
];

/// Adds what the element that begins the octets by BER's rules means at the conversion of this name.
pub(crate) fn add_meaning(text: &mut String, name: &str, octets: &[u8]) -> Added {
    match Any::from_ber(octets) {
        Ok((_, any)) => add_by_name(text, name, any),
        Err(error) => add_debug(text, &error),
    }
}

fn add_by_name(text: &mut String, name: &str, any: Any<'_>) -> Added {
    match found(&CONVERSIONS, name) {
        Some(conversion) => add_simple(text, conversion, any),
        None => text.push_str("no kind"),
    }
}

fn add_simple(text: &mut String, conversion: As, any: Any<'_>) -> Added {
    let alloc = *text.allocator();
    match conversion {
        As::Bool => add_debug(text, &any.as_bool(alloc)),
        As::Integer => add_debug(text, &any.integer(alloc)),
        As::Enumerated => add_debug(text, &any.enumerated(alloc)),
        As::BitString => add_debug(text, &any.bitstring(alloc)),
        As::OctetString => add_debug(text, &any.octetstring(alloc)),
        As::Null => add_debug(text, &any.null(alloc)),
        As::Oid => add_debug(text, &any.oid(alloc)),
        As::AsOid => add_debug(text, &any.as_oid(alloc)),
        _ => add_time_or_parts(text, conversion, any),
    }
}

/// The same of times, sequences, sets and strings of characters.
fn add_time_or_parts(text: &mut String, conversion: As, any: Any<'_>) -> Added {
    let alloc = *text.allocator();
    match conversion {
        As::UtcTime => add_debug(text, &any.utctime(alloc)),
        As::GeneralizedTime => add_debug(text, &any.generalizedtime(alloc)),
        As::Sequence => add_debug(text, &any.sequence(alloc)),
        As::Set => add_debug(text, &any.set(alloc)),
        As::Utf8String => add_debug(text, &any.utf8string(alloc)),
        As::PrintableString => add_debug(text, &any.printablestring(alloc)),
        As::Ia5String => add_debug(text, &any.ia5string(alloc)),
        _ => add_number(text, conversion, any),
    }
}

/// The same of the machine integers.
fn add_number(text: &mut String, conversion: As, any: Any<'_>) -> Added {
    let alloc = *text.allocator();
    match conversion {
        As::U8 => add_debug(text, &any.as_u8(alloc)),
        As::U16 => add_debug(text, &any.as_u16(alloc)),
        As::U32 => add_debug(text, &any.as_u32(alloc)),
        As::U64 => add_debug(text, &any.as_u64(alloc)),
        As::I8 => add_debug(text, &any.as_i8(alloc)),
        As::I16 => add_debug(text, &any.as_i16(alloc)),
        As::I32 => add_debug(text, &any.as_i32(alloc)),
        _ => add_debug(text, &any.as_i64(alloc)),
    }
}
