//! Tag numbers: the constants, and those of the types.

use asn1_rs::{
    BitString, BmpString, Boolean, Enumerated, GeneralString, GeneralizedTime, GraphicString,
    Ia5String, Integer, Null, NumericString, ObjectDescriptor, OctetString, Oid, PrintableString,
    Sequence, SequenceOf, Set, SetOf, Tag, Tagged, TeletexString, UniversalString, UtcTime,
    Utf8String, VideotexString, VisibleString,
};
use rows_hex::{Added, found};

/// Adds the tag number that stands under the name: `Tag::NAME` is a constant, any other name a type.
pub(crate) fn add_tag(text: &mut String, name: &str) -> Added {
    let tag = match name.strip_prefix("Tag::") {
        Some(name) => found(&CONSTANTS, name),
        None => of_value(name),
    };
    match tag {
        Some(tag) => write!(text, "{}", tag.0),
        None => text.push_str("no kind"),
    }
}

/// Each constant by its name.
const CONSTANTS: [(&str, Tag); 29] = [
    ("EndOfContent", Tag::EndOfContent),
    ("Boolean", Tag::Boolean),
    ("Integer", Tag::Integer),
    ("BitString", Tag::BitString),
    ("OctetString", Tag::OctetString),
    ("Null", Tag::Null),
    ("Oid", Tag::Oid),
    ("ObjectDescriptor", Tag::ObjectDescriptor),
    ("External", Tag::External),
    ("RealType", Tag::RealType),
    ("Enumerated", Tag::Enumerated),
    ("EmbeddedPdv", Tag::EmbeddedPdv),
    ("Utf8String", Tag::Utf8String),
    ("RelativeOid", Tag::RelativeOid),
    ("Sequence", Tag::Sequence),
    ("Set", Tag::Set),
    ("NumericString", Tag::NumericString),
    ("PrintableString", Tag::PrintableString),
    ("TeletexString", Tag::TeletexString),
    ("T61String", Tag::T61String),
    ("VideotexString", Tag::VideotexString),
    ("Ia5String", Tag::Ia5String),
    ("UtcTime", Tag::UtcTime),
    ("GeneralizedTime", Tag::GeneralizedTime),
    ("GraphicString", Tag::GraphicString),
    ("VisibleString", Tag::VisibleString),
    ("GeneralString", Tag::GeneralString),
    ("UniversalString", Tag::UniversalString),
    ("BmpString", Tag::BmpString),
];

/// The tag number of the type of this name.
fn of_value(name: &str) -> Option<Tag> {
    let table = [
        ("bool", <bool as Tagged>::TAG),
        ("unit", <() as Tagged>::TAG),
        ("octets", <&[u8] as Tagged>::TAG),
        ("str", <&str as Tagged>::TAG),
        ("String", <String as Tagged>::TAG),
        ("Boolean", <Boolean as Tagged>::TAG),
        ("Integer", <Integer<'_> as Tagged>::TAG),
        ("Enumerated", <Enumerated as Tagged>::TAG),
        ("Null", <Null as Tagged>::TAG),
        ("BitString", <BitString<'_> as Tagged>::TAG),
        ("OctetString", <OctetString<'_> as Tagged>::TAG),
        ("Oid", <Oid<'_> as Tagged>::TAG),
        ("UtcTime", <UtcTime as Tagged>::TAG),
        ("GeneralizedTime", <GeneralizedTime as Tagged>::TAG),
        ("u8", <u8 as Tagged>::TAG),
        ("u16", <u16 as Tagged>::TAG),
        ("u32", <u32 as Tagged>::TAG),
        ("u64", <u64 as Tagged>::TAG),
        ("u128", <u128 as Tagged>::TAG),
        ("i8", <i8 as Tagged>::TAG),
        ("i16", <i16 as Tagged>::TAG),
        ("i32", <i32 as Tagged>::TAG),
        ("i64", <i64 as Tagged>::TAG),
        ("i128", <i128 as Tagged>::TAG),
    ];
    match found(&table, name) {
        Some(tag) => Some(tag),
        None => of_text(name),
    }
}

/// The same of texts and containers.
fn of_text(name: &str) -> Option<Tag> {
    let table = [
        ("Utf8String", <Utf8String<'_> as Tagged>::TAG),
        ("NumericString", <NumericString<'_> as Tagged>::TAG),
        ("PrintableString", <PrintableString<'_> as Tagged>::TAG),
        ("Ia5String", <Ia5String<'_> as Tagged>::TAG),
        ("VisibleString", <VisibleString<'_> as Tagged>::TAG),
        ("TeletexString", <TeletexString<'_> as Tagged>::TAG),
        ("VideotexString", <VideotexString<'_> as Tagged>::TAG),
        ("GraphicString", <GraphicString<'_> as Tagged>::TAG),
        ("GeneralString", <GeneralString<'_> as Tagged>::TAG),
        ("ObjectDescriptor", <ObjectDescriptor<'_> as Tagged>::TAG),
        ("BmpString", <BmpString as Tagged>::TAG),
        ("UniversalString", <UniversalString as Tagged>::TAG),
        ("Sequence", <Sequence<'_> as Tagged>::TAG),
        ("Set", <Set<'_> as Tagged>::TAG),
        ("Vec<u32>", <Vec<u32> as Tagged>::TAG),
        ("SequenceOf<u32>", <SequenceOf<u32> as Tagged>::TAG),
        ("SetOf<u32>", <SetOf<u32> as Tagged>::TAG),
    ];
    found(&table, name)
}
