//! The types of one value: of the language, and of ASN.1.

use crate::lists::{List, add_list};
use crate::tagged::{Tagged, add_tagged};
use crate::texts::{Text, add_text};
use crate::words::{Call, add_words};
use asn1_rs::{
    BitString, Boolean, Enumerated, GeneralizedTime, Integer, Null, OctetString, Oid, UtcTime,
};
use rows_hex::{Added, found};

/// A type of values.
#[derive(Clone, Copy)]
enum Type {
    Value(Value),
    Number(Number),
    List(List),
    Text(Text),
    Tagged(Tagged),
}

/// A type of one value.
#[derive(Clone, Copy)]
enum Value {
    Bool,
    Unit,
    Octets,
    Str,
    String,
    Boolean,
    Integer,
    Enumerated,
    Null,
    BitString,
    OctetString,
    Oid,
    UtcTime,
    GeneralizedTime,
}

/// A machine integer.
#[derive(Clone, Copy)]
enum Number {
    U8,
    U16,
    U32,
    U64,
    U128,
    I8,
    I16,
    I32,
    I64,
    I128,
}

const TYPES: [(&str, Type); 65] = [
    ("bool", Type::Value(Value::Bool)),
    ("unit", Type::Value(Value::Unit)),
    ("octets", Type::Value(Value::Octets)),
    ("str", Type::Value(Value::Str)),
    ("String", Type::Value(Value::String)),
    ("Boolean", Type::Value(Value::Boolean)),
    ("Integer", Type::Value(Value::Integer)),
    ("Enumerated", Type::Value(Value::Enumerated)),
    ("Null", Type::Value(Value::Null)),
    ("BitString", Type::Value(Value::BitString)),
    ("OctetString", Type::Value(Value::OctetString)),
    ("Oid", Type::Value(Value::Oid)),
    ("UtcTime", Type::Value(Value::UtcTime)),
    ("GeneralizedTime", Type::Value(Value::GeneralizedTime)),
    ("u8", Type::Number(Number::U8)),
    ("u16", Type::Number(Number::U16)),
    ("u32", Type::Number(Number::U32)),
    ("u64", Type::Number(Number::U64)),
    ("u128", Type::Number(Number::U128)),
    ("i8", Type::Number(Number::I8)),
    ("i16", Type::Number(Number::I16)),
    ("i32", Type::Number(Number::I32)),
    ("i64", Type::Number(Number::I64)),
    ("i128", Type::Number(Number::I128)),
    ("BmpString", Type::List(List::BmpString)),
    ("UniversalString", Type::List(List::UniversalString)),
    ("Sequence", Type::List(List::Sequence)),
    ("Set", Type::List(List::Set)),
    ("Vec<u32>", Type::List(List::Vec)),
    ("SequenceOf<u32>", Type::List(List::SequenceOf)),
    ("SetOf<u32>", Type::List(List::SetOf)),
    ("SetOf<OctetString>", Type::List(List::SetOfOctets)),
    ("SetOf<SetOf<u32>>", Type::List(List::SetOfSets)),
    ("Vec<Vec<bool>>", Type::List(List::VecOfVecs)),
    ("Vec<Option<u32>>", Type::List(List::VecOfOptions)),
    (
        "SequenceOf<Option<bool>>",
        Type::List(List::SequenceOfOptions),
    ),
    ("SetOf<Option<bool>>", Type::List(List::SetOfOptions)),
    ("Option<u8>", Type::List(List::Option)),
    ("Utf8String", Type::Text(Text::Utf8)),
    ("NumericString", Type::Text(Text::Numeric)),
    ("PrintableString", Type::Text(Text::Printable)),
    ("Ia5String", Type::Text(Text::Ia5)),
    ("VisibleString", Type::Text(Text::Visible)),
    ("TeletexString", Type::Text(Text::Teletex)),
    ("VideotexString", Type::Text(Text::Videotex)),
    ("GraphicString", Type::Text(Text::Graphic)),
    ("GeneralString", Type::Text(Text::General)),
    ("ObjectDescriptor", Type::Text(Text::Descriptor)),
    ("TaggedExplicit<u8,0>", Type::Tagged(Tagged::TaggedExplicit)),
    ("TaggedImplicit<u8,0>", Type::Tagged(Tagged::TaggedImplicit)),
    ("TaggedImplicit<Vec<u8>,1>", Type::Tagged(Tagged::TaggedVec)),
    ("OptTaggedExplicit<u8,0>", Type::Tagged(Tagged::OptExplicit)),
    ("OptTaggedImplicit<u8,0>", Type::Tagged(Tagged::OptImplicit)),
    (
        "ApplicationExplicit<bool,30>",
        Type::Tagged(Tagged::ApplicationExplicit),
    ),
    (
        "ApplicationImplicit<bool,31>",
        Type::Tagged(Tagged::ApplicationImplicit),
    ),
    (
        "PrivateExplicit<bool,31>",
        Type::Tagged(Tagged::PrivateExplicit),
    ),
    (
        "PrivateImplicit<bool,4294967295>",
        Type::Tagged(Tagged::PrivateImplicit),
    ),
    (
        "TaggedValue<bool,Explicit,0,5>",
        Type::Tagged(Tagged::UniversalValue),
    ),
    (
        "TaggedValue<u8,Explicit,4,0>",
        Type::Tagged(Tagged::ExplicitValue),
    ),
    (
        "TaggedValue<u8,Implicit,4,0>",
        Type::Tagged(Tagged::ImplicitValue),
    ),
    (
        "TaggedExplicit<TaggedExplicit<u8,1>,0>",
        Type::Tagged(Tagged::BehindBehind),
    ),
    (
        "TaggedExplicit<TaggedImplicit<u8,1>,0>",
        Type::Tagged(Tagged::BehindInPlace),
    ),
    (
        "TaggedImplicit<TaggedExplicit<u8,1>,0>",
        Type::Tagged(Tagged::InPlaceBehind),
    ),
    (
        "TaggedImplicit<TaggedImplicit<u8,1>,0>",
        Type::Tagged(Tagged::InPlaceInPlace),
    ),
    (
        "ApplicationImplicit<TaggedImplicit<u8,1>,0>",
        Type::Tagged(Tagged::ApplicationInPlace),
    ),
];

/// Adds what the octets are at the type of this name.
pub(crate) fn add_typed(text: &mut String, call: Call, name: &str, octets: &[u8]) -> Added {
    match found(&TYPES, name) {
        Some(Type::Value(value)) => add_value(text, call, value, octets),
        Some(Type::Number(number)) => add_number(text, call, number, octets),
        Some(Type::List(list)) => add_list(text, call, list, octets),
        Some(Type::Text(kind)) => add_text(text, call, kind, octets),
        Some(Type::Tagged(tagged)) => add_tagged(text, call, tagged, octets),
        None => text.push_str("no kind"),
    }
}

fn add_value(text: &mut String, call: Call, value: Value, octets: &[u8]) -> Added {
    match value {
        Value::Bool => add_words::<bool>(text, call, octets),
        Value::Unit => add_words::<()>(text, call, octets),
        Value::Octets => add_words::<&[u8]>(text, call, octets),
        Value::Str => add_words::<&str>(text, call, octets),
        Value::String => add_words::<String>(text, call, octets),
        Value::Boolean => add_words::<Boolean>(text, call, octets),
        Value::Integer => add_words::<Integer<'_>>(text, call, octets),
        _ => add_other_value(text, call, value, octets),
    }
}

fn add_other_value(text: &mut String, call: Call, value: Value, octets: &[u8]) -> Added {
    match value {
        Value::Enumerated => add_words::<Enumerated>(text, call, octets),
        Value::Null => add_words::<Null>(text, call, octets),
        Value::BitString => add_words::<BitString<'_>>(text, call, octets),
        Value::OctetString => add_words::<OctetString<'_>>(text, call, octets),
        Value::Oid => add_words::<Oid<'_>>(text, call, octets),
        Value::UtcTime => add_words::<UtcTime>(text, call, octets),
        _ => add_words::<GeneralizedTime>(text, call, octets),
    }
}

fn add_number(text: &mut String, call: Call, number: Number, octets: &[u8]) -> Added {
    match number {
        Number::U8 => add_words::<u8>(text, call, octets),
        Number::U16 => add_words::<u16>(text, call, octets),
        Number::U32 => add_words::<u32>(text, call, octets),
        Number::U64 => add_words::<u64>(text, call, octets),
        Number::U128 => add_words::<u128>(text, call, octets),
        Number::I8 => add_words::<i8>(text, call, octets),
        Number::I16 => add_words::<i16>(text, call, octets),
        Number::I32 => add_words::<i32>(text, call, octets),
        Number::I64 => add_words::<i64>(text, call, octets),
        Number::I128 => add_words::<i128>(text, call, octets),
    }
}
