//! Contents of integers, and the numbers that they spell.

use asn1_rs::Integer;
use rows_hex::{Added, add_debug, found};

/// What an integer is as.
#[derive(Clone, Copy)]
enum Number {
    U8,
    U16,
    U32,
    U64,
    U128,
    Unsigned,
    I8,
    I16,
    I32,
    I64,
    I128,
    Negative,
}

const NUMBERS: [(&str, Number); 12] = [
    ("u8", Number::U8),
    ("u16", Number::U16),
    ("u32", Number::U32),
    ("u64", Number::U64),
    ("u128", Number::U128),
    ("unsigned", Number::Unsigned),
    ("i8", Number::I8),
    ("i16", Number::I16),
    ("i32", Number::I32),
    ("i64", Number::I64),
    ("i128", Number::I128),
    ("negative", Number::Negative),
];

/// Adds what the integer of this content is as the number of this name.
pub(crate) fn add_integer(text: &mut String, name: &str, content: &[u8]) -> Added {
    let integer = Integer::new(content);
    match found(&NUMBERS, name) {
        Some(number) => add_number(text, number, &integer),
        None => text.push_str("no kind"),
    }
}

fn add_number(text: &mut String, number: Number, integer: &Integer<'_>) -> Added {
    match number {
        Number::U8 => add_debug(text, &integer.as_u8()),
        Number::U16 => add_debug(text, &integer.as_u16()),
        Number::U32 => add_debug(text, &integer.as_u32()),
        Number::U64 => add_debug(text, &integer.as_u64()),
        Number::U128 => add_debug(text, &integer.as_u128()),
        Number::Unsigned => add_debug(text, &integer.as_unsigned()),
        Number::Negative => add_debug(text, &integer.is_negative()),
        _ => add_signed(text, number, integer),
    }
}

fn add_signed(text: &mut String, number: Number, integer: &Integer<'_>) -> Added {
    match number {
        Number::I8 => add_debug(text, &integer.as_i8()),
        Number::I16 => add_debug(text, &integer.as_i16()),
        Number::I32 => add_debug(text, &integer.as_i32()),
        Number::I64 => add_debug(text, &integer.as_i64()),
        _ => add_debug(text, &integer.as_i128()),
    }
}
