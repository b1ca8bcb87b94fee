//! Texts of one octet a character, or UTF-8, in each of their types.

use crate::words::{Call, add_words};
use asn1_rs::charsets::{
    Descriptor, General, Graphic, Ia5, Numeric, Printable, Teletex, Utf8, Videotex, Visible,
};
use asn1_rs::{CharacterString, TestValidCharset};
use rows_hex::Added;

/// A type of texts, by its characters.
#[derive(Clone, Copy)]
pub(crate) enum Text {
    Utf8,
    Numeric,
    Printable,
    Ia5,
    Visible,
    Teletex,
    Videotex,
    Graphic,
    General,
    Descriptor,
}

/// Adds what the octets are at the type.
pub(crate) fn add_text(text: &mut String, call: Call, kind: Text, octets: &[u8]) -> Added {
    match kind {
        Text::Utf8 => add_text_of::<Utf8>(text, call, octets),
        Text::Numeric => add_text_of::<Numeric>(text, call, octets),
        Text::Printable => add_text_of::<Printable>(text, call, octets),
        Text::Ia5 => add_text_of::<Ia5>(text, call, octets),
        Text::Visible => add_text_of::<Visible>(text, call, octets),
        Text::Teletex => add_text_of::<Teletex>(text, call, octets),
        Text::Videotex => add_text_of::<Videotex>(text, call, octets),
        Text::Graphic => add_text_of::<Graphic>(text, call, octets),
        Text::General => add_text_of::<General>(text, call, octets),
        Text::Descriptor => add_text_of::<Descriptor>(text, call, octets),
    }
}

/// Adds what the octets are as a text of these characters.
fn add_text_of<C: TestValidCharset>(text: &mut String, call: Call, octets: &[u8]) -> Added {
    add_words::<CharacterString<'_, C>>(text, call, octets)
}
