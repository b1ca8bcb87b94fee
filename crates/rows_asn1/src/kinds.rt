//! A row, taken to its call.

use crate::contents::add_integer;
use crate::conversions::add_meaning;
use crate::elements::{add_cut, add_element, add_fronts, add_items};
use crate::headers::add_header;
use crate::objects::add_object_by;
use crate::tags::add_tag;
use crate::trees::{add_ber, add_der, add_levels};
use crate::values::add_typed;
use crate::words::Call;
use rows_hex::{Added, found, octets_of};

/// What is done with the octets.
#[derive(Clone, Copy)]
enum Kind {
    Typed(Call),
    Tag,
    Integer,
    Meaning,
    Header,
    Element,
    Fronts,
    Cut,
    Items,
    ParseDer,
    ParseBer,
    DerLevels,
    BerLevels,
}

const KINDS: [(&str, Kind); 15] = [
    ("der", Kind::Typed(Call::Der)),
    ("ber", Kind::Typed(Call::Ber)),
    ("write", Kind::Typed(Call::Write)),
    ("tag", Kind::Tag),
    ("integer", Kind::Integer),
    ("as", Kind::Meaning),
    ("header", Kind::Header),
    ("any", Kind::Element),
    ("fronts", Kind::Fronts),
    ("cut", Kind::Cut),
    ("items", Kind::Items),
    ("parse_der", Kind::ParseDer),
    ("parse_ber", Kind::ParseBer),
    ("parse_der_recursive", Kind::DerLevels),
    ("parse_ber_recursive", Kind::BerLevels),
];

/// Adds what the octets of the row mean.
pub(crate) fn add_row(text: &mut String, row: &str) -> Added {
    let (kind, digits) = row.split_once(' ').unwrap_or((row, ""));
    let (call, name) = kind.split_once(':').unwrap_or((kind, ""));
    let alloc = *text.allocator();
    match octets_of(alloc, digits)? {
        Some(octets) => add_called(text, call, name, &octets),
        None => text.push_str("no octets"),
    }
}

fn add_called(text: &mut String, call: &str, name: &str, octets: &[u8]) -> Added {
    match found(&KINDS, call) {
        Some(kind) => add_of_kind(text, kind, name, octets),
        None => add_object_by(text, call, octets),
    }
}

/// Adds what the call answers of the octets.
fn add_of_kind(text: &mut String, kind: Kind, name: &str, octets: &[u8]) -> Added {
    match kind {
        Kind::Typed(call) => add_typed(text, call, name, octets),
        Kind::Tag => add_tag(text, name),
        Kind::Integer => add_integer(text, name, octets),
        Kind::Meaning => add_meaning(text, name, octets),
        Kind::Header => add_header(text, name, octets),
        Kind::Element => add_element(text, name, octets),
        Kind::Fronts => add_fronts(text, name, octets),
        Kind::Cut => add_cut(text, octets),
        Kind::Items => add_items(text, name, octets),
        Kind::ParseDer => add_der(text, octets),
        Kind::ParseBer => add_ber(text, octets),
        Kind::DerLevels => add_levels(text, true, name, octets),
        Kind::BerLevels => add_levels(text, false, name, octets),
    }
}
