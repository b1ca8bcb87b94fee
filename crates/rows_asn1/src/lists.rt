//! Texts, containers, and values that may be absent.

use crate::words::{Call, add_words};
use asn1_rs::{BmpString, OctetString, Sequence, SequenceOf, Set, SetOf, UniversalString};
use rows_hex::Added;

/// A type of lists, texts of wide characters, or values that may be absent.
#[derive(Clone, Copy)]
pub(crate) enum List {
    BmpString,
    UniversalString,
    Sequence,
    Set,
    Vec,
    SequenceOf,
    SetOf,
    SetOfOctets,
    SetOfSets,
    VecOfVecs,
    VecOfOptions,
    SequenceOfOptions,
    SetOfOptions,
    Option,
}

/// Adds what the octets are at the type.
pub(crate) fn add_list(text: &mut String, call: Call, list: List, octets: &[u8]) -> Added {
    match list {
        List::BmpString => add_words::<BmpString>(text, call, octets),
        List::UniversalString => add_words::<UniversalString>(text, call, octets),
        List::Sequence => add_words::<Sequence<'_>>(text, call, octets),
        List::Set => add_words::<Set<'_>>(text, call, octets),
        List::Vec => add_words::<Vec<u32>>(text, call, octets),
        List::SequenceOf => add_words::<SequenceOf<u32>>(text, call, octets),
        List::SetOf => add_words::<SetOf<u32>>(text, call, octets),
        _ => add_other_list(text, call, list, octets),
    }
}

fn add_other_list(text: &mut String, call: Call, list: List, octets: &[u8]) -> Added {
    match list {
        List::SetOfOctets => add_words::<SetOf<OctetString<'_>>>(text, call, octets),
        List::SetOfSets => add_words::<SetOf<SetOf<u32>>>(text, call, octets),
        List::VecOfVecs => add_words::<Vec<Vec<bool>>>(text, call, octets),
        List::VecOfOptions => add_words::<Vec<Option<u32>>>(text, call, octets),
        List::SequenceOfOptions => add_words::<SequenceOf<Option<bool>>>(text, call, octets),
        List::SetOfOptions => add_words::<SetOf<Option<bool>>>(text, call, octets),
        _ => add_words::<Option<u8>>(text, call, octets),
    }
}
