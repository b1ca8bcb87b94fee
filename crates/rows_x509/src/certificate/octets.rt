//! Calls on octets that are no whole value, or with a word of their own.

use crate::certificate::certificates::{add_extension_among, add_serial, add_version_at, counted};
use crate::certificate::keys::add_exponent;
use crate::certificate::names::{add_as_slice, add_as_str};
use crate::certificate::objects::add_name_of;
use crate::certificate::times::{
    add_from_timestamp, add_is_valid_at, add_next_update, add_time_left,
};
use crate::kinds::OnOctets;
use crate::list::lists::counted_list;
use crate::row::Asked;
use rows_hex::Added;

/// Adds what the call answers.
pub(crate) fn add_on_octets(text: &mut String, call: OnOctets, asked: &Asked<'_>) -> Added {
    let octets = asked.octets;
    match call {
        OnOctets::FormatSerial => add_serial(text, octets),
        OnOctets::CertificateHeaders => text.push_str(counted(*text.allocator(), octets)),
        OnOctets::ListHeaders => text.push_str(counted_list(*text.allocator(), octets)),
        OnOctets::NextUpdate => add_next_update(text, octets),
        OnOctets::NextVersion => add_version_at(text, octets),
        OnOctets::ShortName | OnOctets::Description | OnOctets::Abbreviation => {
            add_name_of(text, call, octets)
        }
        OnOctets::AsStr => add_as_str(text, octets),
        OnOctets::AsSlice => add_as_slice(text, octets),
        OnOctets::TryExponent => add_exponent(text, octets),
        _ => add_with_word(text, call, asked.word, octets),
    }
}

/// The same of calls that take a word.
fn add_with_word(text: &mut String, call: OnOctets, word: &str, octets: &[u8]) -> Added {
    match call {
        OnOctets::FromTimestamp => add_from_timestamp(text, word),
        OnOctets::IsValidAt => add_is_valid_at(text, word, octets),
        OnOctets::TimeToExpiration => add_time_left(text, word, octets),
        OnOctets::FindExtension => add_extension_among(text, false, word, octets),
        _ => add_extension_among(text, true, word, octets),
    }
}
