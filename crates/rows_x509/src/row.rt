//! A row, taken to its call.

use crate::called::add_of_kind;
use crate::kinds::Kind;
use crate::tables::{Group, kind_of, table_of};
use rows_hex::{Added, octets_of};
use std::alloc::Global;

/// A row: its call, the word behind the call's name, if any, and its octets.
#[derive(Clone, Copy)]
pub(crate) struct Asked<'r> {
    /// What its call is on.
    pub kind: Kind,
    /// The word behind a colon; of a call on words all that stands behind the call.
    pub word: &'r str,
    /// Whether a refusal of the octets is told, and not that there is no such value alone.
    pub is_read: bool,
    /// The octets.
    pub octets: &'r [u8],
}

/// Adds what the call of the row answers.
pub(crate) fn add_row(text: &mut String, line: &str) -> Added {
    let (group, row) = line.split_once(' ').unwrap_or((line, ""));
    let (call, words) = row.split_once(' ').unwrap_or((row, ""));
    match table_of(group) {
        Some(group) => add_of_group(text, group, call, words),
        None => text.push_str("no group"),
    }
}

fn add_of_group(text: &mut String, group: Group, call: &str, words: &str) -> Added {
    let (name, word) = call.split_once(':').unwrap_or((call, words));
    let asked = Asked {
        kind: kind_of(group, name),
        word,
        is_read: matches!(group, Group::Certificate | Group::List | Group::Value),
        octets: &[],
    };
    match asked.kind {
        Kind::Words(_) => add_of_kind(text, &asked),
        _ => add_spelled(text, &asked, words),
    }
}

/// Adds what the call answers of the octets that the digits spell.
fn add_spelled(text: &mut String, asked: &Asked<'_>, digits: &str) -> Added {
    let alloc: Global = *text.allocator();
    match octets_of(alloc, digits)? {
        Some(octets) => add_on_octets(text, asked, &octets),
        None => text.push_str("no octets"),
    }
}

fn add_on_octets(text: &mut String, asked: &Asked<'_>, octets: &[u8]) -> Added {
    let asked = Asked {
        kind: asked.kind,
        word: asked.word,
        is_read: asked.is_read,
        octets,
    };
    add_of_kind(text, &asked)
}
