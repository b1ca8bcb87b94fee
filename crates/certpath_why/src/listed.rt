//! Lists of names, bounded in number and length.

ghost use Rattle.std.specs.Prelude.{◌≡◌, ◌-◌, ◌++◌, ℕ, List, take, codes, OnOk, string_bytes};
ghost use Rattle.std.specs.List.{flat_map};
ghost use Rattle.certpath_why.specs.Listed.{listed_octet, dots_for, shown_part, more_words, listed};

use crate::names::{push_octet, push_pair};
use asn1_core::OutOfMemory;
use std::alloc::{AllocError, Global};

/// So many names a line has at most, after the first.
const MOST_OTHERS: usize = 19;

/// So many octets of a name are shown at most.
const MOST_OCTETS: usize = 253;

/// A name in a list.
pub(crate) trait Part {
    /// Its text.
    ghost text_of: { Self → List ℕ };

    /// Appends its text, escaped and bounded. The only error is out of memory.
    fn push_shown(&self, text: &mut String, alloc: Global) -> Result<(), OutOfMemory>
        ensures { OnOk result (string_bytes text.new ≡ string_bytes text.old ++ shown_part (text_of self.now)) };
}

/// Appends an octet of a name, with commas escaped too.
fn push_listed_octet(text: &mut String, octet: u8) -> Result<(), AllocError>
    ensures { OnOk result (string_bytes text.new ≡ string_bytes text.old ++ listed_octet octet) }
{
    if octet == b',' {
        text.push('\\')?;
        push_pair(text, octet)
    } else {
        push_octet(text, octet)
    }
}

/// Appends octets of a name, with commas escaped too.
fn push_listed_octets(text: &mut String, octets: &[u8]) -> Result<(), AllocError>
    ensures { OnOk result (string_bytes text.new ≡ string_bytes text.old ++ flat_map listed_octet octets.now) }
{
    for octet in octets {
        push_listed_octet(text, *octet)?;
    }
    Ok(())
}

/// The first so many.
pub(crate) fn front_of<T>(all: &[T], most: usize) -> &[T]
    ensures { result.now ≡ take most all.now }
{
    if all.len() <= most { all } else { &all[..most] }
}

/// Appends dots for the octets of a name that are left out.
fn push_dots(text: &mut String, name: &[u8]) -> Result<(), AllocError>
    ensures { OnOk result (string_bytes text.new ≡ string_bytes text.old ++ dots_for name.now) }
{
    if name.len() > MOST_OCTETS {
        text.push_str("...")?;
    }
    Ok(())
}

/// Appends a name, escaped and bounded.
pub(crate) fn push_part(text: &mut String, name: &[u8]) -> Result<(), AllocError>
    ensures { OnOk result (string_bytes text.new ≡ string_bytes text.old ++ shown_part name.now) }
{
    push_listed_octets(text, front_of(name, MOST_OCTETS))?;
    push_dots(text, name)
}

/// Appends names, each after a comma.
pub(crate) fn push_others<P: Part>(
    text: &mut String,
    alloc: Global,
    parts: &[P],
) -> Result<(), OutOfMemory>
    ensures { OnOk result (string_bytes text.new ≡ string_bytes text.old ++ flat_map (λ y. codes ", " ++ shown_part (P.text_of y)) parts.now) }
{
    for part in parts {
        text.push_str(", ")?;
        part.push_shown(text, alloc)?;
    }
    Ok(())
}

/// Appends how many names are left out.
pub(crate) fn push_more(text: &mut String, count: usize) -> Result<(), AllocError>
    ensures { OnOk result (string_bytes text.new ≡ string_bytes text.old ++ more_words count) }
{
    if count == 0 {
        return Ok(());
    }
    write!(text, " and {count} more")
}

/// Appends the first 20 names, and how many follow.
pub(crate) fn push_list<P: Part>(
    text: &mut String,
    alloc: Global,
    parts: &[P],
) -> Result<(), OutOfMemory>
    ensures { OnOk result (string_bytes text.new ≡ string_bytes text.old ++ listed P.text_of parts.now) }
{
    let Some((first, rest)) = parts.split_first() else {
        return Ok(());
    };
    first.push_shown(text, alloc)?;
    push_others(text, alloc, front_of(rest, MOST_OTHERS))?;
    push_more(text, rest.len().saturating_sub(MOST_OTHERS))?;
    Ok(())
}
