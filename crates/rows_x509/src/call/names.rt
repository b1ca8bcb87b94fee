//! Names as text.

use crate::words::had;
use asn1_any::Any;
use asn1_core::{OutOfMemory, Tag};
use asn1_oid::Oid;
use rows_hex::Added;
use std::alloc::Global;
use std::str::Split;
use x509_ext_names::SubjectAlternativeName;
use x509_names::{AttributeTypeAndValue, RelativeDistinguishedName, X509Name};
use x509_objects::{OidEntry, OidRegistry, oid_registry};

/// Adds the name, its types named by a registry that knows 1.2.3 as `own` too.
pub(crate) fn add_registered(text: &mut String, name: &X509Name<'_>) -> Added {
    let alloc = *text.allocator();
    let registry = had(own_registry(alloc))?;
    match name.to_string_with_registry(alloc, &registry) {
        Ok(shown) => text.push_str(&shown),
        Err(_) => text.push_str("refused"),
    }
}

fn own_registry(alloc: Global) -> Result<OidRegistry, OutOfMemory> {
    let mut registry = oid_registry(alloc)?;
    let own = OidEntry::new("own", "one of one's own");
    registry.insert(alloc, Oid::new(b"\x2a\x03"), own)?;
    Ok(registry)
}

/// Adds the names of an alternative name, each behind a blank.
pub(crate) fn add_general(text: &mut String, names: &SubjectAlternativeName<'_>) -> Added {
    text.push_str("names")?;
    for name in names.general_names.iter() {
        write!(text, " {name}")?;
    }
    Ok(())
}

/// Adds a name of five attributes: country, state, organization, and two common names in one set; their texts are the words, which a
/// bar divides.
pub(crate) fn add_built_name(text: &mut String, words: &str) -> Added {
    let alloc = *text.allocator();
    let name = had(built_name(alloc, words))?;
    write!(text, "{name}")
}

fn built_name<'a>(alloc: Global, words: &'a str) -> Result<X509Name<'a>, OutOfMemory> {
    let sets = sets_of(alloc, words)?;
    X509Name::try_from_iter(alloc, sets.into_iter())
}

/// The sets of such a name.
fn sets_of<'a>(
    alloc: Global,
    words: &'a str,
) -> Result<Vec<RelativeDistinguishedName<'a>>, OutOfMemory> {
    let mut sets = Vec::new(alloc);
    let mut words = words.split('|');
    add_sets(alloc, &mut words, &mut sets)?;
    sets.push(common_names(alloc, words)?)?;
    Ok(sets)
}

/// Adds a set for each of the first three words.
fn add_sets<'a>(
    alloc: Global,
    words: &mut Split<'a, char>,
    sets: &mut Vec<RelativeDistinguishedName<'a>>,
) -> Result<(), OutOfMemory> {
    for attr_type in [
        b"\x55\x04\x06".as_slice(),
        b"\x55\x04\x08".as_slice(),
        b"\x55\x04\x0a".as_slice(),
    ] {
        if let Some(word) = words.next() {
            sets.push(set_of(alloc, attr_type, word)?)?;
        }
    }
    Ok(())
}

/// The set of all other words.
fn common_names<'a>(
    alloc: Global,
    words: Split<'a, char>,
) -> Result<RelativeDistinguishedName<'a>, OutOfMemory> {
    let mut names = Vec::new(alloc);
    for word in words {
        names.push(attribute(b"\x55\x04\x03", word))?;
    }
    RelativeDistinguishedName::try_from_iter(alloc, names.into_iter())
}

/// A set of one attribute.
fn set_of<'a>(
    alloc: Global,
    attr_type: &'a [u8],
    word: &'a str,
) -> Result<RelativeDistinguishedName<'a>, OutOfMemory> {
    let mut set = Vec::new(alloc);
    set.push(attribute(attr_type, word))?;
    Ok(RelativeDistinguishedName::new(set))
}

/// An attribute whose value is the word as a PrintableString.
fn attribute<'a>(attr_type: &'a [u8], word: &'a str) -> AttributeTypeAndValue<'a> {
    let value = Any::from_tag_and_data(Tag::PrintableString, word.as_bytes());
    AttributeTypeAndValue::new(Oid::new(attr_type), value)
}
