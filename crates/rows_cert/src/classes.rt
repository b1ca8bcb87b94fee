//! Items, their classes, and what is asked of them.

use crate::attempts::{bounds_of, is_within};
use crate::fields::{add_certificate, add_list};
use asn1_core::SerializeResult;
use asn1_device::WriteSink;
use certcheck::{CertFields, ItemClass, ListFields, OutOfMemory, read_tree};
use certpath_rebuild::{rebuild_certificate, rebuild_list};
use certpath_typed::read_typed;
use rows_hex::{Added, add_hex};
use std::alloc::{AllocError, Global};

/// Adds what there is to tell of an item, where both readers find one class.
pub(crate) fn add_item(text: &mut String, question: Option<&str>, item: &[u8]) -> Added {
    match class_of(*text.allocator(), item)? {
        Some(class) => add_asked(text, question, class, item),
        None => text.push_str("two classes"),
    }
}

/// The class that both readers find.
fn class_of<'a>(alloc: Global, item: &'a [u8]) -> Result<Option<ItemClass<'a>>, AllocError> {
    let Ok(class) = read_tree(alloc, item) else {
        return Err(AllocError);
    };
    if is_typed_so(alloc, &class, item)? {
        Ok(Some(class))
    } else {
        Ok(None)
    }
}

/// Whether `read_typed` finds this class too.
fn is_typed_so(alloc: Global, class: &ItemClass<'_>, item: &[u8]) -> Result<bool, AllocError> {
    match read_typed(alloc, item) {
        Ok(typed) => Ok(typed == *class),
        Err(OutOfMemory) => Err(AllocError),
    }
}

/// Adds what is asked: the fields, key identifiers, whether a reader keeps to its bounds, or whether the fields are in range with
/// another version.
fn add_asked(
    text: &mut String,
    question: Option<&str>,
    class: ItemClass<'_>,
    item: &[u8],
) -> Added {
    match question {
        None => add_class(text, &class, item),
        Some("keys") => add_keys(text, &class),
        Some(question) => match bounds_of(question) {
            Some(bounds) => add_truth(text, is_within(*text.allocator(), &bounds, item)?),
            None => text.push_str(range_text(class, number_of(question))),
        },
    }
}

fn add_truth(text: &mut String, is_within: bool) -> Added {
    text.push_str(if is_within { "within" } else { "without" })
}

/// Adds the class of an item, with its fields.
fn add_class(text: &mut String, class: &ItemClass<'_>, item: &[u8]) -> Added {
    let mut writer = WriteSink::new(Vec::new(*text.allocator()));
    let answer = match class {
        ItemClass::Certificate(fields) => {
            add_certificate(text, fields)?;
            rebuild_certificate(fields, &mut writer)
        }
        ItemClass::List(fields) => {
            add_list(text, fields)?;
            rebuild_list(fields, &mut writer)
        }
        ItemClass::Other => return text.push_str("other"),
    };
    add_written(text, answer, &writer.into_inner(), item)
}

/// Adds a line of what was written of an item's fields: how many octets, and whether they are the item.
fn add_written(
    text: &mut String,
    answer: SerializeResult<usize>,
    written: &[u8],
    item: &[u8],
) -> Added {
    text.push_str("\n  written ")?;
    match answer {
        Ok(count) if written == item => write!(text, "{count}, the item"),
        Ok(_) => add_hex(text, written),
        Err(_) => text.push_str("nothing"),
    }
}

/// Adds the key identifiers of the issuer and of the subject that a certificate names.
fn add_keys(text: &mut String, class: &ItemClass<'_>) -> Added {
    let ItemClass::Certificate(fields) = class else {
        return text.push_str("no certificate");
    };
    text.push_str("authority ")?;
    add_key(text, fields.authority_key_id())?;
    text.push_str(", subject ")?;
    add_key(text, fields.subject_key_id())
}

fn add_key(text: &mut String, id: Option<&[u8]>) -> Added {
    match id {
        Some(id) => add_hex(text, id),
        None => text.push_str("absent"),
    }
}

/// Whether the fields are in range with this version.
fn range_text(class: ItemClass<'_>, version: u8) -> &'static str {
    let is_in_range = match class {
        ItemClass::Certificate(fields) => CertFields { version, ..fields }.in_range(),
        ItemClass::List(fields) => ListFields {
            version: Some(version),
            ..fields
        }
        .in_range(),
        ItemClass::Other => return "other",
    };
    if is_in_range {
        "in range"
    } else {
        "out of range"
    }
}

/// The digit's number, 255 of any other text.
fn number_of(text: &str) -> u8 {
    match text.as_bytes() {
        [digit @ b'0'..=b'9'] => *digit - b'0',
        _ => 255,
    }
}
