//! The fields of a certificate and of a list, a line each.

use crate::parts::{Words, add, add_line};
use cert_model::fields::{BitField, CertFields, EntryFields, ExtField, ListFields};
use rows_hex::{Added, add_hex};

/// Adds `certificate`, and its fields in the order in which they are written.
pub(crate) fn add_certificate(text: &mut String, fields: &CertFields<'_>) -> Added {
    write!(text, "certificate\n  version {}\n  serial ", fields.version)?;
    add_hex(text, fields.serial)?;
    add(text, "signature", &fields.signature)?;
    add(text, "issuer", &fields.issuer)?;
    add(text, "not before", &fields.not_before)?;
    add(text, "not after", &fields.not_after)?;
    add(text, "subject", &fields.subject)?;
    add(text, "key algorithm", &fields.key.algorithm)?;
    add(text, "key", &fields.key.key)?;
    add_identifier(text, "issuer id", &fields.issuer_id)?;
    add_identifier(text, "subject id", &fields.subject_id)?;
    add_extensions(text, "extension", fields.extensions.as_slice())?;
    add(text, "algorithm", &fields.algorithm)?;
    add(text, "signature value", &fields.signature_value)
}

/// Adds `list`, and its fields in the order in which they are written.
pub(crate) fn add_list(text: &mut String, fields: &ListFields<'_>) -> Added {
    text.push_str("list")?;
    if let Some(version) = fields.version {
        write!(text, "\n  version {version}")?;
    }
    add(text, "signature", &fields.signature)?;
    add(text, "issuer", &fields.issuer)?;
    add(text, "this update", &fields.this_update)?;
    if let Some(date) = &fields.next_update {
        add(text, "next update", date)?;
    }
    add_entries(text, &fields.entries)?;
    add_extensions(text, "extension", fields.extensions.as_slice())?;
    add(text, "algorithm", &fields.algorithm)?;
    add(text, "signature value", &fields.signature_value)
}

fn add_entries(text: &mut String, entries: &[EntryFields<'_>]) -> Added {
    for entry in entries {
        add_entry(text, entry)?;
    }
    Ok(())
}

/// Adds an entry in one line, its extensions below it.
fn add_entry(text: &mut String, entry: &EntryFields<'_>) -> Added {
    add_line(text, "entry")?;
    add_hex(text, entry.serial)?;
    text.push_str(", ")?;
    entry.date.add_words(text)?;
    add_extensions(text, "entry extension", entry.extensions.as_slice())
}

/// Adds a line for each extension.
fn add_extensions(text: &mut String, name: &str, extensions: &[ExtField<'_>]) -> Added {
    for extension in extensions {
        add(text, name, extension)?;
    }
    Ok(())
}

/// Adds a line for bits that stand.
fn add_identifier(text: &mut String, name: &str, bits: &Option<BitField<'_>>) -> Added {
    match bits {
        Some(bits) => add(text, name, bits),
        None => Ok(()),
    }
}
