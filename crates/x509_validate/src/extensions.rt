//! Messages of extensions (RFC 5280, 4.2).

ghost use Rattle.std.specs.Prelude.{◌≡◌, ◌++◌, IfOk, OnOk, map, codes};
ghost use Rattle.asn1_oid.specs.Text.{oid_text};
ghost use Rattle.x509_validate.specs.Messages as messages;
ghost use Rattle.x509_validate.specs.Extensions.{refused_text, extension_messages, each_extension, text_messages, general_name_messages, general_names_messages, alternative_messages, each_alternative};
ghost use Rattle.x509_validate.specs.View.{message_view};

use crate::message::{Message, Weight};
use crate::name::has_high;
use asn1_core::{Err as Refusal, Error};
use asn1_oid::Oid;
use std::alloc::{AllocError, Global};
use x509_certs::{ParsedExtension, X509Extension};
use x509_ext_names::GeneralName;

fn unsupported(alloc: Global, oid: &Oid<'_>) -> Result<Message, AllocError>
    ensures { IfOk result (λ m. message_view m ≡ messages.message messages.warning (codes "Unsupported extension " ++ oid_text oid.now)) }
{
    let mut text = String::new(alloc);
    write!(text, "Unsupported extension {oid}")?;
    Ok(Message {
        weight: Weight::Warning,
        text,
    })
}

#[tactic(auto, using(crate::proofs::Refused::written))]
fn unreadable(alloc: Global, oid: &Oid<'_>, error: &Refusal<Error>) -> Result<Message, AllocError>
    ensures { IfOk result (λ m. message_view m ≡ messages.message messages.fatal ((codes "Parse error in extension " ++ oid_text oid.now) ++ (codes ": " ++ refused_text error.now))) }
{
    let mut text = String::new(alloc);
    write!(text, "Parse error in extension {oid}")?;
    write!(text, ": {error}")?;
    Ok(Message {
        weight: Weight::Fatal,
        text,
    })
}

fn push_extension(
    alloc: Global,
    extension: &X509Extension<'_>,
    said: &mut Vec<Message>,
) -> Result<(), AllocError>
    ensures { OnOk result (map message_view said.new.items ≡ map message_view said.old.items ++ extension_messages extension.now) }
{
    match extension.parsed_extension() {
        ParsedExtension::UnsupportedExtension { .. } => {
            said.push(unsupported(alloc, &extension.oid)?)?;
            Ok(())
        }
        ParsedExtension::ParseError { error } => {
            said.push(unreadable(alloc, &extension.oid, error)?)?;
            Ok(())
        }
        _ => Ok(()),
    }
}

/// Adds the messages of each extension by itself.
pub(crate) fn push_extensions(
    alloc: Global,
    extensions: &[X509Extension<'_>],
    said: &mut Vec<Message>,
) -> Result<(), AllocError>
    ensures { OnOk result (map message_view said.new.items ≡ map message_view said.old.items ++ each_extension extensions.now) }
{
    for extension in extensions {
        push_extension(alloc, extension, said)?;
    }
    Ok(())
}

fn foreign_entry(alloc: Global, entry: &str) -> Result<Message, AllocError>
    ensures { IfOk result (λ m. message_view m ≡ messages.message messages.warning ((codes "Invalid charset in 'SAN' entry '" ++ entry.now) ++ codes "'")) }
{
    let mut text = String::new(alloc);
    write!(text, "Invalid charset in 'SAN' entry '{entry}'")?;
    Ok(Message {
        weight: Weight::Warning,
        text,
    })
}

fn push_entry(alloc: Global, entry: &str, said: &mut Vec<Message>) -> Result<(), AllocError>
    ensures { OnOk result (map message_view said.new.items ≡ map message_view said.old.items ++ text_messages entry.now) }
{
    if has_high(entry.as_bytes()) {
        said.push(foreign_entry(alloc, entry)?)?;
    }
    Ok(())
}

fn push_general_name(
    alloc: Global,
    name: &GeneralName<'_>,
    said: &mut Vec<Message>,
) -> Result<(), AllocError>
    ensures { OnOk result (map message_view said.new.items ≡ map message_view said.old.items ++ general_name_messages name.now) }
{
    match name {
        GeneralName::RFC822Name(text) => push_entry(alloc, text, said),
        GeneralName::DNSName(text) => push_entry(alloc, text, said),
        _ => Ok(()),
    }
}

fn push_general_names(
    alloc: Global,
    names: &[GeneralName<'_>],
    said: &mut Vec<Message>,
) -> Result<(), AllocError>
    ensures { OnOk result (map message_view said.new.items ≡ map message_view said.old.items ++ general_names_messages names.now) }
{
    for name in names {
        push_general_name(alloc, name, said)?;
    }
    Ok(())
}

pub(crate) fn push_alternative(
    alloc: Global,
    parsed: &ParsedExtension<'_>,
    said: &mut Vec<Message>,
) -> Result<(), AllocError>
    ensures { OnOk result (map message_view said.new.items ≡ map message_view said.old.items ++ alternative_messages parsed.now) }
{
    match parsed {
        ParsedExtension::SubjectAlternativeName(names) => push_general_names(
            alloc,
            &names.general_names,
            said,
        ),
        _ => Ok(()),
    }
}

/// Adds the messages of the subject's alternative names.
pub(crate) fn push_alternatives(
    alloc: Global,
    extensions: &[X509Extension<'_>],
    said: &mut Vec<Message>,
) -> Result<(), AllocError>
    ensures { OnOk result (map message_view said.new.items ≡ map message_view said.old.items ++ each_alternative extensions.now) }
{
    for extension in extensions {
        push_alternative(alloc, extension.parsed_extension(), said)?;
    }
    Ok(())
}
