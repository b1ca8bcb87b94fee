//! Names as text that is printable ASCII: what a line says of a subject or an issuer. Any other
//! octet and the backslash are escaped as `\0A`, so that no name holds a line feed.

ghost use Rattle.std.specs.Prelude.{◌≡◌, ◌++◌, ℕ, List, IfOk, OnOk, string_bytes, option_map};
ghost use Rattle.x509_names.specs.View.{name_view};
ghost use Rattle.x509_names.specs.NameTexts.{known_label, name_text};
ghost use Rattle.std.specs.List.{flat_map};
ghost use Rattle.x509_names.specs.NameTexts.{upper_pair, upper_hex};
ghost use Rattle.x509_names.specs.Reading.{name_at};
ghost use Rattle.x509_objects.specs.Registry.{entry_of};
ghost use Rattle.x509_objects.specs.Table.{known_entry};
ghost use Rattle.certpath_why.specs.Texts.{is_plain, escaped_octet, escaped, text_or_empty, whole_text, shown_name};

use asn1_core::{Err as Refusal, OutOfMemory};
use asn1_traits::FromDer;
use std::alloc::{AllocError, Global};
use x509_core::X509Error;
use x509_names::X509Name;
use x509_objects::{OidRegistry, oid_registry};

/// The control character after the printable ones of ASCII.
const DELETE: u8 = 0x7f;

/// The names of attribute types.
#[derive(Drop)]
pub(crate) struct Labels {
    registry: OidRegistry,
    ghost known: { (id : List ℕ) → entry_of registry id ≡ known_entry id },
}

impl Labels {
    /// Loads the names.
    pub(crate) fn new(alloc: Global) -> Result<Labels, OutOfMemory> {
        let registry = oid_registry(alloc)?;
        Ok(Labels { registry })
    }
}

/// Whether an octet stands for itself.
fn is_plain(octet: u8) -> bool
    ensures { result ≡ is_plain octet }
{
    octet >= b' ' && octet < DELETE && octet != b'\\'
}

/// Appends an octet as two hexadecimal digits.
#[tactic(auto, using(std::proofs::lemmas::Fmt::hex_byte))]
pub(crate) fn push_pair(text: &mut String, octet: u8) -> Result<(), AllocError>
    ensures { OnOk result (string_bytes text.new ≡ string_bytes text.old ++ upper_pair octet) }
{
    write!(text, "{octet:02X}")
}

/// Appends an octet, escaped if it doesn't stand for itself.
pub(crate) fn push_octet(text: &mut String, octet: u8) -> Result<(), AllocError>
    ensures { OnOk result (string_bytes text.new ≡ string_bytes text.old ++ escaped_octet octet) }
{
    if is_plain(octet) {
        text.push(octet as char)
    } else {
        text.push('\\')?;
        push_pair(text, octet)
    }
}

/// Appends octets, each escaped if it doesn't stand for itself.
fn push_escaped(text: &mut String, octets: &[u8]) -> Result<(), AllocError>
    ensures { OnOk result (string_bytes text.new ≡ string_bytes text.old ++ escaped octets.now) }
{
    for octet in octets {
        push_octet(text, *octet)?;
    }
    Ok(())
}

/// Appends octets in hexadecimal.
pub(crate) fn push_hex(text: &mut String, octets: &[u8]) -> Result<(), AllocError>
    ensures { OnOk result (string_bytes text.new ≡ string_bytes text.old ++ upper_hex octets.now) }
{
    for octet in octets {
        push_pair(text, *octet)?;
    }
    Ok(())
}

/// Appends the text of a name, which may be empty.
fn push_text(text: &mut String, name: &[u8]) -> Result<(), AllocError>
    ensures { OnOk result (string_bytes text.new ≡ string_bytes text.old ++ text_or_empty name.now) }
{
    if name.is_empty() {
        return text.push_str("(empty)");
    }
    push_escaped(text, name)
}

/// The text of a name, if it has one.
fn text_of(
    alloc: Global,
    labels: &Labels,
    name: &X509Name<'_>,
) -> Result<Option<String>, OutOfMemory>
    ensures { IfOk result (λ text. option_map string_bytes text ≡ name_text known_label (name_view name.now)) }
{
    match name.to_string_with_registry(alloc, &labels.registry) {
        Ok(text) => Ok(Some(text)),
        Err(X509Error::InvalidAttributes) => Ok(None),
        Err(_) => Err(OutOfMemory),
    }
}

/// The text of the name that takes up all the octets, if there is one.
fn whole_text(alloc: Global, labels: &Labels, octets: &[u8]) -> Result<Option<String>, OutOfMemory>
    ensures { IfOk result (λ text. option_map string_bytes text ≡ whole_text octets.now (name_at octets.now)) }
{
    match X509Name::from_der(alloc, octets) {
        Ok((_, name)) => {
            if name.as_raw() == octets {
                text_of(alloc, labels, &name)
            } else {
                Ok(None)
            }
        }
        Err(Refusal::Failure(_)) => Err(OutOfMemory),
        Err(_) => Ok(None),
    }
}

/// Appends a name, by its octets: its text, or its octets in hexadecimal after `#` if it has
/// none.
pub(crate) fn push_name(
    text: &mut String,
    alloc: Global,
    labels: &Labels,
    octets: &[u8],
) -> Result<(), OutOfMemory>
    ensures { OnOk result (string_bytes text.new ≡ string_bytes text.old ++ shown_name octets.now) }
{
    match whole_text(alloc, labels, octets)? {
        Some(name) => push_text(text, name.as_bytes())?,
        None => {
            text.push('#')?;
            push_hex(text, octets)?;
        }
    }
    Ok(())
}
