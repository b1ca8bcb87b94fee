//! The text of a fault.

ghost use Rattle.std.specs.Prelude.{◌≡◌, ◌++◌, OnOk, string_bytes};
ghost use Rattle.fault_texts.specs.FaultText.{path_text, part_text, class_text, form_text, length_text, header_text, found_text, place_text, clause_text, fault_text};

use crate::names::{expected_text, part_text, path_text};
use asn1_core::{Class, Header, Length};
use cert_faults::{Fault, Field, Part};
use std::alloc::AllocError;

/// Appends the text of a fault, as `at 57: tbsCertificate.serialNumber: expected an INTEGER that
/// isn't negative; found universal primitive 2 of 1`: the offset in the item, the place, what is
/// expected there, and of the header found its class, form, tag number and count of content octets.
///
/// The text is one line without its end, of less than 300 octets: it has no octets of the item. Out
/// of memory is the only error; a front of the text may then be there.
pub fn push_fault(text: &mut String, fault: &Fault) -> Result<(), AllocError>
    ensures { OnOk result (string_bytes text.new ≡ string_bytes text.old ++ fault_text fault.now) }
{
    push_place(text, fault)?;
    push_clause(text, fault)
}

/// Where the fault is.
#[tactic(auto, unfolding(crate::specs::FaultText::place_text))]
fn push_place(text: &mut String, fault: &Fault) -> Result<(), AllocError>
    ensures { OnOk result (string_bytes text.new ≡ string_bytes text.old ++ place_text fault.now) }
{
    write!(text, "at {}: ", fault.offset)?;
    push_path(text, fault.field, fault.part)
}

/// What is expected and found there.
#[tactic(auto, unfolding(crate::specs::FaultText::clause_text))]
fn push_clause(text: &mut String, fault: &Fault) -> Result<(), AllocError>
    ensures { OnOk result (string_bytes text.new ≡ string_bytes text.old ++ clause_text fault.now) }
{
    let expected = expected_text(fault.expected);
    write!(text, ": expected {expected}; found ")?;
    push_found(text, &fault.found)
}

/// The path of a field and of its part.
fn push_path(text: &mut String, field: Field, part: Part) -> Result<(), AllocError>
    ensures { OnOk result (string_bytes text.new ≡ string_bytes text.old ++ (path_text field ++ part_text part)) }
{
    text.push_str(path_text(field))?;
    text.push_str(part_text(part))
}

/// The header that is found, if there is one.
fn push_found(text: &mut String, found: &Option<Header>) -> Result<(), AllocError>
    ensures { OnOk result (string_bytes text.new ≡ string_bytes text.old ++ found_text found.now) }
{
    match found {
        Some(header) => push_header(text, header),
        None => text.push_str("no element"),
    }
}

fn push_header(text: &mut String, header: &Header) -> Result<(), AllocError>
    ensures { OnOk result (string_bytes text.new ≡ string_bytes text.old ++ header_text header.now) }
{
    let class = class_text(header.class());
    let form = form_text(header.constructed());
    let tag = header.tag();
    write!(text, "{class}{form}{}", tag.0)?;
    push_length(text, header.length())
}

fn class_text(class: Class) -> &'static str
    ensures { result.now ≡ class_text class }
{
    match class {
        Class::Universal => "universal",
        Class::Application => "application",
        Class::ContextSpecific => "context-specific",
        Class::Private => "private",
    }
}

fn form_text(constructed: bool) -> &'static str
    ensures { result.now ≡ form_text constructed }
{
    if constructed {
        " constructed "
    } else {
        " primitive "
    }
}

fn push_length(text: &mut String, length: Length) -> Result<(), AllocError>
    ensures { OnOk result (string_bytes text.new ≡ string_bytes text.old ++ length_text length) }
{
    match length {
        Length::Definite(size) => write!(text, " of {size}"),
        Length::Indefinite => text.push_str(" indefinite"),
    }
}
