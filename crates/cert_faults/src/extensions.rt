//! Extensions (RFC 5280, 4.2): identifiers, marks and values; no value is looked into.

ghost use Rattle.std.specs.Prelude.{◌≡◌};
ghost use Rattle.der_tree.specs.View.{view, views};
ghost use Rattle.cert_model.specs.Assembly.{is_version_two};
ghost use Rattle.cert_faults.specs.Steps.{Gives, at_view, unlike, whole, test, each_in};
ghost use Rattle.cert_faults.specs.Walks.{critical_in, extension_fault, extensions_fault, entry_extensions_in, entry_fault};

use crate::fields::{next_identifier, next_number, next_octets, next_time};
use crate::places::{Expected, Field, Part};
use crate::steps::{At, Blame, end, first, left_after, sequence, unlike, whole, within};
use der_tree::{BerObject, first_of};

/// Version 2 of a list as it is written (RFC 5280, 5.1.2.1).
const VERSION_2: u8 = 1;

/// Past a mark that an extension is critical: true is written, false never is (X.690, 11.5).
fn next_critical<'b, 'a>(field: Field, at: At<'b, 'a>) -> Result<At<'b, 'a>, Blame>
    ensures { Gives at_view result (critical_in field at.entry.left (views at.entry.parts.now)) }
{
    match first_of(at.parts) {
        None => Ok(at),
        Some((object, rest)) => match object.as_bool() {
            Ok(critical) => {
                if critical {
                    Ok(At {
                        parts: rest,
                        left: left_after(object, at.left),
                    })
                } else {
                    Err(unlike(
                        within(field, Part::Critical),
                        Expected::TrueOrNothing,
                        at.left,
                    ))
                }
            }
            Err(_) => Ok(at),
        },
    }
}

/// Extension.
#[tactic(auto, unfolding(crate::specs::Walks::extension_fault))]
fn extension_fault(field: Field, left: usize, object: &BerObject<'_>) -> Result<(), Blame>
    ensures { result ≡ extension_fault field left (view object.now) }
{
    let all = sequence(within(field, Part::Extension), left, object)?;
    let rest = next_identifier(within(field, Part::ExtnId), all)?;
    let last = next_critical(field, rest)?;
    let over = next_octets(within(field, Part::ExtnValue), last)?;
    end(within(field, Part::Extension), over)
}

/// Each of some extensions.
fn each_extension_fault(field: Field, at: At<'_, '_>) -> Result<(), Blame>
    ensures { result ≡ each_in (extension_fault field) at.entry.left (views at.entry.parts.now) }
{
    let mut left = at.left;
    for object in at.parts {
        extension_fault(field, left, object)?;
        left = left_after(object, left);
    }
    Ok(())
}

/// Extensions: one or more.
#[tactic(auto, unfolding(crate::specs::Walks::extensions_fault))]
pub(crate) fn extensions_fault(
    field: Field,
    left: usize,
    object: &BerObject<'_>,
) -> Result<(), Blame>
    ensures { result ≡ extensions_fault field left (view object.now) }
{
    let all = sequence(whole(field), left, object)?;
    first(whole(field), Expected::OneExtension, all)?;
    each_extension_fault(field, all)
}

/// That the version has extensions.
fn later_fault(field: Field, is_later: bool, left: usize) -> Result<(), Blame>
    ensures { result ≡ test (unlike (whole field) Expected.LaterVersion left) is_later }
{
    if is_later {
        Ok(())
    } else {
        Err(unlike(whole(field), Expected::LaterVersion, left))
    }
}

/// The extensions of an entry, or none, to its end.
fn entry_extensions_fault(version: Option<u8>, at: At<'_, '_>) -> Result<(), Blame>
    ensures { result ≡ entry_extensions_in version at.entry.left (views at.entry.parts.now) }
{
    match first_of(at.parts) {
        None => Ok(()),
        Some((object, rest)) => {
            later_fault(Field::EntryExtensions, is_version_two(version), at.left)?;
            extensions_fault(Field::EntryExtensions, at.left, object)?;
            let rest = At {
                parts: rest,
                left: left_after(object, at.left),
            };
            end(whole(Field::Entry), rest)
        }
    }
}

/// Whether the list is of version 2, which is written 1.
pub(crate) fn is_version_two(version: Option<u8>) -> bool
    ensures { result ≡ is_version_two version }
{
    match version {
        None => false,
        Some(version) => version == VERSION_2,
    }
}

/// An entry of revokedCertificates.
#[tactic(auto, unfolding(crate::specs::Walks::entry_fault))]
pub(crate) fn entry_fault(
    version: Option<u8>,
    left: usize,
    object: &BerObject<'_>,
) -> Result<(), Blame>
    ensures { result ≡ entry_fault version left (view object.now) }
{
    let all = sequence(whole(Field::Entry), left, object)?;
    let rest = next_number(whole(Field::UserCertificate), all)?;
    let last = next_time(whole(Field::RevocationDate), rest)?;
    entry_extensions_fault(version, last)
}
