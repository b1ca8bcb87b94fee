//! Readers of `revokedCertificates` (RFC 5280, 5.1.2.6).

ghost use Rattle.std.specs.Prelude.{◌≡◌, ◌+◌, ◌*◌, ◌^◌, ◌<◌, ◌≤◌, length, All, IfOk, map};
ghost use Rattle.asn1_core.specs.Counts.{attempts};
ghost use Rattle.asn1_any.specs.Views.{any_of};
ghost use Rattle.x509_core.specs.Answers.{Gives, ManyGive};
ghost use Rattle.x509_core.specs.Reading.{many_of};
ghost use Rattle.x509_ext.specs.Fields.{reading_of};
ghost use Rattle.x509_lists.specs.Reading.{entry_at, entries_in, entries_at};
ghost use Rattle.x509_lists.specs.View.{entry_view, entry_errors, HasSerial, IsCountedEntry, EntryWantsNoMemory};

use crate::entry::{RevokedCertificate, entry_of};
use asn1_any::Element;
use asn1_core::{Err as Refusal, Error, HeaderCount, OutOfMemory};
use std::alloc::Global;
use std::cmp;
use x509_core::{Parts, X509Error, parts_of, push_in_room, renamed};
use x509_ext::types::copy_all;

/// The fewest octets of an entry: a header, a serial number, and a time of at least 13 octets. It
/// bounds the room that is reserved.
const LEAST_OCTETS: usize = 16;

/// Reads entries from the front until none begins; extension values are parsed if `deep` is true.
fn each_entry<'a>(
    alloc: Global,
    parts: &mut Parts<'a>,
    deep: bool,
    count: &mut HeaderCount,
) -> Result<Vec<RevokedCertificate<'a>>, Refusal<X509Error>>
    requires { attempts count.old + 3 * length parts.old.octets < 2 ^ 128 }
    ensures read { ManyGive (λ v. map entry_view v.items) result (many_of (entry_at (reading_of deep)) parts.old.octets) parts.new.octets }
    ensures serials { IfOk result (λ v. All HasSerial v.items) }
    ensures counted { IfOk result (λ v. All IsCountedEntry v.items) }
    ensures memory { IfOk result (λ v. All EntryWantsNoMemory v.items) }
    ensures grows { attempts count.old ≤ attempts count.new }
    ensures most { attempts count.new ≤ attempts count.old + 3 * length parts.old.octets }
    ensures shorter { length parts.new.octets ≤ length parts.old.octets }
{
    let room = cmp::min(parts.elements(), parts.left().len() / LEAST_OCTETS + 1);
    let mut entries = Vec::new(alloc);
    while let Some(element) = parts.first() {
        match entry_of(alloc, element, deep, count) {
            Ok(entry) => {
                push_in_room(&mut entries, entry, room)?;
                parts.advance();
            }
            Err(refusal) => match refusal {
                Refusal::Failure(e) => return Err(Refusal::Failure(e)),
                _ => return Ok(entries),
            },
        }
    }
    Ok(entries)
}

/// Reads the entries in an element to its end; extension values are parsed if `deep` is true.
#[tactic(auto, unfolding(crate::specs::Reading::entries_in))]
fn entries_of<'a>(
    alloc: Global,
    element: Element<'a>,
    deep: bool,
    count: &mut HeaderCount,
) -> Result<Vec<RevokedCertificate<'a>>, Refusal<X509Error>>
    requires { attempts count.old + 4 * length element.any.content.now < 2 ^ 128 }
    ensures read { Gives (λ v. map entry_view v.items) result (entries_in (reading_of deep) (any_of element.entry.any)) }
    ensures serials { IfOk result (λ v. All HasSerial v.items) }
    ensures counted { IfOk result (λ v. All IsCountedEntry v.items) }
    ensures memory { IfOk result (λ v. All EntryWantsNoMemory v.items) }
    ensures grows { attempts count.old ≤ attempts count.new }
    ensures most { attempts count.new ≤ attempts count.old + 4 * length element.entry.any.content.now }
{
    let mut parts = parts_of(alloc, 16, element, count)?;
    let entries = each_entry(alloc, &mut parts, deep, count)?;
    if parts.left().is_empty() {
        Ok(entries)
    } else {
        Err(Refusal::Error(X509Error::Der(Error::InvalidLength)))
    }
}

/// Reads the entries at the front, or none if no SEQUENCE is next; extension values are parsed if
/// `deep` is true.
///
/// # Errors
///
/// `InvalidExtensions` for a SEQUENCE that holds anything but entries: only extensions may follow
/// there, and they have another tag.
#[tactic(auto, unfolding(crate::specs::Reading::entries_at))]
pub(crate) fn next_entries<'a>(
    alloc: Global,
    parts: &mut Parts<'a>,
    deep: bool,
    count: &mut HeaderCount,
) -> Result<Vec<RevokedCertificate<'a>>, Refusal<X509Error>>
    requires { attempts count.old + 4 * length parts.old.octets < 2 ^ 128 }
    ensures read { Gives (λ v. (map entry_view v.items, parts.new.octets)) result (entries_at (reading_of deep) parts.old.octets) }
    ensures serials { IfOk result (λ v. All HasSerial v.items) }
    ensures counted { IfOk result (λ v. All IsCountedEntry v.items) }
    ensures memory { IfOk result (λ v. All EntryWantsNoMemory v.items) }
    ensures grows { attempts count.old ≤ attempts count.new }
    ensures ends { length parts.new.octets ≤ length parts.old.octets }
    ensures most { attempts count.new ≤ attempts count.old + 4 * length parts.old.octets }
    ensures taken { IfOk result (λ _. attempts count.new + 4 * length parts.new.octets ≤ attempts count.old + 4 * length parts.old.octets) }
{
    let Some(element) = parts.first() else {
        return Ok(Vec::new(alloc));
    };
    if element.any.tag().0 != 16 {
        return Ok(Vec::new(alloc));
    }
    match entries_of(alloc, element, deep, count) {
        Ok(entries) => {
            parts.advance();
            Ok(entries)
        }
        Err(refusal) => Err(renamed(refusal, X509Error::InvalidExtensions)),
    }
}

/// Copies the entries in order.
///
/// # Errors
///
/// Out of memory.
pub(crate) fn copy_entries<'a>(
    alloc: Global,
    entries: &[RevokedCertificate<'a>],
) -> Result<Vec<RevokedCertificate<'a>>, OutOfMemory>
    ensures value { IfOk result (λ copies. map entry_view copies.items ≡ map entry_view entries.now) }
    ensures serials { IfOk result (λ copies. map (λ e. e.user_certificate) copies.items ≡ map (λ e. e.user_certificate) entries.now) }
    ensures errors { IfOk result (λ copies. map entry_errors copies.items ≡ map entry_errors entries.now) }
{
    copy_all(alloc, entries)
}
