//! Readers of the `extensions` field of certificates and lists (RFC 5280, 4.1.2.9 and 5.1.2.7).

ghost use Rattle.std.specs.Prelude.{◌≡◌, ◌+◌, ◌*◌, ◌^◌, ◌<◌, ◌≤◌, length, All, IfOk, map};
ghost use Rattle.asn1_core.specs.Counts.{attempts};
ghost use Rattle.asn1_any.specs.Views.{any_of};
ghost use Rattle.x509_core.specs.Answers.{Gives, ManyGive};
ghost use Rattle.x509_core.specs.Reading.{many_of};
ghost use Rattle.x509_ext.specs.Fields.{reading_of};
ghost use Rattle.x509_ext.specs.Reading.{extension_at, extension_list_in, extension_list_at, extensions_at};
ghost use Rattle.x509_ext.specs.View.{extension_view, IsCountedExtension, WantsNoMemory};

use crate::extension::{X509Extension, extension_of};
use asn1_any::Element;
use asn1_core::{Err as Refusal, Error, HeaderCount};
use std::alloc::Global;
use std::cmp;
use x509_core::{Parts, X509Error, cut_all, front_header, parts_of, push_in_room, renamed};

/// The most extensions that room is reserved for at once.
const MOST_ROOM: usize = 16;

/// Reads extensions until none begins; values are parsed if `deep` is true. Room that was reserved
/// for elements that are no extensions is given back.
pub fn each_extension<'a>(
    alloc: Global,
    parts: &mut Parts<'a>,
    deep: bool,
    count: &mut HeaderCount,
) -> Result<Vec<X509Extension<'a>>, Refusal<X509Error>>
    requires { attempts count.old + length parts.old.octets < 2 ^ 128 }
    ensures read { ManyGive (λ v. map extension_view v.items) result (many_of (extension_at (reading_of deep)) parts.old.octets) parts.new.octets }
    ensures counted { IfOk result (λ v. All IsCountedExtension v.items) }
    ensures memory { IfOk result (λ v. All WantsNoMemory v.items) }
    ensures grows { attempts count.old ≤ attempts count.new }
    ensures most { attempts count.new ≤ attempts count.old + length parts.old.octets }
    ensures shorter { length parts.new.octets ≤ length parts.old.octets }
{
    let room = cmp::min(parts.elements(), MOST_ROOM);
    let mut extensions = Vec::new(alloc);
    while let Some(element) = parts.first() {
        match extension_of(alloc, element, deep, count) {
            Ok(extension) => {
                push_in_room(&mut extensions, extension, room)?;
                parts.advance();
            }
            Err(refusal) => match refusal {
                Refusal::Failure(e) => return Err(Refusal::Failure(e)),
                _ => {
                    extensions.shrink_to_fit();
                    return Ok(extensions);
                }
            },
        }
    }
    Ok(extensions)
}

/// Reads the extensions in an element, to its end; values are parsed if `deep` is true.
#[tactic(auto, unfolding(crate::specs::Reading::extension_list_in))]
pub fn extension_list_of<'a>(
    alloc: Global,
    element: Element<'a>,
    deep: bool,
    count: &mut HeaderCount,
) -> Result<Vec<X509Extension<'a>>, Refusal<X509Error>>
    requires { attempts count.old + 2 * length element.any.content.now < 2 ^ 128 }
    ensures read { Gives (λ v. map extension_view v.items) result (extension_list_in (reading_of deep) (any_of element.entry.any)) }
    ensures counted { IfOk result (λ v. All IsCountedExtension v.items) }
    ensures memory { IfOk result (λ v. All WantsNoMemory v.items) }
    ensures grows { attempts count.old ≤ attempts count.new }
    ensures most { attempts count.new ≤ attempts count.old + 2 * length element.entry.any.content.now }
{
    let mut parts = parts_of(alloc, 16, element, count)?;
    let extensions = each_extension(alloc, &mut parts, deep, count)?;
    if parts.left().is_empty() {
        Ok(extensions)
    } else {
        Err(Refusal::Error(X509Error::Der(Error::InvalidLength)))
    }
}

/// Reads one list of extensions, to the end.
#[tactic(auto, unfolding(crate::specs::Reading::extension_list_at))]
fn last_list<'a>(
    alloc: Global,
    parts: &mut Parts<'a>,
    deep: bool,
    count: &mut HeaderCount,
) -> Result<Vec<X509Extension<'a>>, Refusal<X509Error>>
    requires { attempts count.old + 2 * length parts.old.octets < 2 ^ 128 }
    ensures read { Gives (λ v. map extension_view v.items) result (extension_list_at (reading_of deep) parts.old.octets) }
    ensures counted { IfOk result (λ v. All IsCountedExtension v.items) }
    ensures memory { IfOk result (λ v. All WantsNoMemory v.items) }
    ensures grows { attempts count.old ≤ attempts count.new }
    ensures most { attempts count.new ≤ attempts count.old + 2 * length parts.old.octets }
{
    let element = parts.next()?;
    let extensions = extension_list_of(alloc, element, deep, count)?;
    if parts.left().is_empty() {
        Ok(extensions)
    } else {
        Err(Refusal::Error(X509Error::Der(Error::InvalidLength)))
    }
}

/// Reads a list of extensions, to the end.
fn all_extensions<'a>(
    alloc: Global,
    octets: &'a [u8],
    deep: bool,
    count: &mut HeaderCount,
) -> Result<Vec<X509Extension<'a>>, Refusal<X509Error>>
    requires { attempts count.old + 3 * length octets.now < 2 ^ 128 }
    ensures read { Gives (λ v. map extension_view v.items) result (extension_list_at (reading_of deep) octets.now) }
    ensures counted { IfOk result (λ v. All IsCountedExtension v.items) }
    ensures memory { IfOk result (λ v. All WantsNoMemory v.items) }
    ensures grows { attempts count.old ≤ attempts count.new }
    ensures most { attempts count.new ≤ attempts count.old + 3 * length octets.now }
{
    let mut parts = cut_all(alloc, octets, count)?;
    last_list(alloc, &mut parts, deep, count)
}

/// Reads the extensions under this tag number, to the end; values are parsed if `deep` is true. No
/// octets give no extensions. The length of the wrapper isn't used.
///
/// # Errors
///
/// `InvalidExtensions` for anything else; out of memory.
pub fn extensions_of<'a>(
    alloc: Global,
    tag: u32,
    left: &'a [u8],
    deep: bool,
    count: &mut HeaderCount,
) -> Result<Vec<X509Extension<'a>>, Refusal<X509Error>>
    requires { attempts count.old + 4 * length left.now < 2 ^ 128 }
    ensures read { Gives (λ v. map extension_view v.items) result (extensions_at (reading_of deep) tag left.now) }
    ensures counted { IfOk result (λ v. All IsCountedExtension v.items) }
    ensures memory { IfOk result (λ v. All WantsNoMemory v.items) }
    ensures grows { attempts count.old ≤ attempts count.new }
    ensures most { attempts count.new ≤ attempts count.old + 4 * length left.now }
{
    if left.is_empty() {
        return Ok(Vec::new(alloc));
    }
    match front_header(left, count) {
        Ok((after, header)) => {
            if header.tag().0 != tag {
                return Err(Refusal::Error(X509Error::InvalidExtensions));
            }
            all_extensions(alloc, after, deep, count)
        }
        Err(refusal) => Err(renamed(refusal, X509Error::InvalidExtensions)),
    }
}
