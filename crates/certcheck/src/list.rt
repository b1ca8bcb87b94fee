//! Revocation lists (RFC 5280, 5.1), from the element of an item to fields.

ghost use Rattle.std.specs.Prelude.{◌≡◌, ◌&&◌, ℕ, Option, option_map, map};
ghost use Rattle.der_tree.specs.Table.{integer};
ghost use Rattle.der_tree.specs.Access.{plain_at};
ghost use Rattle.der_tree.specs.Tree.{octets};
ghost use Rattle.der_tree.specs.Shape.{IsObject};
ghost use Rattle.cert_model.specs.Octets.{list_octets};
ghost use Rattle.cert_model.specs.Range.{AreListFields};
ghost use Rattle.cert_model.specs.Class.{NoList};
ghost use Rattle.cert_model.specs.View.{any_view, time_view, ext_view, entry_view, list_view};
ghost use Rattle.cert_model.specs.Reads.{list_at};
ghost use Rattle.cert_model.specs.Pieces.{last_extensions_at, entry_at, list_version_of, list_version_at, maybe_time_at, some_entries_at, entries_in, behind_entries, tbs_list_at, signed_at};
ghost use Rattle.cert_model.specs.Assembly.{is_some, implies, is_version_two, entries_fit};
ghost use Rattle.certcheck.specs.PieceView.{list_pieces_view, signed_list_view};
ghost use Rattle.certcheck.specs.Stopping.{Finds, Settles};
ghost use Rattle.certcheck.specs.Windows.{trees_in, tree_of};

use crate::extensions::{extensions_in, extensions_of};
use crate::names::name_of;
use crate::parts::{integer_of, next_algorithm, next_bits, next_number, sequence_of, tagged_of};
use crate::stop::Stop;
use crate::times::time_of;
use crate::windows::{end_of, first_of};
use cert_model::fields::{
    AlgField, AnyField, BitField, EntryFields, ExtField, ListFields, NameFields,
};
use jiff::civil::DateTime;
use std::alloc::Global;

/// The context-specific tag of crlExtensions (RFC 5280, 5.1).
const EXTENSIONS: u32 = 0;

/// Version 2 as it is written (RFC 5280, 5.1.2.1).
const VERSION_2: u8 = 1;

/// TBSCertList, the tagged extensions being left as an element.
#[derive(Drop)]
pub(crate) struct ListPieces<'a> {
    pub version: Option<u8>,
    pub signature: AlgField<'a>,
    pub issuer: NameFields<'a>,
    pub this_update: DateTime,
    pub next_update: Option<DateTime>,
    pub entries: Vec<EntryFields<'a>>,
    pub extensions: Option<AnyField<'a>>,
}

/// CertificateList: its first part, the algorithm and the signature value.
#[derive(Drop)]
pub(crate) struct SignedList<'a> {
    pub tbs: ListPieces<'a>,
    pub algorithm: AlgField<'a>,
    pub signature_value: BitField<'a>,
}

/// Extensions to the end, or nothing.
fn last_extensions<'a>(alloc: Global, parts: &'a [u8]) -> Result<Vec<ExtField<'a>>, Stop>
    ensures { Finds (λ v. map ext_view v.items) result (last_extensions_at (trees_in parts.now)) }
{
    match first_of(parts) {
        None => Ok(Vec::new(alloc)),
        Some((first, rest)) => {
            end_of(rest).ok_or(Stop::Other)?;
            extensions_of(alloc, &first)
        }
    }
}

/// An entry of revokedCertificates (RFC 5280, 5.1.2.6).
#[tactic(auto, unfolding(cert_model::specs::Pieces::entry_at))]
fn entry_of<'a>(alloc: Global, object: &AnyField<'a>) -> Result<EntryFields<'a>, Stop>
    ensures { Finds entry_view result (entry_at (tree_of (any_view object.now))) }
{
    let parts = sequence_of(object).ok_or(Stop::Other)?;
    let (serial, rest) = next_number(parts).ok_or(Stop::Other)?;
    let (second, rest) = first_of(rest).ok_or(Stop::Other)?;
    let date = time_of(&second).ok_or(Stop::Other)?;
    let extensions = last_extensions(alloc, rest)?;
    Ok(EntryFields {
        serial,
        date,
        extensions,
    })
}

/// The entries that all of the parts are.
fn each_entry<'a>(alloc: Global, parts: &'a [u8]) -> Result<Vec<EntryFields<'a>>, Stop>
    ensures { Finds (λ v. map entry_view v.items) result (list_at entry_at (trees_in parts.now)) }
{
    let mut entries = Vec::new(alloc);
    let mut rest = parts;
    while let Some((part, after)) = first_of(rest) {
        let entry = entry_of(alloc, &part)?;
        entries.push(entry)?;
        rest = after;
    }
    Ok(entries)
}

/// One or more entries.
#[tactic(auto, unfolding(cert_model::specs::Pieces::some_entries_at))]
fn some_entries<'a>(alloc: Global, parts: &'a [u8]) -> Result<Vec<EntryFields<'a>>, Stop>
    ensures { Finds (λ v. map entry_view v.items) result (some_entries_at (trees_in parts.now)) }
{
    let entries = each_entry(alloc, parts)?;
    if entries.is_empty() {
        return Err(Stop::Other);
    }
    Ok(entries)
}

/// The entries of the sequence at the front; no entries where there is no sequence.
#[tactic(auto, unfolding(cert_model::specs::Pieces::entries_in))]
fn entries_of<'a>(alloc: Global, parts: &'a [u8]) -> Result<Vec<EntryFields<'a>>, Stop>
    ensures { Finds (λ v. map entry_view v.items) result (entries_in (trees_in parts.now)) }
{
    let Some((first, _)) = first_of(parts) else {
        return Ok(Vec::new(alloc));
    };
    let Some(listed) = sequence_of(&first) else {
        return Ok(Vec::new(alloc));
    };
    some_entries(alloc, listed)
}

/// What follows the sequence at the front, or all where there is no sequence.
#[tactic(auto, unfolding(cert_model::specs::Pieces::behind_entries))]
fn after_entries<'a>(parts: &'a [u8]) -> &'a [u8]
    ensures { trees_in result.now ≡ behind_entries (trees_in parts.now) }
{
    let Some((first, rest)) = first_of(parts) else {
        return parts;
    };
    if sequence_of(&first).is_none() {
        return parts;
    }
    rest
}

/// The time at the front, where there is one.
#[tactic(auto, unfolding(cert_model::specs::Pieces::maybe_time_at))]
fn time_in(parts: &[u8]) -> Option<DateTime>
    ensures { let m = maybe_time_at (trees_in parts.now) in option_map time_view result ≡ m.0 }
{
    match first_of(parts) {
        None => None,
        Some((first, _)) => time_of(&first),
    }
}

/// What follows the time at the front, or all where there is none.
#[tactic(auto, unfolding(cert_model::specs::Pieces::maybe_time_at))]
fn after_time<'a>(parts: &'a [u8]) -> &'a [u8]
    ensures { let m = maybe_time_at (trees_in parts.now) in trees_in result.now ≡ m.1 }
{
    let Some((first, rest)) = first_of(parts) else {
        return parts;
    };
    if time_of(&first).is_none() {
        return parts;
    }
    rest
}

/// The version, which is 1, or none, and the rest.
#[tactic(auto, unfolding(cert_model::specs::Pieces::list_version_at))]
fn list_version<'a>(parts: &'a [u8]) -> Option<(Option<u8>, &'a [u8])>
    ensures { option_map (λ p. (p.0, trees_in p.1.now)) result ≡ list_version_at (trees_in parts.now) }
{
    let Some((first, rest)) = first_of(parts) else {
        return Some((None, parts));
    };
    match integer_of(&first) {
        None => Some((None, parts)),
        Some(number) => match number {
            [version] => {
                if *version == VERSION_2 {
                    Some((Some(*version), rest))
                } else {
                    None
                }
            }
            _ => None,
        },
    }
}

/// TBSCertList.
#[tactic(auto, unfolding(cert_model::specs::Pieces::tbs_list_at))]
fn tbs_list_of<'a>(alloc: Global, object: &AnyField<'a>) -> Result<ListPieces<'a>, Stop>
    ensures { Finds list_pieces_view result (tbs_list_at (tree_of (any_view object.now))) }
{
    let parts = sequence_of(object).ok_or(Stop::Other)?;
    let (version, rest) = list_version(parts).ok_or(Stop::Other)?;
    let (signature, rest) = next_algorithm(rest).ok_or(Stop::Other)?;
    let (first, rest) = first_of(rest).ok_or(Stop::Other)?;
    let issuer = name_of(alloc, &first)?;
    let (first, rest) = first_of(rest).ok_or(Stop::Other)?;
    let this_update = time_of(&first).ok_or(Stop::Other)?;
    let next_update = time_in(rest);
    let rest = after_time(rest);
    let entries = entries_of(alloc, rest)?;
    let (extensions, rest) = tagged_of(EXTENSIONS, after_entries(rest));
    end_of(rest).ok_or(Stop::Other)?;
    Ok(ListPieces {
        version,
        signature,
        issuer,
        this_update,
        next_update,
        entries,
        extensions,
    })
}

fn signed_list<'a>(alloc: Global, object: &AnyField<'a>) -> Result<SignedList<'a>, Stop>
    ensures { Finds signed_list_view result (signed_at tbs_list_at (tree_of (any_view object.now))) }
{
    let parts = sequence_of(object).ok_or(Stop::Other)?;
    let (first, rest) = first_of(parts).ok_or(Stop::Other)?;
    let tbs = tbs_list_of(alloc, &first)?;
    let (algorithm, rest) = next_algorithm(rest).ok_or(Stop::Other)?;
    let (signature_value, rest) = next_bits(rest).ok_or(Stop::Other)?;
    end_of(rest).ok_or(Stop::Other)?;
    Ok(SignedList {
        tbs,
        algorithm,
        signature_value,
    })
}

/// Whether the list is of version 2, which is written 1.
fn is_version_two(version: Option<u8>) -> bool
    ensures { result ≡ is_version_two version }
{
    match version {
        None => false,
        Some(version) => version == VERSION_2,
    }
}

fn entry_fits(version: Option<u8>, entry: &EntryFields<'_>) -> bool
    ensures { result ≡ implies (is_some (map ext_view entry.now.extensions.items)) (is_version_two version) }
{
    entry.extensions.is_empty() || is_version_two(version)
}

/// Entry extensions with version 2 only (RFC 5280, 5.1.2.6).
fn entries_fit(version: Option<u8>, entries: &[EntryFields<'_>]) -> bool
    ensures { result ≡ entries_fit version (map entry_view entries.now) }
{
    for entry in entries {
        if !entry_fits(version, entry) {
            return false;
        }
    }
    true
}

/// Extensions, of entries too, with version 2 only (RFC 5280, 5.1.2.6 and 5.1.2.7).
fn fits_list(version: Option<u8>, entries: &[EntryFields<'_>], extensions: &[ExtField<'_>]) -> bool
    ensures { result ≡ (entries_fit version (map entry_view entries.now) && implies (is_some (map ext_view extensions.now)) (is_version_two version)) }
{
    entries_fit(version, entries) && (extensions.is_empty() || is_version_two(version))
}

/// The fields of the list that the object is.
pub(crate) fn list_of<'a>(alloc: Global, object: &AnyField<'a>) -> Result<ListFields<'a>, Stop>
    requires { IsObject 50 (tree_of (any_view object.now)) }
    ensures { Settles result (λ f. AreListFields (list_view f) × (list_octets (list_view f) ≡ octets (tree_of (any_view object.now))))
        (NoList (octets (tree_of (any_view object.now)))) }
{
    let signed = signed_list(alloc, object)?;
    let extensions = extensions_in(alloc, signed.tbs.extensions)?;
    if !fits_list(signed.tbs.version, &signed.tbs.entries, &extensions) {
        return Err(Stop::Other);
    }
    Ok(ListFields {
        version: signed.tbs.version,
        signature: signed.tbs.signature,
        issuer: signed.tbs.issuer,
        this_update: signed.tbs.this_update,
        next_update: signed.tbs.next_update,
        entries: signed.tbs.entries,
        extensions,
        algorithm: signed.algorithm,
        signature_value: signed.signature_value,
    })
}
