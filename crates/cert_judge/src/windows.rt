//! Where the names and the key of a certificate, and the issuer of a list, lie in their items.
//!
//! Fields say what a name is, and not which octets of the item it lies in. Links go by these
//! octets, so they are looked up here, element by element from the front (RFC 5280, 4.1 and 5.1).

ghost use Rattle.std.specs.Prelude.{◌≡◌, ◌++◌, ℕ, List, length, nat_lt, if◌then◌else◌, IsSomeAnd};
ghost use Rattle.std.specs.List.{concat, AllByRecursion};
ghost use Rattle.cert_model.specs.Octets.{sequence_octets, certificate_octets, list_octets, name_octets, key_octets};
ghost use Rattle.cert_model.specs.Parts.{IsPart};
ghost use Rattle.cert_model.specs.View.{certificate_view, list_view};
ghost use Rattle.cert_judge.specs.Windows.{issuer_place};

use asn1_core::{Class, Tag};
use cert_model::fields::{CertFields, ListFields};
use cert_model::parts::{first_part, whole};

/// The place of the issuer in TBSCertificate, counted from the serial number (RFC 5280, 4.1).
const ISSUER: usize = 2;

/// What follows the first `count` of the elements that octets begin with.
fn rest_after(octets: &[u8], count: usize) -> Option<&[u8]>
    ensures { (parts : List (List ℕ)) (rest : List ℕ) → AllByRecursion IsPart parts → length parts ≡ count → octets.now ≡ concat parts ++ rest
        → IsSomeAnd result (λ r. r.now ≡ rest) }
{
    if count == 0 {
        Some(octets)
    } else {
        let (_, rest) = first_part(octets)?;
        rest_after(rest, count - 1)
    }
}

/// The content of the sequence that begins the one sequence which the octets are.
fn tbs_of(item: &[u8]) -> Option<&[u8]>
    ensures { (content rest : List ℕ) → item.now ≡ sequence_octets (sequence_octets content ++ rest) → IsSomeAnd result (λ r. r.now ≡ content) }
{
    let content = whole(Class::Universal, true, Tag::Sequence.0, item)?;
    let (tbs, _) = first_part(content)?;
    whole(Class::Universal, true, Tag::Sequence.0, tbs)
}

/// The names and the key of a certificate, as they lie in its item: whole elements, headers
/// included (Name, Name and SubjectPublicKeyInfo: RFC 5280, 4.1.2.4, 4.1.2.6 and 4.1.2.7).
#[derive(Clone, Copy, Debug)]
pub struct Windows<'a> {
    pub issuer: &'a [u8],
    pub subject: &'a [u8],
    pub key: &'a [u8],
}

// How many parts are before the serial number.
fn first_of(version: u8) -> usize
    ensures { result ≡ (if nat_lt 0 version then 1 else 0) }
{
    if version > 0 { 1 } else { 0 }
}

/// The windows of an item that the fields of a certificate write (RFC 5280, 4.1). `Some` whenever
/// they do; of other octets nothing is said. It takes no memory, and one pass: a step for each
/// element up to the key.
pub fn windows_of<'a>(item: &'a [u8], fields: &CertFields<'_>) -> Option<Windows<'a>>
    ensures { item.now ≡ certificate_octets (certificate_view fields.now) → IsSomeAnd result (λ w. (w.issuer.now ≡ name_octets (certificate_view fields.now).issuer)
        × (w.subject.now ≡ name_octets (certificate_view fields.now).subject) × (w.key.now ≡ key_octets (certificate_view fields.now).key)) }
{
    let tbs = tbs_of(item)?;
    let first = first_of(fields.version);
    let from_issuer = rest_after(tbs, first + ISSUER)?;
    let (issuer, from_validity) = first_part(from_issuer)?;
    let (_, from_subject) = first_part(from_validity)?;
    let (subject, from_key) = first_part(from_subject)?;
    let (key, _) = first_part(from_key)?;
    Some(Windows {
        issuer,
        subject,
        key,
    })
}

// The place of a list's issuer among its parts.
fn issuer_place(version: Option<u8>) -> usize
    ensures { result ≡ issuer_place version }
{
    match version {
        Some(_) => 2,
        None => 1,
    }
}

/// The issuer in an item that the fields of a list write (RFC 5280, 5.1.2.3): the whole Name
/// element. `Some` whenever they do; of other octets nothing is said. It takes no memory, and at
/// most three steps.
pub fn list_issuer_of<'a>(item: &'a [u8], fields: &ListFields<'_>) -> Option<&'a [u8]>
    ensures { item.now ≡ list_octets (list_view fields.now) → IsSomeAnd result (λ w. w.now ≡ name_octets (list_view fields.now).issuer) }
{
    let tbs = tbs_of(item)?;
    let from_issuer = rest_after(tbs, issuer_place(fields.version))?;
    let (issuer, _) = first_part(from_issuer)?;
    Some(issuer)
}
