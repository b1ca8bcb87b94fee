//! Certificates (RFC 5280, 4.1), from the element of an item to fields.

ghost use Rattle.std.specs.Prelude.{◌≡◌, ℕ, Option, option_map, map};
ghost use Rattle.der_tree.specs.Tree.{octets};
ghost use Rattle.der_tree.specs.Shape.{IsObject};
ghost use Rattle.cert_model.specs.Octets.{certificate_octets};
ghost use Rattle.cert_model.specs.Range.{AreCertificateFields};
ghost use Rattle.cert_model.specs.Assembly.{version_number, version_in, bits_in, id_in, fits_version};
ghost use Rattle.cert_model.specs.Class.{NoCertificate};
ghost use Rattle.cert_model.specs.View.{any_view, time_view, alg_view, bit_view, key_view, name_view, ext_view, certificate_view};
ghost use Rattle.cert_model.specs.Reads.{name_at};
ghost use Rattle.cert_model.specs.Pieces.{validity_at, tbs_at, signed_at};
ghost use Rattle.certcheck.specs.PieceView.{cert_pieces_view, signed_certificate_view};
ghost use Rattle.certcheck.specs.Stopping.{Finds, Settles};
ghost use Rattle.certcheck.specs.Windows.{tree_of};

use crate::extensions::extensions_in;
use crate::names::name_of;
use crate::parts::{next_algorithm, next_bits, next_key, next_number, sequence_of, tagged_of};
use crate::stop::Stop;
use crate::times::time_of;
use crate::windows::{end_of, first_of};
use cert_model::fields::{
    AlgField, AnyField, BitField, CertFields, ExtField, KeyField, NameFields,
};
use jiff::civil::DateTime;
use std::alloc::Global;

/// The context-specific tags of TBSCertificate (RFC 5280, 4.1).
const VERSION: u32 = 0;

const ISSUER_ID: u32 = 1;

const SUBJECT_ID: u32 = 2;

const EXTENSIONS: u32 = 3;

/// The versions as they are written (RFC 5280, 4.1.2.1); the first one never is.
const VERSION_1: u8 = 0;

const VERSION_2: u8 = 1;

const VERSION_3: u8 = 2;

/// The identifier octet of an INTEGER (X.690, 8.1.2).
const INTEGER: u8 = 0x02;

/// TBSCertificate, what has a context-specific tag being left as an element.
#[derive(Drop)]
pub(crate) struct CertPieces<'a> {
    pub version: Option<AnyField<'a>>,
    pub serial: &'a [u8],
    pub signature: AlgField<'a>,
    pub issuer: NameFields<'a>,
    pub not_before: DateTime,
    pub not_after: DateTime,
    pub subject: NameFields<'a>,
    pub key: KeyField<'a>,
    pub issuer_id: Option<AnyField<'a>>,
    pub subject_id: Option<AnyField<'a>>,
    pub extensions: Option<AnyField<'a>>,
}

/// Validity (RFC 5280, 4.1.2.5).
#[tactic(auto, unfolding(cert_model::specs::Pieces::validity_at))]
fn validity_of(object: &AnyField<'_>) -> Option<(DateTime, DateTime)>
    ensures { option_map (λ p. (time_view p.0, time_view p.1)) result ≡ validity_at (tree_of (any_view object.now)) }
{
    let (first, rest) = first_of(sequence_of(object)?)?;
    let not_before = time_of(&first)?;
    let (second, rest) = first_of(rest)?;
    let not_after = time_of(&second)?;
    end_of(rest)?;
    Some((not_before, not_after))
}

/// TBSCertificate.
#[tactic(auto, unfolding(cert_model::specs::Pieces::tbs_at))]
pub(crate) fn tbs_of<'a>(alloc: Global, object: &AnyField<'a>) -> Result<CertPieces<'a>, Stop>
    ensures { Finds cert_pieces_view result (tbs_at (tree_of (any_view object.now))) }
{
    let parts = sequence_of(object).ok_or(Stop::Other)?;
    let (version, rest) = tagged_of(VERSION, parts);
    let (serial, rest) = next_number(rest).ok_or(Stop::Other)?;
    let (signature, rest) = next_algorithm(rest).ok_or(Stop::Other)?;
    let (first, rest) = first_of(rest).ok_or(Stop::Other)?;
    let issuer = name_of(alloc, &first)?;
    let (validity, rest) = first_of(rest).ok_or(Stop::Other)?;
    let (not_before, not_after) = validity_of(&validity).ok_or(Stop::Other)?;
    let (first, rest) = first_of(rest).ok_or(Stop::Other)?;
    let subject = name_of(alloc, &first)?;
    let (key, rest) = next_key(rest).ok_or(Stop::Other)?;
    let (issuer_id, rest) = tagged_of(ISSUER_ID, rest);
    let (subject_id, rest) = tagged_of(SUBJECT_ID, rest);
    let (extensions, rest) = tagged_of(EXTENSIONS, rest);
    end_of(rest).ok_or(Stop::Other)?;
    Ok(CertPieces {
        version,
        serial,
        signature,
        issuer,
        not_before,
        not_after,
        subject,
        key,
        issuer_id,
        subject_id,
        extensions,
    })
}

/// Certificate: its first part, the algorithm and the signature value.
#[derive(Drop)]
pub(crate) struct SignedCertificate<'a> {
    pub tbs: CertPieces<'a>,
    pub algorithm: AlgField<'a>,
    pub signature_value: BitField<'a>,
}

fn signed_certificate<'a>(
    alloc: Global,
    object: &AnyField<'a>,
) -> Result<SignedCertificate<'a>, Stop>
    ensures { Finds signed_certificate_view result (signed_at tbs_at (tree_of (any_view object.now))) }
{
    let parts = sequence_of(object).ok_or(Stop::Other)?;
    let (first, rest) = first_of(parts).ok_or(Stop::Other)?;
    let tbs = tbs_of(alloc, &first)?;
    let (algorithm, rest) = next_algorithm(rest).ok_or(Stop::Other)?;
    let (signature_value, rest) = next_bits(rest).ok_or(Stop::Other)?;
    end_of(rest).ok_or(Stop::Other)?;
    Ok(SignedCertificate {
        tbs,
        algorithm,
        signature_value,
    })
}

/// The INTEGER in [0], which is 1 or 2.
fn version_number(content: &[u8]) -> Option<u8>
    ensures { result ≡ version_number content.now }
{
    match content {
        [tag, length, version] => {
            if *tag == INTEGER && *length == 1 && (*version == VERSION_2 || *version == VERSION_3) {
                Some(*version)
            } else {
                None
            }
        }
        _ => None,
    }
}

/// The version, 0 where it isn't written.
fn version_of(element: Option<AnyField<'_>>) -> Option<u8>
    ensures { result ≡ version_in (option_map any_view element.entry) }
{
    match element {
        None => Some(VERSION_1),
        Some(element) => {
            if element.constructed {
                version_number(element.content)
            } else {
                None
            }
        }
    }
}

fn id_content<'a>(content: &'a [u8]) -> Option<Option<BitField<'a>>>
    ensures { option_map (option_map bit_view) result ≡ bits_in content.now }
{
    match der_tree::bits_of(content) {
        Some((unused, octets)) => Some(Some(BitField { unused, octets })),
        None => None,
    }
}

/// A unique identifier, or none.
fn id_of<'a>(element: Option<AnyField<'a>>) -> Option<Option<BitField<'a>>>
    ensures { option_map (option_map bit_view) result ≡ id_in (option_map any_view element.entry) }
{
    match element {
        None => Some(None),
        Some(element) => {
            if element.constructed {
                None
            } else {
                id_content(element.content)
            }
        }
    }
}

/// Identifiers with version 2 or 3 only, extensions with version 3 only (RFC 5280, 4.1.2.8 and 4.1.2.9).
fn fits_version(
    version: u8,
    issuer_id: Option<BitField<'_>>,
    subject_id: Option<BitField<'_>>,
    extensions: &[ExtField<'_>],
) -> bool
    ensures { result ≡ fits_version version (option_map bit_view issuer_id.entry) (option_map bit_view subject_id.entry) (map ext_view extensions.now) }
{
    (issuer_id.is_none() || version > VERSION_1)
        && (subject_id.is_none() || version > VERSION_1)
        && (extensions.is_empty() || version == VERSION_3)
}

/// The fields of the certificate that the object is.
pub(crate) fn certificate_of<'a>(
    alloc: Global,
    object: &AnyField<'a>,
) -> Result<CertFields<'a>, Stop>
    requires { IsObject 50 (tree_of (any_view object.now)) }
    ensures { Settles result (λ f. AreCertificateFields (certificate_view f) × (certificate_octets (certificate_view f) ≡ octets (tree_of (any_view object.now))))
        (NoCertificate (octets (tree_of (any_view object.now)))) }
{
    let signed = signed_certificate(alloc, object)?;
    let version = version_of(signed.tbs.version).ok_or(Stop::Other)?;
    let issuer_id = id_of(signed.tbs.issuer_id).ok_or(Stop::Other)?;
    let subject_id = id_of(signed.tbs.subject_id).ok_or(Stop::Other)?;
    let extensions = extensions_in(alloc, signed.tbs.extensions)?;
    if !fits_version(version, issuer_id, subject_id, &extensions) {
        return Err(Stop::Other);
    }
    Ok(CertFields {
        version,
        serial: signed.tbs.serial,
        signature: signed.tbs.signature,
        issuer: signed.tbs.issuer,
        not_before: signed.tbs.not_before,
        not_after: signed.tbs.not_after,
        subject: signed.tbs.subject,
        key: signed.tbs.key,
        issuer_id,
        subject_id,
        extensions,
        algorithm: signed.algorithm,
        signature_value: signed.signature_value,
    })
}
