//! `parse_extension`, which parses a value by the identifier of its extension.

ghost use Rattle.std.specs.Prelude.{◌≡◌, IfOk};
ghost use Rattle.x509_ext_parse.specs.Values.{Parsed};
ghost use Rattle.x509_ext_parse.specs.Cases.{HoldsFault, HoldsFaultOf, HoldsNoMemory};
ghost use Rattle.x509_ext_parse.specs.Parsed.{IsParsed};
ghost use Rattle.x509_ext_parse.specs.Reading.{or_error, value_in, deeply};
ghost use Rattle.x509_ext_parse.specs.View.{HasCountedElements, parsed_view};

use crate::kind::{Kind, kind_of};
use crate::parsed::ParsedExtension;
use crate::{flags, general, leaves, others};
use asn1_core::OutOfMemory;
use asn1_oid::Oid;
use std::alloc::Global;

fn parse_kind<'a>(
    alloc: Global,
    kind: Kind,
    value: &'a [u8],
) -> Result<ParsedExtension<'a>, OutOfMemory>
    ensures read { IfOk result (λ p. parsed_view p ≡ or_error (value_in kind value.now)) }
    ensures counted { IfOk result HasCountedElements }
    ensures memory { IfOk result HoldsNoMemory }
    ensures fault { IfOk result (HoldsFaultOf kind value.now) }
{
    match kind {
        Kind::SubjectKeyIdentifier => flags::subject_key_identifier(alloc, value),
        Kind::KeyUsage => flags::key_usage(alloc, value),
        Kind::SubjectAlternativeName => general::subject_alternative_name(alloc, value),
        Kind::IssuerAlternativeName => general::issuer_alternative_name(alloc, value),
        Kind::BasicConstraints => leaves::basic_constraints(alloc, value),
        Kind::CRLNumber => leaves::crl_number(value),
        Kind::ReasonCode => leaves::reason_code(value),
        Kind::InvalidityDate => leaves::invalidity_date(value),
        Kind::IssuingDistributionPoint => others::issuing_distribution_point(alloc, value),
        Kind::NameConstraints => general::name_constraints(alloc, value),
        Kind::CRLDistributionPoints => others::crl_distribution_points(alloc, value),
        Kind::CertificatePolicies => others::certificate_policies(alloc, value),
        Kind::PolicyMappings => others::policy_mappings(alloc, value),
        Kind::AuthorityKeyIdentifier => general::authority_key_identifier(alloc, value),
        Kind::PolicyConstraints => flags::policy_constraints(alloc, value),
        Kind::ExtendedKeyUsage => others::extended_key_usage(alloc, value),
        Kind::InhibitAnyPolicy => flags::inhibit_any_policy(alloc, value),
        Kind::AuthorityInfoAccess => general::authority_info_access(alloc, value),
        Kind::SubjectInfoAccess => general::subject_info_access(alloc, value),
        Kind::SCT => others::sct(alloc, value),
        Kind::NSCertType => flags::ns_cert_type(alloc, value),
        Kind::NsCertComment => leaves::ns_cert_comment(value),
    }
}

#[tactic(auto, unfolding(crate::specs::Reading::deeply))]
fn read_deeply<'a>(
    alloc: Global,
    oid: &Oid<'a>,
    value: &'a [u8],
) -> Result<ParsedExtension<'a>, OutOfMemory>
    ensures exact { IfOk result (λ p. parsed_view p ≡ deeply oid.now value.now) }
    ensures counted { IfOk result HasCountedElements }
    ensures memory { IfOk result HoldsNoMemory }
    ensures fault { IfOk result (HoldsFault oid.now value.now) }
{
    match kind_of(oid.as_bytes()) {
        Some(kind) => parse_kind(alloc, kind, value),
        None => {
            let oid = oid.clone(alloc)?;
            Ok(ParsedExtension::UnsupportedExtension { oid })
        }
    }
}

/// Parses the value of an extension with this identifier. Octets after the value are ignored. A
/// malformed value of a known identifier is `ParseError`, with the reader's error; an unknown
/// identifier is `UnsupportedExtension`.
///
/// # Errors
///
/// Out of memory, and nothing else.
pub fn parse_extension<'a>(
    alloc: Global,
    oid: &Oid<'a>,
    value: &'a [u8],
) -> Result<ParsedExtension<'a>, OutOfMemory>
    ensures exact { IfOk result (λ p. parsed_view p ≡ deeply oid.now value.now) }
    ensures counted { IfOk result HasCountedElements }
    ensures memory { IfOk result HoldsNoMemory }
    ensures fault { IfOk result (HoldsFault oid.now value.now) }
    ensures found { IfOk result (λ p. IsParsed oid.now value.now (parsed_view p)) }
    ensures only { (parsed : Parsed) → IsParsed oid.now value.now parsed → IfOk result (λ p. parsed_view p ≡ parsed) }
{
    read_deeply(alloc, oid, value)
}
