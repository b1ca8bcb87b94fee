//! `ParsedExtension`, the parsed value of an extension.

ghost use Rattle.std.specs.Prelude.{◌≡◌, ◌↔◌, IsTrue, IfOk, option_map};
ghost use Rattle.x509_ext_parse.specs.Cases.{IsUnsupported, error_of};
ghost use Rattle.x509_ext_parse.specs.View.{parsed_view};

use crate::types::{
    AuthorityInfoAccess, AuthorityKeyIdentifier, BasicConstraints, CRLDistributionPoints,
    CertificatePolicies, ExtendedKeyUsage, InhibitAnyPolicy, IssuerAlternativeName,
    IssuingDistributionPoint, KeyIdentifier, KeyUsage, NSCertType, NameConstraints,
    PolicyConstraints, PolicyMappings, ReasonCode, SignedCertificateTimestamp,
    SubjectAlternativeName, SubjectInfoAccess, copy_all,
};
use asn1_core::{Err as Refusal, Error, OutOfMemory};
use asn1_oid::Oid;
use asn1_unsigned::UnsignedBytes;
use std::alloc::Global;
use x509_ext_basic::ASN1Time;

/// The parsed value of an extension, a variant for each known identifier.
#[derive(Debug, Drop, PartialEq, Eq)]
pub enum ParsedExtension<'a> {
    /// The identifier is unknown.
    UnsupportedExtension {
        /// The unknown identifier.
        oid: Oid<'a>,
    },
    /// The identifier is known, and the value is malformed.
    ParseError {
        /// The reader's error; never out of memory.
        error: Refusal<Error>,
    },
    /// An authorityKeyIdentifier (RFC 5280, 4.2.1.1).
    AuthorityKeyIdentifier(AuthorityKeyIdentifier<'a>),
    /// A subjectKeyIdentifier (RFC 5280, 4.2.1.2).
    SubjectKeyIdentifier(KeyIdentifier<'a>),
    /// A keyUsage (RFC 5280, 4.2.1.3).
    KeyUsage(KeyUsage),
    /// A certificatePolicies (RFC 5280, 4.2.1.4).
    CertificatePolicies(CertificatePolicies<'a>),
    /// A policyMappings (RFC 5280, 4.2.1.5).
    PolicyMappings(PolicyMappings<'a>),
    /// A subjectAltName (RFC 5280, 4.2.1.6).
    SubjectAlternativeName(SubjectAlternativeName<'a>),
    /// An issuerAltName (RFC 5280, 4.2.1.7).
    IssuerAlternativeName(IssuerAlternativeName<'a>),
    /// A basicConstraints (RFC 5280, 4.2.1.9).
    BasicConstraints(BasicConstraints),
    /// A nameConstraints (RFC 5280, 4.2.1.10).
    NameConstraints(NameConstraints<'a>),
    /// A policyConstraints (RFC 5280, 4.2.1.11).
    PolicyConstraints(PolicyConstraints),
    /// An extKeyUsage (RFC 5280, 4.2.1.12).
    ExtendedKeyUsage(ExtendedKeyUsage<'a>),
    /// A cRLDistributionPoints (RFC 5280, 4.2.1.13).
    CRLDistributionPoints(CRLDistributionPoints<'a>),
    /// An inhibitAnyPolicy (RFC 5280, 4.2.1.14).
    InhibitAnyPolicy(InhibitAnyPolicy),
    /// An authorityInfoAccess (RFC 5280, 4.2.2.1).
    AuthorityInfoAccess(AuthorityInfoAccess<'a>),
    /// A subjectInfoAccess (RFC 5280, 4.2.2.2).
    SubjectInfoAccess(SubjectInfoAccess<'a>),
    /// A Netscape certificate type.
    NSCertType(NSCertType),
    /// A Netscape comment.
    NsCertComment(&'a str),
    /// An issuingDistributionPoint (RFC 5280, 5.2.5).
    IssuingDistributionPoint(IssuingDistributionPoint<'a>),
    /// A cRLNumber (RFC 5280, 5.2.3).
    CRLNumber(UnsignedBytes<'a>),
    /// A reasonCode (RFC 5280, 5.3.1).
    ReasonCode(ReasonCode),
    /// An invalidityDate (RFC 5280, 5.3.2).
    InvalidityDate(ASN1Time),
    /// A list of signed certificate timestamps (RFC 6962, 3.3).
    SCT(Vec<SignedCertificateTimestamp<'a>>),
    /// The value wasn't parsed, since the parser was set not to.
    Unparsed,
}

impl<'a> ParsedExtension<'a> {
    /// Whether the extension's identifier is unknown.
    pub fn unsupported(&self) -> bool
        ensures { IsTrue result ↔ IsUnsupported self.now }
    {
        match self {
            ParsedExtension::UnsupportedExtension { .. } => true,
            _ => false,
        }
    }

    /// The error of a malformed value, or `None`.
    pub fn error(&self) -> Option<&Refusal<Error>>
        ensures { option_map (λ e. e.now) result ≡ error_of self.now }
    {
        match self {
            ParsedExtension::ParseError { error } => Some(error),
            _ => None,
        }
    }

    /// A copy that borrows the same octets as the value.
    ///
    /// # Errors
    ///
    /// Out of memory, for copied vectors.
    pub fn clone(&self, alloc: Global) -> Result<ParsedExtension<'a>, OutOfMemory>
        ensures value { IfOk result (λ copy. parsed_view copy ≡ parsed_view self.now) }
        ensures error { IfOk result (λ copy. error_of copy ≡ error_of self.now) }
    {
        let copy = match self {
            ParsedExtension::UnsupportedExtension { oid } => ParsedExtension::UnsupportedExtension {
                oid: oid.clone(alloc)?,
            },
            ParsedExtension::ParseError { error } => ParsedExtension::ParseError { error: *error },
            ParsedExtension::AuthorityKeyIdentifier(value) =>
                ParsedExtension::AuthorityKeyIdentifier(value.clone(alloc)?),
            ParsedExtension::PolicyMappings(value) => ParsedExtension::PolicyMappings(value.clone(
                alloc,
            )?),
            ParsedExtension::SubjectAlternativeName(value) =>
                ParsedExtension::SubjectAlternativeName(value.clone(alloc)?),
            ParsedExtension::IssuerAlternativeName(value) => ParsedExtension::IssuerAlternativeName(
                value.clone(alloc)?,
            ),
            ParsedExtension::NameConstraints(value) => ParsedExtension::NameConstraints(value.clone(
                alloc,
            )?),
            ParsedExtension::ExtendedKeyUsage(value) => ParsedExtension::ExtendedKeyUsage(
                value.clone(alloc)?,
            ),
            ParsedExtension::CRLDistributionPoints(value) => ParsedExtension::CRLDistributionPoints(
                value.clone(alloc)?,
            ),
            ParsedExtension::AuthorityInfoAccess(value) => ParsedExtension::AuthorityInfoAccess(
                value.clone(alloc)?,
            ),
            ParsedExtension::SubjectInfoAccess(value) => ParsedExtension::SubjectInfoAccess(
                value.clone(alloc)?,
            ),
            ParsedExtension::IssuingDistributionPoint(value) =>
                ParsedExtension::IssuingDistributionPoint(value.clone(alloc)?),
            ParsedExtension::KeyUsage(value) => ParsedExtension::KeyUsage(*value),
            ParsedExtension::NSCertType(value) => ParsedExtension::NSCertType(*value),
            ParsedExtension::NsCertComment(value) => ParsedExtension::NsCertComment(*value),
            ParsedExtension::CRLNumber(value) => ParsedExtension::CRLNumber(*value),
            ParsedExtension::ReasonCode(value) => ParsedExtension::ReasonCode(*value),
            ParsedExtension::InvalidityDate(value) => ParsedExtension::InvalidityDate(*value),
            ParsedExtension::CertificatePolicies(values) => ParsedExtension::CertificatePolicies(
                copy_all(alloc, values.as_slice())?,
            ),
            ParsedExtension::SCT(values) => ParsedExtension::SCT(copy_all(
                alloc,
                values.as_slice(),
            )?),
            ParsedExtension::SubjectKeyIdentifier(key) => ParsedExtension::SubjectKeyIdentifier(
                KeyIdentifier(key.0),
            ),
            ParsedExtension::BasicConstraints(value) => ParsedExtension::BasicConstraints(
                BasicConstraints {
                    ca: value.ca,
                    path_len_constraint: value.path_len_constraint,
                },
            ),
            ParsedExtension::PolicyConstraints(value) => ParsedExtension::PolicyConstraints(
                PolicyConstraints {
                    require_explicit_policy: value.require_explicit_policy,
                    inhibit_policy_mapping: value.inhibit_policy_mapping,
                },
            ),
            ParsedExtension::InhibitAnyPolicy(value) => ParsedExtension::InhibitAnyPolicy(
                InhibitAnyPolicy {
                    skip_certs: value.skip_certs,
                },
            ),
            ParsedExtension::Unparsed => ParsedExtension::Unparsed,
        };
        Ok(copy)
    }
}
