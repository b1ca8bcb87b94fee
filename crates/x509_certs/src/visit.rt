//! `CertVisit`, a step of a walk over a certificate, and the trait that takes such steps.

use crate::tbs::TbsCertificate;
use asn1_core::{Err as Refusal, Error};
use asn1_values::BitString;
use x509_ext::types::{
    AuthorityInfoAccess, AuthorityKeyIdentifier, BasicConstraints, CRLDistributionPoints,
    CertificatePolicies, ExtendedKeyUsage, InhibitAnyPolicy, IssuerAlternativeName, KeyIdentifier,
    KeyUsage, NSCertType, NameConstraints, PolicyConstraints, PolicyMappings,
    SignedCertificateTimestamp, SubjectAlternativeName,
};
use x509_ext::{UniqueIdentifier, X509Extension, X509Version};
use x509_names::{AlgorithmIdentifier, SubjectPublicKeyInfo, X509Name};
use x509_time::Validity;

/// A step of a walk over a certificate with the part that it is about: a variant for each method of
/// `X509CertificateVisitor`.
#[derive(Clone, Copy)]
pub enum CertVisit<'v, 'a> {
    /// The signed part, before its fields.
    VisitTbsCertificate(&'v TbsCertificate<'a>),
    /// The version (RFC 5280, 4.1.2.1), `V1` if the field is absent.
    VisitVersion(&'v X509Version),
    /// The content octets of the serial number (RFC 5280, 4.1.2.2), as they are encoded.
    VisitSerialNumber(&'v [u8]),
    /// The algorithm in the signed part (RFC 5280, 4.1.2.3).
    VisitTbsSignatureAlgorithm(&'v AlgorithmIdentifier<'a>),
    /// The issuer's name (RFC 5280, 4.1.2.4). No signature is verified.
    VisitIssuer(&'v X509Name<'a>),
    /// The validity period (RFC 5280, 4.1.2.5).
    VisitValidity(&'v Validity),
    /// The subject's name (RFC 5280, 4.1.2.6).
    VisitSubject(&'v X509Name<'a>),
    /// The subject's public key and its algorithm (RFC 5280, 4.1.2.7).
    VisitSubjectPublicKeyInfo(&'v SubjectPublicKeyInfo<'a>),
    /// The issuer's unique identifier (RFC 5280, 4.1.2.8), or `None`.
    VisitIssuerUniqueId(Option<&'v UniqueIdentifier<'a>>),
    /// The subject's unique identifier (RFC 5280, 4.1.2.8), or `None`.
    VisitSubjectUniqueId(Option<&'v UniqueIdentifier<'a>>),
    /// All extensions, before the steps for each of them.
    PreVisitExtensions(&'v [X509Extension<'a>]),
    /// One extension, before the step for its kind.
    VisitExtension(&'v X509Extension<'a>),
    /// An authorityKeyIdentifier (RFC 5280, 4.2.1.1).
    VisitExtensionAki(&'v AuthorityKeyIdentifier<'a>),
    /// A subjectKeyIdentifier (RFC 5280, 4.2.1.2).
    VisitExtensionSki(&'v KeyIdentifier<'a>),
    /// A keyUsage (RFC 5280, 4.2.1.3).
    VisitExtensionKeyUsage(&'v KeyUsage),
    /// A certificatePolicies (RFC 5280, 4.2.1.4).
    VisitExtensionCertificatePolicies(&'v CertificatePolicies<'a>),
    /// A policyMappings (RFC 5280, 4.2.1.5).
    VisitExtensionPolicyMappings(&'v PolicyMappings<'a>),
    /// A subjectAltName (RFC 5280, 4.2.1.6).
    VisitExtensionSubjectAlternativeName(&'v SubjectAlternativeName<'a>),
    /// An issuerAltName (RFC 5280, 4.2.1.7).
    VisitExtensionIssuerAlternativeName(&'v IssuerAlternativeName<'a>),
    /// A basicConstraints (RFC 5280, 4.2.1.9).
    VisitExtensionBasicConstraints(&'v BasicConstraints),
    /// A nameConstraints (RFC 5280, 4.2.1.10).
    VisitExtensionNameConstraints(&'v NameConstraints<'a>),
    /// A policyConstraints (RFC 5280, 4.2.1.11).
    VisitExtensionPolicyConstraints(&'v PolicyConstraints),
    /// An extKeyUsage (RFC 5280, 4.2.1.12).
    VisitExtensionExtendedKeyUsage(&'v ExtendedKeyUsage<'a>),
    /// A cRLDistributionPoints (RFC 5280, 4.2.1.13).
    VisitExtensionCrlDistributionPoints(&'v CRLDistributionPoints<'a>),
    /// An inhibitAnyPolicy (RFC 5280, 4.2.1.14).
    VisitExtensionInhibitAnypolicy(&'v InhibitAnyPolicy),
    /// An authorityInfoAccess (RFC 5280, 4.2.2.1).
    VisitExtensionAuthorityInformationAccess(&'v AuthorityInfoAccess<'a>),
    /// A Netscape certificate type.
    VisitExtensionNscertType(&'v NSCertType),
    /// A Netscape comment.
    VisitExtensionNscertComment(&'v str),
    /// A list of signed certificate timestamps (RFC 6962, 3.3).
    VisitExtensionSct(&'v [SignedCertificateTimestamp<'a>]),
    /// An extension with a known identifier and a malformed value, and the error.
    VisitExtensionParseError(&'v X509Extension<'a>, &'v Refusal<Error>),
    /// An extension of another kind, or whose value wasn't parsed.
    VisitExtensionUnknown(&'v X509Extension<'a>),
    /// All extensions, after the steps for each of them.
    PostVisitExtensions(&'v [X509Extension<'a>]),
    /// The algorithm beside the signature (RFC 5280, 4.1.1.2).
    VisitSignatureAlgorithm(&'v AlgorithmIdentifier<'a>),
    /// The signature's bits (RFC 5280, 4.1.1.3). No signature is verified.
    VisitSignatureValue(&'v BitString<'a>),
}

/// Takes the steps of a walk over a certificate, one a part. Implement it to see all steps by one
/// method; [`X509CertificateVisitor`] has a method for each kind.
pub trait CertVisits {
    ghost use Rattle.x509_certs.specs.Visits.{Call, call_of};

    /// The relation of states before and after a step. It depends on the type alone.
    ghost sees: { Self → Call → Self → Type 0 };

    /// Takes one step.
    fn visit(&mut self, call: CertVisit<'_, '_>)
        ensures { sees self.old (call_of call.entry) self.new };
}
