//! `ListVisit`, a step of a walk over a revocation list, and the trait that takes such steps.

ghost use Rattle.x509_lists.specs.Visits.{Call, call_of};

use crate::entry::RevokedCertificate;
use crate::tbs::TbsCertList;
use asn1_core::{Err as Refusal, Error};
use asn1_unsigned::UnsignedBytes;
use asn1_values::BitString;
use x509_ext::types::{
    AuthorityInfoAccess, AuthorityKeyIdentifier, IssuerAlternativeName, IssuingDistributionPoint,
    ReasonCode, SignedCertificateTimestamp,
};
use x509_ext::{X509Extension, X509Version};
use x509_names::{AlgorithmIdentifier, X509Name};
use x509_time::ASN1Time;

/// A step of a walk over a list with the part that it is about: a variant for each method of
/// `CertificateRevocationListVisitor`.
#[derive(Clone, Copy)]
pub enum ListVisit<'v, 'a> {
    /// The signed part, before its fields.
    VisitTbsCertList(&'v TbsCertList<'a>),
    /// The version (RFC 5280, 5.1.2.1), or `None` if the field is absent.
    VisitVersion(Option<&'v X509Version>),
    /// The algorithm in the signed part (RFC 5280, 5.1.2.2).
    VisitTbsSignatureAlgorithm(&'v AlgorithmIdentifier<'a>),
    /// The issuer's name (RFC 5280, 5.1.2.3). No signature is verified.
    VisitIssuer(&'v X509Name<'a>),
    /// The issue date, `thisUpdate` (RFC 5280, 5.1.2.4).
    VisitThisUpdate(&'v ASN1Time),
    /// The date by which the next list is issued, `nextUpdate` (RFC 5280, 5.1.2.5), or `None` if
    /// the field is absent.
    VisitNextUpdate(Option<&'v ASN1Time>),
    /// All entries, before the steps for each of them.
    VisitRevokedCertificates(&'v [RevokedCertificate<'a>]),
    /// One entry. Its extensions have no steps of their own.
    VisitRevokedCertificate(&'v RevokedCertificate<'a>),
    /// All extensions, before those for each of them.
    PreVisitExtensions(&'v [X509Extension<'a>]),
    /// One extension, before the step for its kind.
    VisitExtension(&'v X509Extension<'a>),
    /// All extensions, after those for each of them.
    PostVisitExtensions(&'v [X509Extension<'a>]),
    /// An authorityKeyIdentifier (RFC 5280, 5.2.1).
    VisitExtensionAki(&'v AuthorityKeyIdentifier<'a>),
    /// An issuerAltName (RFC 5280, 5.2.2).
    VisitExtensionIssuerAlternativeName(&'v IssuerAlternativeName<'a>),
    /// A cRLNumber (RFC 5280, 5.2.3).
    VisitExtensionCrlNumber(&'v UnsignedBytes<'a>),
    /// An issuingDistributionPoint (RFC 5280, 5.2.5).
    VisitExtensionIssuingDistributionPoint(&'v IssuingDistributionPoint<'a>),
    /// An authorityInfoAccess (RFC 5280, 5.2.7).
    VisitExtensionAuthorityInformationAccess(&'v AuthorityInfoAccess<'a>),
    /// A reasonCode (RFC 5280, 5.3.1).
    VisitExtensionReasonCode(&'v ReasonCode),
    /// An invalidityDate (RFC 5280, 5.3.2).
    VisitExtensionInvalidityDate(&'v ASN1Time),
    /// A list of signed certificate timestamps (RFC 6962, 3.3).
    VisitExtensionSct(&'v [SignedCertificateTimestamp<'a>]),
    /// An extension of another kind, or whose value wasn't parsed.
    VisitExtensionUnknown(&'v X509Extension<'a>),
    /// An extension with a known identifier and a malformed value, and the error.
    VisitExtensionParseError(&'v X509Extension<'a>, &'v Refusal<Error>),
    /// The algorithm that the signature is made with (RFC 5280, 5.1.1.2).
    VisitSignatureAlgorithm(&'v AlgorithmIdentifier<'a>),
    /// The signature's bits (RFC 5280, 5.1.1.3). No signature is verified.
    VisitSignatureValue(&'v BitString<'a>),
}

/// Takes the steps of a walk over a list, one a part. Implement it to see all steps by one method;
/// [`CertificateRevocationListVisitor`] has a method for each kind.
pub trait ListVisits {
    /// The relation of states before and after a step. It depends on the type alone.
    ghost sees: { Self → Call → Self → Type 0 };

    /// Takes one step.
    fn visit(&mut self, call: ListVisit<'_, '_>)
        ensures { sees self.old (call_of call.entry) self.new };
}
