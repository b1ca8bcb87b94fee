//! `X509CertificateVisitor`, a method for each part of a certificate, and `walk`.

ghost use Rattle.std.specs.Prelude.{⊤};

use crate::certificate::X509Certificate;
use crate::tbs::TbsCertificate;
use crate::visit::{CertVisit, CertVisits};
use asn1_core::{Err as Refusal, Error};
use asn1_values::BitString;
use x509_ext::types::{
    AuthorityInfoAccess, AuthorityKeyIdentifier, BasicConstraints, CRLDistributionPoints,
    CertificatePolicies, ExtendedKeyUsage, InhibitAnyPolicy, IssuerAlternativeName, KeyIdentifier,
    KeyUsage, NSCertType, NameConstraints, PolicyConstraints, PolicyMappings,
    SignedCertificateTimestamp, SubjectAlternativeName,
};
use x509_ext::{UniqueIdentifier, X509Extension, X509Version};
use x509_names::{AlgorithmIdentifier, SubjectPublicKeyInfo, X509Name};
use x509_time::Validity;

/// Takes the parts of a certificate, each by its own method. A method that isn't implemented does
/// nothing.
///
/// The order is that of `calls_of_certificate`; the contract of `walk_visits` fixes it for
/// [`CertVisits`].
pub trait X509CertificateVisitor {
    /// Calls the methods for each part of a certificate, in the order of the encoding.
    final fn walk(&mut self, x509: &X509Certificate<'_>)
    where
        Self: Sized,
    {
        x509.walk(self);
    }

    /// The signed part, before its own parts.
    fn visit_tbs_certificate(&mut self, _tbs: &TbsCertificate<'_>) {}

    /// The version (RFC 5280, 4.1.2.1), `V1` if the field is absent.
    fn visit_version(&mut self, _version: &X509Version) {}

    /// The content octets of the serial number (RFC 5280, 4.1.2.2), as they are encoded.
    fn visit_serial_number(&mut self, _serial: &[u8]) {}

    /// The algorithm in the signed part (RFC 5280, 4.1.2.3).
    fn visit_tbs_signature_algorithm(&mut self, _algorithm: &AlgorithmIdentifier<'_>) {}

    /// The issuer's name (RFC 5280, 4.1.2.4). No signature is verified.
    fn visit_issuer(&mut self, _name: &X509Name<'_>) {}

    /// The validity period (RFC 5280, 4.1.2.5).
    fn visit_validity(&mut self, _validity: &Validity) {}

    /// The subject's name (RFC 5280, 4.1.2.6).
    fn visit_subject(&mut self, _name: &X509Name<'_>) {}

    /// The subject's public key and its algorithm (RFC 5280, 4.1.2.7).
    fn visit_subject_public_key_info(&mut self, _key: &SubjectPublicKeyInfo<'_>) {}

    /// The issuer's unique identifier (RFC 5280, 4.1.2.8), or `None`.
    fn visit_issuer_unique_id(&mut self, _id: Option<&UniqueIdentifier<'_>>) {}

    /// The subject's unique identifier (RFC 5280, 4.1.2.8), or `None`.
    fn visit_subject_unique_id(&mut self, _id: Option<&UniqueIdentifier<'_>>) {}

    /// All extensions, before the steps for each of them.
    fn pre_visit_extensions(&mut self, _extensions: &[X509Extension<'_>]) {}

    /// One extension; the method for its kind is called next.
    fn visit_extension(&mut self, _extension: &X509Extension<'_>) {}

    /// An authorityKeyIdentifier (RFC 5280, 4.2.1.1).
    fn visit_extension_aki(&mut self, _aki: &AuthorityKeyIdentifier<'_>) {}

    /// A subjectKeyIdentifier (RFC 5280, 4.2.1.2).
    fn visit_extension_ski(&mut self, _id: &KeyIdentifier<'_>) {}

    /// A keyUsage (RFC 5280, 4.2.1.3).
    fn visit_extension_key_usage(&mut self, _usage: &KeyUsage) {}

    /// A certificatePolicies (RFC 5280, 4.2.1.4).
    fn visit_extension_certificate_policies(&mut self, _policies: &CertificatePolicies<'_>) {}

    /// A policyMappings (RFC 5280, 4.2.1.5).
    fn visit_extension_policy_mappings(&mut self, _mappings: &PolicyMappings<'_>) {}

    /// A subjectAltName (RFC 5280, 4.2.1.6).
    fn visit_extension_subject_alternative_name(&mut self, _names: &SubjectAlternativeName<'_>) {}

    /// An issuerAltName (RFC 5280, 4.2.1.7).
    fn visit_extension_issuer_alternative_name(&mut self, _names: &IssuerAlternativeName<'_>) {}

    /// A basicConstraints (RFC 5280, 4.2.1.9).
    fn visit_extension_basic_constraints(&mut self, _constraints: &BasicConstraints) {}

    /// A nameConstraints (RFC 5280, 4.2.1.10).
    fn visit_extension_name_constraints(&mut self, _constraints: &NameConstraints<'_>) {}

    /// A policyConstraints (RFC 5280, 4.2.1.11).
    fn visit_extension_policy_constraints(&mut self, _constraints: &PolicyConstraints) {}

    /// An extKeyUsage (RFC 5280, 4.2.1.12).
    fn visit_extension_extended_key_usage(&mut self, _usage: &ExtendedKeyUsage<'_>) {}

    /// A cRLDistributionPoints (RFC 5280, 4.2.1.13).
    fn visit_extension_crl_distribution_points(&mut self, _points: &CRLDistributionPoints<'_>) {}

    /// An inhibitAnyPolicy (RFC 5280, 4.2.1.14).
    fn visit_extension_inhibit_anypolicy(&mut self, _policy: &InhibitAnyPolicy) {}

    /// An authorityInfoAccess (RFC 5280, 4.2.2.1).
    fn visit_extension_authority_information_access(&mut self, _info: &AuthorityInfoAccess<'_>) {}

    /// A Netscape certificate type.
    fn visit_extension_nscert_type(&mut self, _kind: &NSCertType) {}

    /// A Netscape comment.
    fn visit_extension_nscert_comment(&mut self, _comment: &str) {}

    /// A list of signed certificate timestamps (RFC 6962, 3.3).
    fn visit_extension_sct(&mut self, _timestamps: &[SignedCertificateTimestamp<'_>]) {}

    /// An extension with a known identifier and a malformed value, and the error.
    fn visit_extension_parse_error(
        &mut self,
        _extension: &X509Extension<'_>,
        _error: &Refusal<Error>,
    ) {}

    /// An extension of another kind, or whose value wasn't parsed.
    fn visit_extension_unknown(&mut self, _extension: &X509Extension<'_>) {}

    /// All extensions, after the steps for each of them.
    fn post_visit_extensions(&mut self, _extensions: &[X509Extension<'_>]) {}

    /// The algorithm beside the signature (RFC 5280, 4.1.1.2).
    fn visit_signature_algorithm(&mut self, _algorithm: &AlgorithmIdentifier<'_>) {}

    /// The signature's bits (RFC 5280, 4.1.1.3). No signature is verified.
    fn visit_signature_value(&mut self, _signature: &BitString<'_>) {}
}

/// Adapts a visitor with methods to the trait that takes steps.
#[derive(Drop)]
struct Methods<'m, V> {
    visitor: &'m mut V,
}

impl<'m, V: X509CertificateVisitor> CertVisits for Methods<'m, V> {
    ghost sees = { λ old call new. ⊤ };

    fn visit(&mut self, call: CertVisit<'_, '_>) {
        match call {
            CertVisit::VisitTbsCertificate(tbs) => self.visitor.visit_tbs_certificate(tbs),
            CertVisit::VisitVersion(version) => self.visitor.visit_version(version),
            CertVisit::VisitSerialNumber(serial) => self.visitor.visit_serial_number(serial),
            CertVisit::VisitTbsSignatureAlgorithm(algorithm) => self
                .visitor
                .visit_tbs_signature_algorithm(algorithm),
            CertVisit::VisitIssuer(name) => self.visitor.visit_issuer(name),
            CertVisit::VisitValidity(validity) => self.visitor.visit_validity(validity),
            CertVisit::VisitSubject(name) => self.visitor.visit_subject(name),
            CertVisit::VisitSubjectPublicKeyInfo(key) => self
                .visitor
                .visit_subject_public_key_info(key),
            CertVisit::VisitIssuerUniqueId(id) => self.visitor.visit_issuer_unique_id(id),
            CertVisit::VisitSubjectUniqueId(id) => self.visitor.visit_subject_unique_id(id),
            CertVisit::PreVisitExtensions(extensions) => self
                .visitor
                .pre_visit_extensions(extensions),
            CertVisit::VisitExtension(extension) => self.visitor.visit_extension(extension),
            CertVisit::VisitExtensionAki(aki) => self.visitor.visit_extension_aki(aki),
            CertVisit::VisitExtensionSki(id) => self.visitor.visit_extension_ski(id),
            CertVisit::VisitExtensionKeyUsage(usage) => self
                .visitor
                .visit_extension_key_usage(usage),
            CertVisit::VisitExtensionCertificatePolicies(policies) => self
                .visitor
                .visit_extension_certificate_policies(policies),
            CertVisit::VisitExtensionPolicyMappings(mappings) => self
                .visitor
                .visit_extension_policy_mappings(mappings),
            CertVisit::VisitExtensionSubjectAlternativeName(names) => self
                .visitor
                .visit_extension_subject_alternative_name(names),
            CertVisit::VisitExtensionIssuerAlternativeName(names) => self
                .visitor
                .visit_extension_issuer_alternative_name(names),
            CertVisit::VisitExtensionBasicConstraints(constraints) => self
                .visitor
                .visit_extension_basic_constraints(constraints),
            CertVisit::VisitExtensionNameConstraints(constraints) => self
                .visitor
                .visit_extension_name_constraints(constraints),
            CertVisit::VisitExtensionPolicyConstraints(constraints) => self
                .visitor
                .visit_extension_policy_constraints(constraints),
            CertVisit::VisitExtensionExtendedKeyUsage(usage) => self
                .visitor
                .visit_extension_extended_key_usage(usage),
            CertVisit::VisitExtensionCrlDistributionPoints(points) => self
                .visitor
                .visit_extension_crl_distribution_points(points),
            CertVisit::VisitExtensionInhibitAnypolicy(policy) => self
                .visitor
                .visit_extension_inhibit_anypolicy(policy),
            CertVisit::VisitExtensionAuthorityInformationAccess(info) => self
                .visitor
                .visit_extension_authority_information_access(info),
            CertVisit::VisitExtensionNscertType(kind) => self
                .visitor
                .visit_extension_nscert_type(kind),
            CertVisit::VisitExtensionNscertComment(comment) => self
                .visitor
                .visit_extension_nscert_comment(comment),
            CertVisit::VisitExtensionSct(timestamps) => self
                .visitor
                .visit_extension_sct(timestamps),
            CertVisit::VisitExtensionParseError(extension, error) => self
                .visitor
                .visit_extension_parse_error(extension, error),
            CertVisit::VisitExtensionUnknown(extension) => self
                .visitor
                .visit_extension_unknown(extension),
            CertVisit::PostVisitExtensions(extensions) => self
                .visitor
                .post_visit_extensions(extensions),
            CertVisit::VisitSignatureAlgorithm(algorithm) => self
                .visitor
                .visit_signature_algorithm(algorithm),
            CertVisit::VisitSignatureValue(signature) => self
                .visitor
                .visit_signature_value(signature),
        }
    }
}

impl<'a> TbsCertificate<'a> {
    /// Calls the visitor's methods for each part, in the order of the encoding.
    pub fn walk<V: X509CertificateVisitor>(&self, visitor: &mut V) {
        let mut methods = Methods { visitor };
        self.walk_visits(&mut methods);
    }
}

impl<'a> X509Certificate<'a> {
    /// Calls the visitor's methods for each part, in the order of the encoding.
    pub fn walk<V: X509CertificateVisitor>(&self, visitor: &mut V) {
        let mut methods = Methods { visitor };
        self.walk_visits(&mut methods);
    }
}
