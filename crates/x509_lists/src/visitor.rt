//! `CertificateRevocationListVisitor`, a method for each part of a list, and `walk`.

ghost use Rattle.std.specs.Prelude.{⊤};

use crate::entry::RevokedCertificate;
use crate::list::CertificateRevocationList;
use crate::tbs::TbsCertList;
use crate::visit::{ListVisit, ListVisits};
use asn1_core::{Err as Refusal, Error};
use asn1_unsigned::UnsignedBytes;
use asn1_values::BitString;
use x509_ext::types::{
    AuthorityInfoAccess, AuthorityKeyIdentifier, IssuerAlternativeName, IssuingDistributionPoint,
    ReasonCode, SignedCertificateTimestamp,
};
use x509_ext::{X509Extension, X509Version};
use x509_names::{AlgorithmIdentifier, X509Name};
use x509_time::ASN1Time;

/// Takes the parts of a list, each by its own method. A method that isn't implemented does nothing.
///
/// For each extension two methods are called: `visit_extension`, then the method for its kind.
pub trait CertificateRevocationListVisitor {
    /// Calls the methods for each part of a list, in the order of the encoding.
    final fn walk(&mut self, crl: &CertificateRevocationList<'_>)
    where
        Self: Sized,
    {
        crl.walk(self);
    }

    /// The signed part, before its fields.
    fn visit_tbs_cert_list(&mut self, _tbs: &TbsCertList<'_>) {}

    /// The algorithm that the signature is made with (RFC 5280, 5.1.1.2).
    fn visit_signature_algorithm(&mut self, _algorithm: &AlgorithmIdentifier<'_>) {}

    /// The signature's bits (RFC 5280, 5.1.1.3). No signature is verified.
    fn visit_signature_value(&mut self, _signature: &BitString<'_>) {}

    /// The version (RFC 5280, 5.1.2.1), or `None` if the field is absent.
    fn visit_version(&mut self, _version: Option<&X509Version>) {}

    /// The algorithm in the signed part (RFC 5280, 5.1.2.2).
    fn visit_tbs_signature_algorithm(&mut self, _algorithm: &AlgorithmIdentifier<'_>) {}

    /// The issuer's name (RFC 5280, 5.1.2.3). No signature is verified.
    fn visit_issuer(&mut self, _name: &X509Name<'_>) {}

    /// The issue date, `thisUpdate` (RFC 5280, 5.1.2.4).
    fn visit_this_update(&mut self, _time: &ASN1Time) {}

    /// The date by which the next list is issued, `nextUpdate` (RFC 5280, 5.1.2.5), or `None` if
    /// the field is absent.
    fn visit_next_update(&mut self, _time: Option<&ASN1Time>) {}

    /// All entries, before the calls for each of them.
    fn visit_revoked_certificates(&mut self, _certificates: &[RevokedCertificate<'_>]) {}

    /// One entry. Its extensions have no steps of their own.
    fn visit_revoked_certificate(&mut self, _certificate: &RevokedCertificate<'_>) {}

    /// All extensions, before those for each of them.
    fn pre_visit_extensions(&mut self, _extensions: &[X509Extension<'_>]) {}

    /// One extension; the method for its kind is called next.
    fn visit_extension(&mut self, _extension: &X509Extension<'_>) {}

    /// All extensions, after those for each of them.
    fn post_visit_extensions(&mut self, _extensions: &[X509Extension<'_>]) {}

    /// An authorityKeyIdentifier (RFC 5280, 5.2.1).
    fn visit_extension_aki(&mut self, _aki: &AuthorityKeyIdentifier<'_>) {}

    /// An issuerAltName (RFC 5280, 5.2.2).
    fn visit_extension_issuer_alternative_name(&mut self, _ian: &IssuerAlternativeName<'_>) {}

    /// A cRLNumber (RFC 5280, 5.2.3).
    fn visit_extension_crl_number(&mut self, _number: &UnsignedBytes<'_>) {}

    /// An issuingDistributionPoint (RFC 5280, 5.2.5).
    fn visit_extension_issuing_distribution_point(&mut self, _dp: &IssuingDistributionPoint<'_>) {}

    /// An authorityInfoAccess (RFC 5280, 5.2.7).
    fn visit_extension_authority_information_access(&mut self, _info: &AuthorityInfoAccess<'_>) {}

    /// A reasonCode (RFC 5280, 5.3.1).
    fn visit_extension_reason_code(&mut self, _code: &ReasonCode) {}

    /// An invalidityDate (RFC 5280, 5.3.2).
    fn visit_extension_invalidity_date(&mut self, _time: &ASN1Time) {}

    /// A list of signed certificate timestamps (RFC 6962, 3.3).
    fn visit_extension_sct(&mut self, _sct: &[SignedCertificateTimestamp<'_>]) {}

    /// An extension of another kind, or whose value wasn't parsed.
    fn visit_extension_unknown(&mut self, _ext: &X509Extension<'_>) {}

    /// An extension with a known identifier and a malformed value, and the error.
    fn visit_extension_parse_error(
        &mut self,
        _extension: &X509Extension<'_>,
        _error: &Refusal<Error>,
    ) {}
}

/// Hands each call to the visitor's method of its name.
#[derive(Drop)]
struct Calls<'m, V> {
    visitor: &'m mut V,
}

impl<'m, V: CertificateRevocationListVisitor> ListVisits for Calls<'m, V> {
    ghost sees = { λ old call new. ⊤ };

    fn visit(&mut self, call: ListVisit<'_, '_>) {
        match call {
            ListVisit::VisitTbsCertList(tbs) => self.visitor.visit_tbs_cert_list(tbs),
            ListVisit::VisitVersion(version) => self.visitor.visit_version(version),
            ListVisit::VisitTbsSignatureAlgorithm(algorithm) => self
                .visitor
                .visit_tbs_signature_algorithm(algorithm),
            ListVisit::VisitIssuer(name) => self.visitor.visit_issuer(name),
            ListVisit::VisitThisUpdate(time) => self.visitor.visit_this_update(time),
            ListVisit::VisitNextUpdate(time) => self.visitor.visit_next_update(time),
            ListVisit::VisitRevokedCertificates(certificates) => self
                .visitor
                .visit_revoked_certificates(certificates),
            ListVisit::VisitRevokedCertificate(certificate) => self
                .visitor
                .visit_revoked_certificate(certificate),
            ListVisit::PreVisitExtensions(extensions) => self
                .visitor
                .pre_visit_extensions(extensions),
            ListVisit::VisitExtension(extension) => self.visitor.visit_extension(extension),
            ListVisit::PostVisitExtensions(extensions) => self
                .visitor
                .post_visit_extensions(extensions),
            ListVisit::VisitExtensionAki(aki) => self.visitor.visit_extension_aki(aki),
            ListVisit::VisitExtensionIssuerAlternativeName(ian) => self
                .visitor
                .visit_extension_issuer_alternative_name(ian),
            ListVisit::VisitExtensionCrlNumber(number) => self
                .visitor
                .visit_extension_crl_number(number),
            ListVisit::VisitExtensionIssuingDistributionPoint(dp) => self
                .visitor
                .visit_extension_issuing_distribution_point(dp),
            ListVisit::VisitExtensionAuthorityInformationAccess(info) => self
                .visitor
                .visit_extension_authority_information_access(info),
            ListVisit::VisitExtensionReasonCode(code) => self
                .visitor
                .visit_extension_reason_code(code),
            ListVisit::VisitExtensionInvalidityDate(time) => self
                .visitor
                .visit_extension_invalidity_date(time),
            ListVisit::VisitExtensionSct(sct) => self.visitor.visit_extension_sct(sct),
            ListVisit::VisitExtensionUnknown(extension) => self
                .visitor
                .visit_extension_unknown(extension),
            ListVisit::VisitExtensionParseError(extension, error) => self
                .visitor
                .visit_extension_parse_error(extension, error),
            ListVisit::VisitSignatureAlgorithm(algorithm) => self
                .visitor
                .visit_signature_algorithm(algorithm),
            ListVisit::VisitSignatureValue(signature) => self
                .visitor
                .visit_signature_value(signature),
        }
    }
}

impl<'a> TbsCertList<'a> {
    /// Calls the visitor's methods for the parts of the signed part, in the order in which `walk_visits` shows them.
    pub fn walk<V: CertificateRevocationListVisitor>(&self, visitor: &mut V) {
        let mut calls = Calls { visitor };
        self.walk_visits(&mut calls);
    }
}

impl<'a> CertificateRevocationList<'a> {
    /// Calls the visitor's methods for the parts of the list, in the order in which `walk_visits` shows them.
    pub fn walk<V: CertificateRevocationListVisitor>(&self, visitor: &mut V) {
        let mut calls = Calls { visitor };
        self.walk_visits(&mut calls);
    }
}
