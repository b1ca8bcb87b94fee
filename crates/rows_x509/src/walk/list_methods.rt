//! Each method of a visitor of lists, recorded.

use crate::walk::record::Record;
use asn1_core::{Err as Refusal, Error};
use asn1_unsigned::UnsignedBytes;
use asn1_values::BitString;
use x509_ext::types::{
    AuthorityInfoAccess, AuthorityKeyIdentifier, IssuerAlternativeName, IssuingDistributionPoint,
    ReasonCode, SignedCertificateTimestamp,
};
use x509_ext::{X509Extension, X509Version};
use x509_names::{AlgorithmIdentifier, X509Name};
use x509_parser::revocation_list::{RevokedCertificate, TbsCertList};
use x509_parser::visitor::CertificateRevocationListVisitor;
use x509_time::ASN1Time;

impl CertificateRevocationListVisitor for Record {
    fn visit_tbs_cert_list(&mut self, _tbs: &TbsCertList<'_>) {
        self.call("visit_tbs_cert_list");
    }

    fn visit_signature_algorithm(&mut self, it: &AlgorithmIdentifier<'_>) {
        self.call_with_oid("visit_signature_algorithm", &it.algorithm);
    }

    fn visit_signature_value(&mut self, signature: &BitString<'_>) {
        self.call_with_octets("visit_signature_value", signature.content);
    }

    fn visit_version(&mut self, version: Option<&X509Version>) {
        match version {
            Some(version) => self.call_with_version("visit_version", version),
            None => self.call("visit_version absent"),
        }
    }

    fn visit_tbs_signature_algorithm(&mut self, it: &AlgorithmIdentifier<'_>) {
        self.call_with_oid("visit_tbs_signature_algorithm", &it.algorithm);
    }

    fn visit_issuer(&mut self, name: &X509Name<'_>) {
        self.call_with_name("visit_issuer", name);
    }

    fn visit_this_update(&mut self, time: &ASN1Time) {
        self.call_at("visit_this_update", time);
    }

    fn visit_next_update(&mut self, time: Option<&ASN1Time>) {
        match time {
            Some(time) => self.call_at("visit_next_update", time),
            None => self.call("visit_next_update absent"),
        }
    }

    fn visit_revoked_certificates(&mut self, certificates: &[RevokedCertificate<'_>]) {
        self.call_with_count("visit_revoked_certificates", certificates.len());
    }

    fn visit_revoked_certificate(&mut self, certificate: &RevokedCertificate<'_>) {
        self.call_with_octets("visit_revoked_certificate", certificate.raw_serial());
    }

    fn pre_visit_extensions(&mut self, extensions: &[X509Extension<'_>]) {
        self.call_with_count("pre_visit_extensions", extensions.len());
    }

    fn visit_extension(&mut self, extension: &X509Extension<'_>) {
        self.call_with_oid("visit_extension", &extension.oid);
    }

    fn post_visit_extensions(&mut self, extensions: &[X509Extension<'_>]) {
        self.call_with_count("post_visit_extensions", extensions.len());
    }

    fn visit_extension_aki(&mut self, _aki: &AuthorityKeyIdentifier<'_>) {
        self.call("visit_extension_aki");
    }

    fn visit_extension_issuer_alternative_name(&mut self, _ian: &IssuerAlternativeName<'_>) {
        self.call("visit_extension_issuer_alternative_name");
    }

    fn visit_extension_crl_number(&mut self, number: &UnsignedBytes<'_>) {
        self.call_with_octets("visit_extension_crl_number", number.as_bytes());
    }

    fn visit_extension_issuing_distribution_point(&mut self, _dp: &IssuingDistributionPoint<'_>) {
        self.call("visit_extension_issuing_distribution_point");
    }

    fn visit_extension_authority_information_access(&mut self, _info: &AuthorityInfoAccess<'_>) {
        self.call("visit_extension_authority_information_access");
    }

    fn visit_extension_reason_code(&mut self, code: &ReasonCode) {
        self.call_with("visit_extension_reason_code", code);
    }

    fn visit_extension_invalidity_date(&mut self, time: &ASN1Time) {
        self.call_at("visit_extension_invalidity_date", time);
    }

    fn visit_extension_sct(&mut self, sct: &[SignedCertificateTimestamp<'_>]) {
        self.call_with_count("visit_extension_sct", sct.len());
    }

    fn visit_extension_unknown(&mut self, ext: &X509Extension<'_>) {
        self.call_with_oid("visit_extension_unknown", &ext.oid);
    }

    fn visit_extension_parse_error(
        &mut self,
        extension: &X509Extension<'_>,
        _error: &Refusal<Error>,
    ) {
        self.call_with_oid("visit_extension_parse_error", &extension.oid);
    }
}
