//! Each method of a visitor, recorded.

use crate::walk::record::Record;
use asn1_core::{Err as Refusal, Error};
use asn1_values::BitString;
use x509_ext::types::{
    AuthorityInfoAccess, AuthorityKeyIdentifier, BasicConstraints, CRLDistributionPoints,
    CertificatePolicies, ExtendedKeyUsage, InhibitAnyPolicy, IssuerAlternativeName, KeyIdentifier,
    KeyUsage, NSCertType, NameConstraints, PolicyConstraints, PolicyMappings,
    SignedCertificateTimestamp, SubjectAlternativeName,
};
use x509_ext::{UniqueIdentifier, X509Extension, X509Version};
use x509_names::{AlgorithmIdentifier, SubjectPublicKeyInfo, X509Name};
use x509_parser::certificate::TbsCertificate;
use x509_parser::visitor::X509CertificateVisitor;
use x509_time::Validity;

impl X509CertificateVisitor for Record {
    fn visit_tbs_certificate(&mut self, _tbs: &TbsCertificate<'_>) {
        self.call("visit_tbs_certificate");
    }

    fn visit_version(&mut self, version: &X509Version) {
        self.call_with_version("visit_version", version);
    }

    fn visit_serial_number(&mut self, serial: &[u8]) {
        self.call_with_octets("visit_serial_number", serial);
    }

    fn visit_tbs_signature_algorithm(&mut self, it: &AlgorithmIdentifier<'_>) {
        self.call_with_oid("visit_tbs_signature_algorithm", &it.algorithm);
    }

    fn visit_issuer(&mut self, name: &X509Name<'_>) {
        self.call_with_name("visit_issuer", name);
    }

    fn visit_validity(&mut self, validity: &Validity) {
        self.call_with_validity("visit_validity", validity);
    }

    fn visit_subject(&mut self, name: &X509Name<'_>) {
        self.call_with_name("visit_subject", name);
    }

    fn visit_subject_public_key_info(&mut self, key: &SubjectPublicKeyInfo<'_>) {
        self.call_with_oid("visit_subject_public_key_info", &key.algorithm.algorithm);
    }

    fn visit_issuer_unique_id(&mut self, id: Option<&UniqueIdentifier<'_>>) {
        self.call_with_id("visit_issuer_unique_id", id);
    }

    fn visit_subject_unique_id(&mut self, id: Option<&UniqueIdentifier<'_>>) {
        self.call_with_id("visit_subject_unique_id", id);
    }

    fn pre_visit_extensions(&mut self, extensions: &[X509Extension<'_>]) {
        self.call_with_count("pre_visit_extensions", extensions.len());
    }

    fn visit_extension(&mut self, extension: &X509Extension<'_>) {
        self.call_with_oid("visit_extension", &extension.oid);
    }

    fn visit_extension_aki(&mut self, _aki: &AuthorityKeyIdentifier<'_>) {
        self.call("visit_extension_aki");
    }

    fn visit_extension_ski(&mut self, _id: &KeyIdentifier<'_>) {
        self.call("visit_extension_ski");
    }

    fn visit_extension_key_usage(&mut self, _usage: &KeyUsage) {
        self.call("visit_extension_key_usage");
    }

    fn visit_extension_certificate_policies(&mut self, _policies: &CertificatePolicies<'_>) {
        self.call("visit_extension_certificate_policies");
    }

    fn visit_extension_policy_mappings(&mut self, _mappings: &PolicyMappings<'_>) {
        self.call("visit_extension_policy_mappings");
    }

    fn visit_extension_subject_alternative_name(&mut self, _names: &SubjectAlternativeName<'_>) {
        self.call("visit_extension_subject_alternative_name");
    }

    fn visit_extension_issuer_alternative_name(&mut self, _names: &IssuerAlternativeName<'_>) {
        self.call("visit_extension_issuer_alternative_name");
    }

    fn visit_extension_basic_constraints(&mut self, _constraints: &BasicConstraints) {
        self.call("visit_extension_basic_constraints");
    }

    fn visit_extension_name_constraints(&mut self, _constraints: &NameConstraints<'_>) {
        self.call("visit_extension_name_constraints");
    }

    fn visit_extension_policy_constraints(&mut self, _constraints: &PolicyConstraints) {
        self.call("visit_extension_policy_constraints");
    }

    fn visit_extension_extended_key_usage(&mut self, _usage: &ExtendedKeyUsage<'_>) {
        self.call("visit_extension_extended_key_usage");
    }

    fn visit_extension_crl_distribution_points(&mut self, _points: &CRLDistributionPoints<'_>) {
        self.call("visit_extension_crl_distribution_points");
    }

    fn visit_extension_inhibit_anypolicy(&mut self, _policy: &InhibitAnyPolicy) {
        self.call("visit_extension_inhibit_anypolicy");
    }

    fn visit_extension_authority_information_access(&mut self, _info: &AuthorityInfoAccess<'_>) {
        self.call("visit_extension_authority_information_access");
    }

    fn visit_extension_nscert_type(&mut self, _kind: &NSCertType) {
        self.call("visit_extension_nscert_type");
    }

    fn visit_extension_nscert_comment(&mut self, comment: &str) {
        self.call_with("visit_extension_nscert_comment", &comment);
    }

    fn visit_extension_sct(&mut self, timestamps: &[SignedCertificateTimestamp<'_>]) {
        self.call_with_count("visit_extension_sct", timestamps.len());
    }

    fn visit_extension_parse_error(
        &mut self,
        extension: &X509Extension<'_>,
        _error: &Refusal<Error>,
    ) {
        self.call_with_oid("visit_extension_parse_error", &extension.oid);
    }

    fn visit_extension_unknown(&mut self, extension: &X509Extension<'_>) {
        self.call_with_oid("visit_extension_unknown", &extension.oid);
    }

    fn post_visit_extensions(&mut self, extensions: &[X509Extension<'_>]) {
        self.call_with_count("post_visit_extensions", extensions.len());
    }

    fn visit_signature_algorithm(&mut self, it: &AlgorithmIdentifier<'_>) {
        self.call_with_oid("visit_signature_algorithm", &it.algorithm);
    }

    fn visit_signature_value(&mut self, signature: &BitString<'_>) {
        self.call_with_octets("visit_signature_value", signature.content);
    }
}
