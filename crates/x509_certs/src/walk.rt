//! Walks over certificates: a step for each part, in the order of the encoding.

ghost use Rattle.std.specs.Prelude.{◌≡◌};
ghost use Rattle.std.specs.List.{FoldsTo};
ghost use Rattle.x509_certs.specs.Visits.{call_of, call_by_kind, calls_of_extension, calls_of_extensions, calls_of_tbs, calls_of_certificate};

use crate::certificate::X509Certificate;
use crate::tbs::TbsCertificate;
use crate::visit::{CertVisit, CertVisits};
use x509_ext::{ParsedExtension, X509Extension};

/// The step for the kind of value that the extension was parsed as.
fn visit_by_kind<'v, 'a>(extension: &'v X509Extension<'a>) -> CertVisit<'v, 'a>
    ensures { call_of result ≡ call_by_kind extension.now extension.now.parsed_extension }
{
    match extension.parsed_extension() {
        ParsedExtension::AuthorityKeyIdentifier(aki) => CertVisit::VisitExtensionAki(aki),
        ParsedExtension::SubjectKeyIdentifier(id) => CertVisit::VisitExtensionSki(id),
        ParsedExtension::KeyUsage(usage) => CertVisit::VisitExtensionKeyUsage(usage),
        ParsedExtension::CertificatePolicies(policies) =>
            CertVisit::VisitExtensionCertificatePolicies(policies),
        ParsedExtension::PolicyMappings(mappings) => CertVisit::VisitExtensionPolicyMappings(
            mappings,
        ),
        ParsedExtension::SubjectAlternativeName(names) =>
            CertVisit::VisitExtensionSubjectAlternativeName(names),
        ParsedExtension::IssuerAlternativeName(names) =>
            CertVisit::VisitExtensionIssuerAlternativeName(names),
        ParsedExtension::BasicConstraints(constraints) => CertVisit::VisitExtensionBasicConstraints(
            constraints,
        ),
        ParsedExtension::NameConstraints(constraints) => CertVisit::VisitExtensionNameConstraints(
            constraints,
        ),
        ParsedExtension::PolicyConstraints(constraints) =>
            CertVisit::VisitExtensionPolicyConstraints(constraints),
        ParsedExtension::ExtendedKeyUsage(usage) => CertVisit::VisitExtensionExtendedKeyUsage(
            usage,
        ),
        ParsedExtension::CRLDistributionPoints(points) =>
            CertVisit::VisitExtensionCrlDistributionPoints(points),
        ParsedExtension::InhibitAnyPolicy(policy) => CertVisit::VisitExtensionInhibitAnypolicy(
            policy,
        ),
        ParsedExtension::AuthorityInfoAccess(info) =>
            CertVisit::VisitExtensionAuthorityInformationAccess(info),
        ParsedExtension::NSCertType(kind) => CertVisit::VisitExtensionNscertType(kind),
        ParsedExtension::NsCertComment(comment) => CertVisit::VisitExtensionNscertComment(comment),
        ParsedExtension::SCT(timestamps) => CertVisit::VisitExtensionSct(timestamps.as_slice()),
        ParsedExtension::ParseError { error } => CertVisit::VisitExtensionParseError(
            &*extension,
            error,
        ),
        _ => CertVisit::VisitExtensionUnknown(&*extension),
    }
}

fn walk_extension<V: CertVisits>(extension: &X509Extension<'_>, visits: &mut V)
    ensures { FoldsTo V.sees visits.old (calls_of_extension extension.now) visits.new }
{
    visits.visit(CertVisit::VisitExtension(&*extension));
    visits.visit(visit_by_kind(extension));
}

fn walk_extensions<V: CertVisits>(extensions: &[X509Extension<'_>], visits: &mut V)
    ensures { FoldsTo V.sees visits.old (calls_of_extensions extensions.now) visits.new }
{
    for extension in extensions {
        walk_extension(extension, visits);
    }
}

impl<'a> TbsCertificate<'a> {
    /// Takes a step for each part of the signed part; for each extension two: one for the
    /// extension, then one for its kind.
    #[tactic(auto, using(crate::proofs::Seen::seen_then))]
    pub fn walk_visits<V: CertVisits>(&self, visits: &mut V)
        ensures { FoldsTo V.sees visits.old (calls_of_tbs self.now) visits.new }
    {
        visits.visit(CertVisit::VisitVersion(&self.version));
        visits.visit(CertVisit::VisitSerialNumber(self.raw_serial()));
        visits.visit(CertVisit::VisitTbsSignatureAlgorithm(&self.signature));
        visits.visit(CertVisit::VisitIssuer(&self.issuer));
        visits.visit(CertVisit::VisitValidity(&self.validity));
        visits.visit(CertVisit::VisitSubject(&self.subject));
        visits.visit(CertVisit::VisitSubjectPublicKeyInfo(&self.subject_pki));
        visits.visit(CertVisit::VisitIssuerUniqueId(self.issuer_uid.as_ref()));
        visits.visit(CertVisit::VisitSubjectUniqueId(self.subject_uid.as_ref()));
        visits.visit(CertVisit::PreVisitExtensions(self.extensions()));
        walk_extensions(self.extensions(), visits);
        visits.visit(CertVisit::PostVisitExtensions(self.extensions()));
    }
}

impl<'a> X509Certificate<'a> {
    /// Takes a step for the signed part, those of its parts, and those for the signature algorithm
    /// and the signature.
    pub fn walk_visits<V: CertVisits>(&self, visits: &mut V)
        ensures { FoldsTo V.sees visits.old (calls_of_certificate self.now) visits.new }
    {
        visits.visit(CertVisit::VisitTbsCertificate(&self.tbs_certificate));
        self.tbs_certificate.walk_visits(visits);
        visits.visit(CertVisit::VisitSignatureAlgorithm(&self.signature_algorithm));
        visits.visit(CertVisit::VisitSignatureValue(&self.signature_value));
    }
}
