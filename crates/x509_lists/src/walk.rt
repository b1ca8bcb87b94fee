//! What a walk over a list shows, in order (RFC 5280, 5.1).

ghost use Rattle.std.specs.Prelude.{◌≡◌, map};
ghost use Rattle.std.specs.List.{FoldsTo};
ghost use Rattle.x509_lists.specs.Visits.{visit_revoked_certificate, call_of, call_by_kind, calls_of_extension, calls_of_each, calls_of_extensions, calls_of_fields, calls_of_entries, calls_of_tbs_list, calls_of_list};

use crate::entry::RevokedCertificate;
use crate::list::CertificateRevocationList;
use crate::tbs::TbsCertList;
use crate::visit::{ListVisit, ListVisits};
use x509_ext::{ParsedExtension, X509Extension};

/// Each entry.
fn walk_each_entry<V: ListVisits>(entries: &[RevokedCertificate<'_>], visits: &mut V)
    ensures { FoldsTo V.sees visits.old (map visit_revoked_certificate entries.now) visits.new }
{
    for entry in entries {
        visits.visit(ListVisit::VisitRevokedCertificate(entry));
    }
}

/// All entries, and then each.
fn walk_entries<V: ListVisits>(entries: &[RevokedCertificate<'_>], visits: &mut V)
    ensures { FoldsTo V.sees visits.old (calls_of_entries entries.now) visits.new }
{
    visits.visit(ListVisit::VisitRevokedCertificates(entries));
    walk_each_entry(entries, visits);
}

/// The step for the kind of value that the extension was parsed as.
fn visit_by_kind<'v, 'a>(extension: &'v X509Extension<'a>) -> ListVisit<'v, 'a>
    ensures { call_of result ≡ call_by_kind extension.now extension.now.parsed_extension }
{
    match extension.parsed_extension() {
        ParsedExtension::AuthorityKeyIdentifier(aki) => ListVisit::VisitExtensionAki(aki),
        ParsedExtension::IssuerAlternativeName(ian) =>
            ListVisit::VisitExtensionIssuerAlternativeName(ian),
        ParsedExtension::CRLNumber(number) => ListVisit::VisitExtensionCrlNumber(number),
        ParsedExtension::IssuingDistributionPoint(dp) =>
            ListVisit::VisitExtensionIssuingDistributionPoint(dp),
        ParsedExtension::AuthorityInfoAccess(info) =>
            ListVisit::VisitExtensionAuthorityInformationAccess(info),
        ParsedExtension::ReasonCode(code) => ListVisit::VisitExtensionReasonCode(code),
        ParsedExtension::InvalidityDate(time) => ListVisit::VisitExtensionInvalidityDate(time),
        ParsedExtension::SCT(sct) => ListVisit::VisitExtensionSct(sct.as_slice()),
        ParsedExtension::ParseError { error } => ListVisit::VisitExtensionParseError(
            extension, error,
        ),
        _ => ListVisit::VisitExtensionUnknown(extension),
    }
}

/// The extension, and then what it was parsed as.
fn walk_extension<V: ListVisits>(extension: &X509Extension<'_>, visits: &mut V)
    ensures { FoldsTo V.sees visits.old (calls_of_extension extension.now) visits.new }
{
    visits.visit(ListVisit::VisitExtension(extension));
    visits.visit(visit_by_kind(extension));
}

fn walk_each_extension<V: ListVisits>(extensions: &[X509Extension<'_>], visits: &mut V)
    ensures { FoldsTo V.sees visits.old (calls_of_each extensions.now) visits.new }
{
    for extension in extensions {
        walk_extension(extension, visits);
    }
}

/// All extensions, then each, and then all again.
#[tactic(auto, using(crate::proofs::Seen::seen_then))]
fn walk_extensions<V: ListVisits>(extensions: &[X509Extension<'_>], visits: &mut V)
    ensures { FoldsTo V.sees visits.old (calls_of_extensions extensions.now) visits.new }
{
    visits.visit(ListVisit::PreVisitExtensions(extensions));
    walk_each_extension(extensions, visits);
    visits.visit(ListVisit::PostVisitExtensions(extensions));
}

/// Shows the fields before the entries (RFC 5280, 5.1.2).
fn walk_fields<V: ListVisits>(tbs: &TbsCertList<'_>, visits: &mut V)
    ensures { FoldsTo V.sees visits.old (calls_of_fields tbs.now) visits.new }
{
    visits.visit(ListVisit::VisitVersion(tbs.version.as_ref()));
    visits.visit(ListVisit::VisitTbsSignatureAlgorithm(&tbs.signature));
    visits.visit(ListVisit::VisitIssuer(&tbs.issuer));
    visits.visit(ListVisit::VisitThisUpdate(&tbs.this_update));
    visits.visit(ListVisit::VisitNextUpdate(tbs.next_update.as_ref()));
}

impl<'a> TbsCertList<'a> {
    /// Shows the parts of the signed part in order: the fields before the entries, the entries and
    /// the extensions (RFC 5280, 5.1.2).
    pub fn walk_visits<V: ListVisits>(&self, visits: &mut V)
        ensures { FoldsTo V.sees visits.old (calls_of_tbs_list self.now) visits.new }
    {
        walk_fields(self, visits);
        walk_entries(self.revoked_certificates.as_slice(), visits);
        walk_extensions(self.extensions(), visits);
    }
}

impl<'a> CertificateRevocationList<'a> {
    /// Shows the signed part, then its parts, and then the algorithm and the signature.
    pub fn walk_visits<V: ListVisits>(&self, visits: &mut V)
        ensures { FoldsTo V.sees visits.old (calls_of_list self.now) visits.new }
    {
        visits.visit(ListVisit::VisitTbsCertList(&self.tbs_cert_list));
        self.tbs_cert_list.walk_visits(visits);
        visits.visit(ListVisit::VisitSignatureAlgorithm(&self.signature_algorithm));
        visits.visit(ListVisit::VisitSignatureValue(&self.signature_value));
    }
}
