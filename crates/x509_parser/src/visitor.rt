//! Visitors, with a method for each part of a certificate or list.

pub use x509_certs::{CertVisit, CertVisits, X509CertificateVisitor};
pub use x509_lists::{CertificateRevocationListVisitor, ListVisit, ListVisits};
