//! Certificates (RFC 5280, 4.1). Reading is lenient: octets that remain in the content of a
//! SEQUENCE after its known fields are ignored.
#![tactic(auto)]

mod certificate;
mod getters;
pub mod laws;
mod maps;
mod parser;
mod tbs;
mod visit;
mod visitor;
mod walk;

pub use crate::certificate::X509Certificate;
pub use crate::parser::{
    TbsCertificateParser, X509CertificateParser, parse_x509_certificate, parse_x509_der,
};
pub use crate::tbs::TbsCertificate;
pub use crate::visit::{CertVisit, CertVisits};
pub use crate::visitor::X509CertificateVisitor;
pub use x509_ext::{ParsedExtension, UniqueIdentifier, X509Extension, X509Version};
