//! Certificate revocation lists (RFC 5280, 5.1). Reading is lenient: octets that remain in the
//! content of a SEQUENCE after its known fields are ignored. Extension values of lists and entries
//! are parsed unless the parser is set not to.
#![tactic(auto)]

mod entries;
mod entry;
pub mod laws;
mod list;
mod maps;
mod parser;
mod tbs;
mod visit;
mod visitor;
mod walk;

pub use crate::entry::RevokedCertificate;
pub use crate::list::CertificateRevocationList;
pub use crate::parser::{CertificateRevocationListParser, parse_crl_der, parse_x509_crl};
pub use crate::tbs::TbsCertList;
pub use crate::visit::{ListVisit, ListVisits};
pub use crate::visitor::CertificateRevocationListVisitor;
