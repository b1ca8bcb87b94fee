//! Revocation lists and their parsers (RFC 5280, 5.1).

pub use x509_lists::{
    CertificateRevocationList, CertificateRevocationListParser, RevokedCertificate, TbsCertList,
    laws as list_laws,
};
