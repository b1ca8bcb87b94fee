//! Certificates and their parsers (RFC 5280, 4.1).

pub use x509_certs::{
    TbsCertificate, TbsCertificateParser, X509Certificate, X509CertificateParser,
    laws as certificate_laws,
};
pub use x509_ext::{BasicExtension, UniqueIdentifier};
pub use x509_time::{Validity, validity_function};
