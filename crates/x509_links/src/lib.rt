//! Laws that tie strict encodings to the lenient readers: these read every strictly encoded
//! certificate and list with equal fields, whether extension values are parsed or not.
#![tactic(auto)]

mod laws;

pub use crate::laws::{
    certificate_from_der, either_parser, example_items, list_from_der, one_time, strict_algorithm,
    strict_certificate, strict_key, strict_list, strict_name, strict_time,
};
pub use x509_certs::{
    UniqueIdentifier, X509Certificate, X509CertificateParser, X509Extension, X509Version,
};
pub use x509_lists::{
    CertificateRevocationList, CertificateRevocationListParser, RevokedCertificate,
};
