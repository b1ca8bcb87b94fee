//! Certification requests (RFC 2986, 4).

pub use x509_requests::{
    RequestedExtensions, X509CertificationRequest, X509CertificationRequestInfo,
};
