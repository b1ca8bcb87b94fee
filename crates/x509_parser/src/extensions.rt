//! Extensions (RFC 5280, 4.2), and the types of their values.

pub use x509_ext::types::{
    AccessDescription, AuthorityInfoAccess, AuthorityKeyIdentifier, BasicConstraints,
    CRLDistributionPoint, CRLDistributionPoints, CertificatePolicies, CtExtensions, CtLogID,
    CtVersion, DigitallySigned, DistributionPointName, ExtendedKeyUsage, GeneralName,
    GeneralSubtree, InhibitAnyPolicy, IssuerAlternativeName, IssuingDistributionPoint,
    KeyIdentifier, KeyUsage, NSCertType, NameConstraints, PolicyConstraints, PolicyInformation,
    PolicyMapping, PolicyMappings, PolicyQualifierInfo, ReasonFlags, SignedCertificateTimestamp,
    SubjectAlternativeName, SubjectInfoAccess,
};
pub use x509_ext::{ParsedExtension, X509Extension, X509ExtensionParser};
pub use x509_ext_sct::{
    parse_ct_signed_certificate_timestamp, parse_ct_signed_certificate_timestamp_list,
};
