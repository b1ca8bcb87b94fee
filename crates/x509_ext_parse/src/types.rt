//! The types of the values of extensions (RFC 5280, 4.2, 5.2 and 5.3; RFC 6962, 3.3).

pub use x509_ext_basic::{
    BasicConstraints, InhibitAnyPolicy, KeyIdentifier, KeyUsage, NSCertType, PolicyConstraints,
    ReasonCode, ReasonFlags,
};
pub use x509_ext_points::{
    AccessDescription, AuthorityInfoAccess, AuthorityKeyIdentifier, CRLDistributionPoint,
    CRLDistributionPoints, CertificatePolicies, DistributionPointName, ExtendedKeyUsage,
    GeneralName, GeneralSubtree, IssuerAlternativeName, IssuingDistributionPoint, NameConstraints,
    PolicyInformation, PolicyMapping, PolicyMappings, PolicyQualifierInfo, SubjectAlternativeName,
    SubjectInfoAccess, certificate_policies, issuing_distribution_point,
};
pub use x509_ext_sct::{
    CtExtensions, CtLogID, CtVersion, DigitallySigned, SignedCertificateTimestamp,
};
pub use x509_items::{Copies, copy_all, copy_some, format_serial};
