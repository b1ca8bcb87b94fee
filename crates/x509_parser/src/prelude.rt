//! The names that most users need; those of keys and signatures are left out.

pub use crate::certificate::{
    BasicExtension, TbsCertificate, TbsCertificateParser, UniqueIdentifier, Validity,
    X509Certificate, X509CertificateParser,
};
pub use crate::certification_request::{
    RequestedExtensions, X509CertificationRequest, X509CertificationRequestInfo,
};
pub use crate::cri_attributes::{
    ChallengePassword, ExtensionRequest, ParsedCriAttribute, X509CriAttribute,
};
pub use crate::error::{NidError, X509Error, X509Result};
pub use crate::extensions::{
    AccessDescription, AuthorityInfoAccess, AuthorityKeyIdentifier, BasicConstraints,
    CRLDistributionPoint, CRLDistributionPoints, CertificatePolicies, CtExtensions, CtLogID,
    CtVersion, DigitallySigned, DistributionPointName, ExtendedKeyUsage, GeneralName,
    GeneralSubtree, InhibitAnyPolicy, IssuerAlternativeName, IssuingDistributionPoint,
    KeyIdentifier, KeyUsage, NSCertType, NameConstraints, ParsedExtension, PolicyConstraints,
    PolicyInformation, PolicyMapping, PolicyMappings, PolicyQualifierInfo, ReasonFlags,
    SignedCertificateTimestamp, SubjectAlternativeName, SubjectInfoAccess, X509Extension,
    X509ExtensionParser, parse_ct_signed_certificate_timestamp,
    parse_ct_signed_certificate_timestamp_list,
};
pub use crate::objects::{
    OidEntry, OidRegistry, oid_registry, oid2abbrev, oid2description, oid2sn,
};
pub use crate::revocation_list::{
    CertificateRevocationList, CertificateRevocationListParser, RevokedCertificate, TbsCertList,
};
pub use crate::time::ASN1Time;
pub use crate::utils::format_serial;
pub use crate::validate::{
    CallbackLogger, ChainValidator, LogError, Logger, OnError, OnWarning, StderrLogger,
    TbsCertificateStructureValidator, Validate, Validator, VecLogger, WriteSink,
    X509CertificateValidator, X509ExtensionsValidator, X509NameStructureValidator,
    X509PublicKeyValidator, X509StructureValidator,
};
pub use crate::x509::{
    AlgorithmIdentifier, AttributeTypeAndValue, Attributes, AttributesOf, ReasonCode,
    RelativeDistinguishedName, SubjectPublicKeyInfo, X509Name, X509Version,
};
pub use crate::{FromDer, parse_crl_der, parse_x509_certificate, parse_x509_crl, parse_x509_der};
