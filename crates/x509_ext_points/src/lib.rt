//! Distribution points of revocation lists, and the scope of a list, with their readers (RFC 5280,
//! 4.2.1.13 and 5.2.5). Malformed fields count as absent, and octets that remain in the content of
//! a SEQUENCE are ignored.
#![tactic(auto)]

mod issuing;
mod name;
mod points;

pub use crate::issuing::{IssuingDistributionPoint, issuing_distribution_point};
pub use crate::name::DistributionPointName;
pub use crate::points::{CRLDistributionPoint, CRLDistributionPoints};
pub use x509_ext_names::{
    AccessDescription, AuthorityInfoAccess, AuthorityKeyIdentifier, CertificatePolicies,
    ExtendedKeyUsage, GeneralName, GeneralSubtree, IssuerAlternativeName, NameConstraints,
    PolicyInformation, PolicyMapping, PolicyMappings, PolicyQualifierInfo, SubjectAlternativeName,
    SubjectInfoAccess, certificate_policies,
};
