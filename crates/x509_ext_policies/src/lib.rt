//! Policies, policy mappings and extended key usages, with their readers (RFC 5280, 4.2.1.4,
//! 4.2.1.5 and 4.2.1.12). Unless a type says otherwise, octets that remain in the content of a
//! SEQUENCE are ignored.
#![tactic(auto)]

mod grouping;
mod mappings;
mod maps;
mod policies;
mod purposes;

pub use crate::grouping::add_to_group;
pub use crate::mappings::{PolicyMapping, PolicyMappings};
pub use crate::policies::{
    CertificatePolicies, PolicyInformation, PolicyQualifierInfo, certificate_policies,
};
pub use crate::purposes::ExtendedKeyUsage;
