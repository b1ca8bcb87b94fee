//! General names, and extension values that consist of them (RFC 5280, 4.2.1.1, 4.2.1.6, 4.2.1.7,
//! 4.2.1.10 and 4.2.2), with their readers. Unless a type says otherwise, octets that remain in the
//! content of a SEQUENCE are ignored.
#![tactic(auto)]

mod access;
mod alternative;
mod constraints;
mod general_name;
mod identifiers;
mod maps;
mod text;

pub use crate::access::{AccessDescription, AuthorityInfoAccess, SubjectInfoAccess};
pub use crate::alternative::{
    IssuerAlternativeName, SubjectAlternativeName, general_names, next_some_names,
};
pub use crate::constraints::{GeneralSubtree, NameConstraints};
pub use crate::general_name::GeneralName;
pub use crate::identifiers::AuthorityKeyIdentifier;
pub use x509_ext_flags::{ReasonFlags, RelativeDistinguishedName, reasons_of};
pub use x509_ext_policies::{
    CertificatePolicies, ExtendedKeyUsage, PolicyInformation, PolicyMapping, PolicyMappings,
    PolicyQualifierInfo, certificate_policies,
};
