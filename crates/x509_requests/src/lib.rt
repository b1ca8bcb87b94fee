//! Certification requests (RFC 2986). Reading is lenient: octets that remain in the content of a
//! SEQUENCE after its known fields are ignored. Values of requested extensions are parsed.
#![tactic(auto)]

mod attribute;
mod attributes;
mod info;
mod maps;
mod parser;
mod request;
mod requested;
mod values;

pub use crate::attribute::{
    ChallengePassword, ExtensionRequest, ParsedCriAttribute, X509CriAttribute,
};
pub use crate::info::X509CertificationRequestInfo;
pub use crate::request::X509CertificationRequest;
pub use crate::requested::RequestedExtensions;
