//! Signature algorithms with their parameters, and signature values (RFC 3279, 2.2; RFC 8017, A.2).
//! Reading is lenient.
#![tactic(auto)]

mod ecdsa;
mod mask;
mod oaep;
mod pss;
mod signature;
mod tagged;
mod worked;

pub use crate::ecdsa::EcdsaSigValue;
pub use crate::mask::MaskGenAlgorithm;
pub use crate::oaep::RsaAesOaepParams;
pub use crate::pss::RsaSsaPssParams;
pub use crate::signature::SignatureAlgorithm;
pub use crate::worked::{one_signature, worked_algorithms, worked_parameters};
