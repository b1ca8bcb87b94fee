//! Public keys by their kinds.

pub use x509_names::{ECPoint, PublicKey, RSAPublicKey};
