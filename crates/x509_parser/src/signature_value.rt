//! Values of signatures (RFC 3279, 2.2.3).

pub use x509_algorithms::EcdsaSigValue;
