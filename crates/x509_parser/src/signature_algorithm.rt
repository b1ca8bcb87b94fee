//! Algorithms of signatures, and the parameters of RSA's (RFC 3279, 2.2; RFC 8017, A.2).

pub use x509_algorithms::{
    MaskGenAlgorithm, RsaAesOaepParams, RsaSsaPssParams, SignatureAlgorithm, one_signature,
    worked_algorithms, worked_parameters,
};
