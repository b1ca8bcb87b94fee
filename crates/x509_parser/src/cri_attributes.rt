//! Attributes of certification requests (RFC 2986, 4.1; RFC 2985, 5.4).

pub use x509_requests::{
    ChallengePassword, ExtensionRequest, ParsedCriAttribute, X509CriAttribute,
};
