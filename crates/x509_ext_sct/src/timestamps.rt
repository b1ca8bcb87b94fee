//! Signed certificate timestamps: promises of logs to publish a certificate (RFC 6962, 3).

use asn1_core::OutOfMemory;
use std::alloc::Global;
use x509_items::Copies;

/// The version of the protocol (RFC 6962, 3.2).
#[derive(Clone, Copy, Debug, PartialEq, Eq)]
pub struct CtVersion(pub u8);

impl CtVersion {
    /// Version 1, encoded as 0.
    pub const V1: CtVersion = CtVersion(0);
}

/// The identifier of a log (RFC 6962, 3.2).
#[derive(Clone, Debug, Drop, PartialEq, Eq)]
pub struct CtLogID<'a> {
    /// The SHA-256 digest of the log's public key.
    pub key_id: &'a [u8; 32],
}

/// Extensions of a timestamp (RFC 6962, 3.2).
#[derive(Clone, Debug, Drop, PartialEq, Eq)]
pub struct CtExtensions<'a>(pub &'a [u8]);

/// A signature with its algorithms (RFC 5246, 4.7). It isn't verified.
#[derive(Clone, Debug, Drop, PartialEq, Eq)]
pub struct DigitallySigned<'a> {
    /// The hash algorithm.
    pub hash_alg_id: u8,
    /// The signature algorithm.
    pub sign_alg_id: u8,
    /// The octets of the signature.
    pub content: &'a [u8],
}

/// A signed certificate timestamp (RFC 6962, 3.2).
#[derive(Clone, Debug, Drop, PartialEq, Eq)]
pub struct SignedCertificateTimestamp<'a> {
    /// The version of the protocol.
    pub version: CtVersion,
    /// The log that issued it.
    pub id: CtLogID<'a>,
    /// The time of issue, in milliseconds since the beginning of 1970.
    pub timestamp: u64,
    /// Its extensions.
    pub extensions: CtExtensions<'a>,
    /// The log's signature.
    pub signature: DigitallySigned<'a>,
}

impl<'a> Copies for SignedCertificateTimestamp<'a> {
    ghost use Rattle.x509_ext_sct.specs.Values as values;
    ghost use Rattle.x509_ext_sct.specs.View.{timestamp_view};

    ghost Value = { values.SignedCertificateTimestamp };

    ghost value = { timestamp_view };

    fn copy(&self, _alloc: Global) -> Result<SignedCertificateTimestamp<'a>, OutOfMemory> {
        Ok(SignedCertificateTimestamp {
            version: self.version,
            id: CtLogID {
                key_id: self.id.key_id,
            },
            timestamp: self.timestamp,
            extensions: CtExtensions(self.extensions.0),
            signature: DigitallySigned {
                hash_alg_id: self.signature.hash_alg_id,
                sign_alg_id: self.signature.sign_alg_id,
                content: self.signature.content,
            },
        })
    }
}
