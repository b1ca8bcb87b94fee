//! `SignatureAlgorithm`, the kinds of signature algorithms (RFC 3279, 2.2; RFC 8017, appendix C;
//! RFC 8410, 3).

ghost use Rattle.std.specs.Prelude.{◌≡◌, IfOk, IfErr, IfSome, IsSomeAnd};
ghost use Rattle.asn1_any.specs.Views.{any_of};
ghost use Rattle.x509_names.specs.View.{algorithm_view};
ghost use Rattle.x509_algorithms.specs.Answers.{OkElseMemory, IsOrMemory, IsUnsigned};
ghost use Rattle.x509_algorithms.specs.Parameters.{PssOf};
ghost use Rattle.x509_algorithms.specs.Signatures.{IsPss, IsPlain, IsSignature};
ghost use Rattle.x509_algorithms.specs.Values as values;
ghost use Rattle.x509_algorithms.specs.View.{IsCountedPss, IsCountedSignature, pss_view, signature_view};

use crate::oaep::RsaAesOaepParams;
use crate::pss::RsaSsaPssParams;
use asn1_any::Any;
use asn1_oid::Oid;
use std::alloc::Global;
use x509_core::X509Error;
use x509_names::AlgorithmIdentifier;

/// pkcs-1, 1.2.840.113549.1.1.
const PKCS_1: &[u8] = b"\x2a\x86\x48\x86\xf7\x0d\x01\x01";

/// id-RSASSA-PSS, 1.2.840.113549.1.1.10.
const RSASSA_PSS: &[u8] = b"\x2a\x86\x48\x86\xf7\x0d\x01\x01\x0a";

/// ansi-X9-62 signatures, 1.2.840.10045.4.
const ANSI_X962_SIGNATURES: &[u8] = b"\x2a\x86\x48\xce\x3d\x04";

/// X9.57 algorithms, 1.2.840.10040.4.
const X9_57: &[u8] = b"\x2a\x86\x48\xce\x38\x04";

/// id-Ed25519, 1.3.101.112.
const ED25519: &[u8] = b"\x2b\x65\x70";

/// A kind of signature algorithm.
#[derive(Debug, Drop, PartialEq, Eq)]
pub enum SignatureAlgorithm<'a> {
    /// RSASSA-PKCS1-v1_5 with a hash, and any other identifier below pkcs-1.
    RSA,
    /// RSASSA-PSS (RFC 8017, 8.1).
    RSASSA_PSS(RsaSsaPssParams<'a>),
    /// RSAES-OAEP (RFC 8017, 7.1). It doesn't sign, and `try_from` never returns it.
    RSAAES_OAEP(RsaAesOaepParams<'a>),
    /// DSA with a hash (RFC 3279, 2.2.2).
    DSA,
    /// ECDSA with a hash (RFC 3279, 2.2.3).
    ECDSA,
    /// Ed25519 (RFC 8410, 3).
    ED25519,
}

impl<'a> SignatureAlgorithm<'a> {
    /// The kind of an algorithm, by its identifier and, for RSASSA-PSS, by its parameters.
    ///
    /// # Errors
    ///
    /// `InvalidSignatureValue` for an unknown identifier, and for RSASSA-PSS without parameters or
    /// with malformed ones; `OutOfMemory` while these are read.
    pub fn try_from(
        alloc: Global,
        algorithm: &AlgorithmIdentifier<'a>,
    ) -> Result<SignatureAlgorithm<'a>, X509Error>
        ensures counted { IfOk result IsCountedSignature }
        ensures found { IfOk result (λ s. IsSignature (algorithm_view algorithm.now) (signature_view s)) }
        ensures only { (v : values.SignatureAlgorithm) → IsSignature (algorithm_view algorithm.now) v
            → OkElseMemory result (λ s. signature_view s ≡ v) }
        ensures refused { IfErr result (IsUnsigned (algorithm_view algorithm.now)) }
    {
        match plain_kind(&algorithm.algorithm) {
            Some(kind) => Ok(kind),
            None => match pss_kind(alloc, algorithm) {
                Ok(parameters) => Ok(SignatureAlgorithm::RSASSA_PSS(parameters)),
                Err(e) => Err(e),
            },
        }
    }
}

/// The kind of an identifier without parameters.
fn plain_kind<'a>(identifier: &Oid<'_>) -> Option<SignatureAlgorithm<'a>>
    ensures counted { IfSome result IsCountedSignature }
    ensures found { IfSome result (λ s. IsPlain identifier.now (signature_view s)) }
    ensures only { (v : values.SignatureAlgorithm) → IsPlain identifier.now v → IsSomeAnd result (λ s. signature_view s ≡ v) }
{
    if identifier.as_bytes() == RSASSA_PSS {
        return None;
    }
    if identifier.starts_with(&Oid::new(PKCS_1)) {
        return Some(SignatureAlgorithm::RSA);
    }
    if identifier.starts_with(&Oid::new(ANSI_X962_SIGNATURES)) {
        return Some(SignatureAlgorithm::ECDSA);
    }
    if identifier.starts_with(&Oid::new(X9_57)) {
        return Some(SignatureAlgorithm::DSA);
    }
    if identifier.as_bytes() == ED25519 {
        return Some(SignatureAlgorithm::ED25519);
    }
    None
}

/// The kind RSASSA-PSS with its parameters; `None` for another algorithm, or if they are absent or
/// malformed.
fn pss_kind<'a>(
    alloc: Global,
    algorithm: &AlgorithmIdentifier<'a>,
) -> Result<RsaSsaPssParams<'a>, X509Error>
    ensures counted { IfOk result IsCountedPss }
    ensures found { IfOk result (λ p. IsPss (algorithm_view algorithm.now) (pss_view p)) }
    ensures only { (v : values.RsaSsaPssParams) → IsPss (algorithm_view algorithm.now) v → OkElseMemory result (λ p. pss_view p ≡ v) }
    ensures refused { IfErr result (IsUnsigned (algorithm_view algorithm.now)) }
{
    if algorithm.algorithm.as_bytes() != RSASSA_PSS {
        return Err(X509Error::InvalidSignatureValue);
    }
    let Some(any) = algorithm.parameters else {
        return Err(X509Error::InvalidSignatureValue);
    };
    readable(alloc, any)
}

/// Reads the parameters in an element.
fn readable<'a>(alloc: Global, any: Any<'a>) -> Result<RsaSsaPssParams<'a>, X509Error>
    ensures counted { IfOk result IsCountedPss }
    ensures found { IfOk result (λ p. PssOf (any_of any.entry) (pss_view p)) }
    ensures only { (v : values.RsaSsaPssParams) → PssOf (any_of any.entry) v → OkElseMemory result (λ p. pss_view p ≡ v) }
    ensures refused { IfErr result (IsOrMemory X509Error.InvalidSignatureValue) }
{
    match RsaSsaPssParams::try_from(alloc, any) {
        Ok(parameters) => Ok(parameters),
        Err(e) => Err(unreadable(e)),
    }
}

/// `InvalidSignatureValue` in place of any error but out of memory.
fn unreadable(e: X509Error) -> X509Error
    ensures memory { e ≡ X509Error.OutOfMemory → result ≡ X509Error.OutOfMemory }
    ensures refused { IsOrMemory X509Error.InvalidSignatureValue result }
{
    match e {
        X509Error::OutOfMemory => X509Error::OutOfMemory,
        _ => X509Error::InvalidSignatureValue,
    }
}
