//! The mask generation function of RSA parameters (RFC 8017, appendix B.2), and their defaults.

ghost use Rattle.std.specs.Prelude.{◌≡◌, ℕ, List, Some, IfOk, IfErr, IsOkAnd, IfSome, IsSomeAnd, option_map};
ghost use Rattle.x509_core.specs.Answers.{ElseMemory};
ghost use Rattle.x509_core.specs.Fronts.{TakesNoMemory};
ghost use Rattle.x509_core.specs.Grammar.{One};
ghost use Rattle.x509_core.specs.Leaves.{IsOid};
ghost use Rattle.x509_names.specs.View.{algorithm_view};
ghost use Rattle.x509_algorithms.specs.Parameters.{hash_of, IsMaskGen};
ghost use Rattle.x509_algorithms.specs.Values as values;
ghost use Rattle.x509_algorithms.specs.View.{mask_view};

use asn1_oid::Oid;
use x509_core::{X509Error, X509Result};
use x509_items::first_oid;
use x509_names::AlgorithmIdentifier;

/// id-mgf1, 1.2.840.113549.1.1.8.
const MGF1: &[u8] = b"\x2a\x86\x48\x86\xf7\x0d\x01\x01\x08";

/// id-sha1, 1.3.14.3.2.26.
const SHA1: &[u8] = b"\x2b\x0e\x03\x02\x1a";

/// A mask generation function and the hash that it uses.
#[derive(Debug, Drop, PartialEq, Eq)]
pub struct MaskGenAlgorithm<'a, 'b> {
    /// The identifier of the function.
    pub mgf: Oid<'a>,
    /// The identifier of the hash.
    pub hash: Oid<'b>,
}

impl<'a, 'b> MaskGenAlgorithm<'a, 'b> {
    /// Joins a function and a hash.
    pub fn new(mgf: Oid<'a>, hash: Oid<'b>) -> MaskGenAlgorithm<'a, 'b>
        ensures { result ≡ record { mgf = mgf.entry; hash = hash.entry } }
    {
        MaskGenAlgorithm { mgf, hash }
    }
}

/// The identifier of the algorithm, SHA-1 by default.
pub(crate) fn hash_identifier<'b>(algorithm: &'b Option<AlgorithmIdentifier<'_>>) -> Oid<'b>
    ensures { result ≡ hash_of (option_map algorithm_view algorithm.now) }
{
    match algorithm {
        Some(algorithm) => Oid::new(algorithm.oid().as_bytes()),
        None => Oid::new(SHA1),
    }
}

/// Reads the OBJECT IDENTIFIER at the front of the content of parameters. Returns `(rest,
/// identifier)`.
fn oid_within<'a>(content: &'a [u8]) -> X509Result<'a, Oid<'a>>
    ensures memory { IfErr result TakesNoMemory }
    ensures found { IfOk result (λ r. One IsOid content.now r.1 r.0.now) }
    ensures only { (hash left : List ℕ) → One IsOid content.now hash left → ElseMemory result (λ r. (r.1 ≡ hash) × (r.0.now ≡ left)) }
{
    first_oid(content)
}

fn hash_within<'a>(content: &'a [u8]) -> Option<Oid<'a>>
    ensures found { IfSome result (λ hash. (left : List ℕ) × One IsOid content.now hash left) }
    ensures only { (hash left : List ℕ) → One IsOid content.now hash left → IsSomeAnd result (λ oid. oid ≡ hash) }
{
    match oid_within(content) {
        Ok((_, hash)) => Some(hash),
        Err(_) => None,
    }
}

fn told_mask<'a, 'b>(
    algorithm: &'b AlgorithmIdentifier<'a>,
) -> Result<MaskGenAlgorithm<'b, 'a>, X509Error>
    ensures found { IfOk result (λ m. IsMaskGen (Some (algorithm_view algorithm.now)) (mask_view m)) }
    ensures only { (v : values.MaskGenAlgorithm) → IsMaskGen (Some (algorithm_view algorithm.now)) v
        → IsOkAnd result (λ m. mask_view m ≡ v) }
    ensures refused { IfErr result (λ e. e ≡ X509Error.InvalidAlgorithmIdentifier) }
{
    let Some(any) = algorithm.parameters else {
        return Err(X509Error::InvalidAlgorithmIdentifier);
    };
    match hash_within(any.content) {
        Some(hash) => {
            let mgf = Oid::new(algorithm.algorithm.as_bytes());
            Ok(MaskGenAlgorithm { mgf, hash })
        }
        None => Err(X509Error::InvalidAlgorithmIdentifier),
    }
}

/// The function with its hash, from the algorithm and its parameters; MGF1 with SHA-1 by default.
pub(crate) fn mask_of<'a, 'b>(
    algorithm: &'b Option<AlgorithmIdentifier<'a>>,
) -> Result<MaskGenAlgorithm<'b, 'a>, X509Error>
    ensures found { IfOk result (λ m. IsMaskGen (option_map algorithm_view algorithm.now) (mask_view m)) }
    ensures only { (v : values.MaskGenAlgorithm) → IsMaskGen (option_map algorithm_view algorithm.now) v
        → IsOkAnd result (λ m. mask_view m ≡ v) }
    ensures refused { IfErr result (λ e. e ≡ X509Error.InvalidAlgorithmIdentifier) }
{
    match algorithm {
        Some(algorithm) => told_mask(algorithm),
        None => Ok(MaskGenAlgorithm::new(Oid::new(MGF1), Oid::new(SHA1))),
    }
}
