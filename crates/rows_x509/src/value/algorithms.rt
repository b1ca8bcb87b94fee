//! Rows of algorithms, their parameters and values of signatures.

use crate::kinds::Algorithm;
use crate::words::{Words, add_error, add_made, add_read};
use asn1_any::Any;
use asn1_oid::Oid;
use asn1_traits::FromDer;
use rows_hex::{Added, add_hex};
use x509_algorithms::{
    EcdsaSigValue, MaskGenAlgorithm, RsaAesOaepParams, RsaSsaPssParams, SignatureAlgorithm,
};
use x509_core::{X509Error, X509Result};
use x509_names::AlgorithmIdentifier;

/// Adds what the reader of the type answers.
pub(crate) fn add_algorithm_value(text: &mut String, value: Algorithm, octets: &[u8]) -> Added {
    match value {
        Algorithm::EcdsaSigValue => add_read::<EcdsaSigValue<'_>>(text, octets),
        Algorithm::RsaSsaPssParams => add_read::<RsaSsaPssParams<'_>>(text, octets),
        Algorithm::RsaSsaPssParamsElement => add_pss_element(text, octets),
        Algorithm::RsaAesOaepParams => add_read::<RsaAesOaepParams<'_>>(text, octets),
        Algorithm::RsaAesOaepParamsElement => add_oaep_element(text, octets),
        Algorithm::RsaAesOaepParamsEmpty => add_algorithm(text, &RsaAesOaepParams::empty()),
        Algorithm::SignatureAlgorithm => add_signature_algorithm(text, octets),
    }
}

impl Words for EcdsaSigValue<'_> {
    fn add_words(&self, text: &mut String) -> Added {
        add_hex(text, self.r.content)?;
        text.push_str(", ")?;
        add_hex(text, self.s.content)
    }
}

impl Words for RsaSsaPssParams<'_> {
    fn add_words(&self, text: &mut String) -> Added {
        add_hash(
            text,
            &self.hash_algorithm_oid(),
            self.hash_algorithm().is_none(),
        )?;
        add_mask(text, self.mask_gen_algorithm())?;
        let by_default = by_default(self.mask_gen_algorithm_raw().is_none());
        let salt = self.salt_length();
        write!(
            text,
            "{by_default}, salt {salt}, trailer {}",
            self.trailer_field()
        )
    }
}

impl Words for RsaAesOaepParams<'_> {
    fn add_words(&self, text: &mut String) -> Added {
        add_hash(
            text,
            &self.hash_algorithm_oid(),
            self.hash_algorithm().is_none(),
        )?;
        add_mask(text, self.mask_gen_algorithm())?;
        text.push_str(by_default(self.mask_gen_algorithm_raw().is_none()))?;
        text.push_str(", source ")?;
        add_algorithm(text, &self.p_source_alg())
    }
}

/// Adds the parameters that the element at the front holds.
fn add_pss_element(text: &mut String, octets: &[u8]) -> Added {
    match Any::from_der(octets) {
        Ok((_, any)) => add_made(text, RsaSsaPssParams::try_from(*text.allocator(), any)),
        Err(_) => text.push_str("no element"),
    }
}

/// Adds the parameters that the element at the front holds.
fn add_oaep_element(text: &mut String, octets: &[u8]) -> Added {
    match Any::from_der(octets) {
        Ok((_, any)) => add_made(text, RsaAesOaepParams::try_from(*text.allocator(), any)),
        Err(_) => text.push_str("no element"),
    }
}

/// Adds what the algorithm is that begins the octets.
fn add_signature_algorithm(text: &mut String, octets: &[u8]) -> Added {
    let alloc = *text.allocator();
    let read: X509Result<'_, AlgorithmIdentifier<'_>> = AlgorithmIdentifier::from_der(
        alloc, octets,
    );
    match read {
        Ok((_, algorithm)) => add_made(text, SignatureAlgorithm::try_from(alloc, &algorithm)),
        Err(_) => text.push_str("no algorithm"),
    }
}

impl Words for SignatureAlgorithm<'_> {
    fn add_words(&self, text: &mut String) -> Added {
        match self {
            SignatureAlgorithm::RSA => text.push_str("RSA"),
            SignatureAlgorithm::RSASSA_PSS(value) => {
                text.push_str("RSASSA_PSS, ")?;
                value.add_words(text)
            }
            SignatureAlgorithm::RSAAES_OAEP(value) => {
                text.push_str("RSAAES_OAEP, ")?;
                value.add_words(text)
            }
            SignatureAlgorithm::DSA => text.push_str("DSA"),
            SignatureAlgorithm::ECDSA => text.push_str("ECDSA"),
            SignatureAlgorithm::ED25519 => text.push_str("ED25519"),
        }
    }
}

fn add_hash(text: &mut String, hash: &Oid<'_>, is_default: bool) -> Added {
    write!(text, "hash {hash}{}, mask ", by_default(is_default))
}

fn add_mask(text: &mut String, mask: Result<MaskGenAlgorithm<'_, '_>, X509Error>) -> Added {
    match mask {
        Ok(mask) => write!(text, "{} with {}", mask.mgf, mask.hash),
        Err(error) => add_error(text, &error),
    }
}

fn add_algorithm(text: &mut String, algorithm: &AlgorithmIdentifier<'_>) -> Added {
    let parameters = match algorithm.parameters() {
        Some(_) => "with parameters",
        None => "without parameters",
    };
    write!(text, "{} {parameters}", algorithm.oid())
}

fn by_default(absent: bool) -> &'static str {
    if absent { " by default" } else { "" }
}
