//! `SubjectPublicKeyInfo` (RFC 5280, 4.1.2.7).

ghost use Rattle.std.specs.Prelude.{◌≡◌, ◌+◌, ◌*◌, ◌^◌, ◌<◌, ◌≤◌, ℕ, List, length, IfOk, IfErr, IsOkAnd, Some, option_map};
ghost use Rattle.asn1_core.specs.Counts.{attempts};
ghost use Rattle.asn1_any.specs.CutViews.{piece_of};
ghost use Rattle.x509_core.specs.asn1_traits.specs.Elements.{EndsWithinElement};
ghost use Rattle.x509_core.specs.asn1_traits.specs.Reads.{Reads};
ghost use Rattle.x509_core.specs.Answers.{Gives, ElseMemory, naming};
ghost use Rattle.x509_core.specs.Errors.{told};
ghost use Rattle.x509_core.specs.Grammar.{HoldsWindow};
ghost use Rattle.x509_names.specs.Fields.{Key, KeyValue};
ghost use Rattle.x509_core.specs.Fronts.{TellsMissing, IsWindow, one_rest};
ghost use Rattle.x509_names.specs.Names as grammar;
ghost use Rattle.x509_names.specs.PublicKeys.{IsKeyValue};
ghost use Rattle.x509_names.specs.Reading.{bits_at, key_in, key_at};
ghost use Rattle.x509_names.specs.View.{IsCountedKey, bits_view, key_view, public_key_view};

use crate::algorithm::{AlgorithmIdentifier, next_algorithm};
use crate::leaves::next_bits;
use crate::public_key::{PublicKey, key_value};
use asn1_any::Element;
use asn1_core::{Err as Refusal, HeaderCount, OutOfMemory};
use asn1_values::BitString;
use std::alloc::Global;
use x509_core::{
    DerMeaning, FromDer, Parts, X509Error, X509Result, front_element, named, parts_of,
};

/// A public key with its algorithm (RFC 5280, 4.1.2.7), borrowed from the octets that it was read
/// from.
#[derive(Debug, Drop, PartialEq, Eq)]
pub struct SubjectPublicKeyInfo<'a> {
    /// The algorithm that the key is used with.
    pub algorithm: AlgorithmIdentifier<'a>,
    /// The bits of the key, as the algorithm defines them.
    pub subject_public_key: BitString<'a>,
    /// The encoding of algorithm and key, up to the end of the bits.
    pub raw: &'a [u8],
}

impl<'a> SubjectPublicKeyInfo<'a> {
    /// Parses the key's octets by the identifier of its algorithm. Octets after the value are
    /// ignored; those of an unknown algorithm are returned unparsed.
    ///
    /// # Errors
    ///
    /// `InvalidSPKI` if the octets are no key of the algorithm.
    pub fn parsed(&self) -> Result<PublicKey<'a>, X509Error>
        ensures found { IfOk result (λ k. IsKeyValue self.now.algorithm.algorithm self.now.subject_public_key.content.now (public_key_view k)) }
        ensures only { (v : KeyValue) → IsKeyValue self.now.algorithm.algorithm self.now.subject_public_key.content.now v
            → IsOkAnd result (λ k. public_key_view k ≡ v) }
        ensures refused { IfErr result (λ e. e ≡ X509Error.InvalidSPKI) }
    {
        let identifier = self.algorithm.oid().as_bytes();
        match key_value(identifier, self.subject_public_key.content) {
            Some(key) => Ok(key),
            None => Err(X509Error::InvalidSPKI),
        }
    }

    /// A copy that borrows the same octets as the key.
    ///
    /// # Errors
    ///
    /// Out of memory.
    pub fn clone(&self, alloc: Global) -> Result<SubjectPublicKeyInfo<'a>, OutOfMemory>
        ensures { IfOk result (λ copy. copy ≡ self.now) }
    {
        let algorithm = self.algorithm.clone(alloc)?;
        Ok(SubjectPublicKeyInfo {
            algorithm,
            subject_public_key: self.subject_public_key,
            raw: self.raw,
        })
    }
}

fn next_key_bits<'a>(
    alloc: Global,
    parts: &mut Parts<'a>,
) -> Result<BitString<'a>, Refusal<X509Error>>
    ensures read { Gives (λ v. (bits_view v, parts.new.octets)) result (naming X509Error.InvalidSPKI (bits_at parts.old.octets)) }
    ensures elements { IfOk result (λ _. parts.old.elements ≡ parts.new.elements + 1) }
{
    named(next_bits(alloc, parts), X509Error::InvalidSPKI)
}

/// Reads the SubjectPublicKeyInfo in an element.
#[tactic(auto, unfolding(crate::specs::Reading::key_in))]
pub fn key_of<'a>(
    alloc: Global,
    element: Element<'a>,
    count: &mut HeaderCount,
) -> Result<SubjectPublicKeyInfo<'a>, Refusal<X509Error>>
    requires { attempts count.old + 2 * length element.any.content.now < 2 ^ 128 }
    ensures read { Gives key_view result (key_in (piece_of element.entry)) }
    ensures counted { IfOk result IsCountedKey }
    ensures least { IfOk result (λ _. attempts count.old + 3 ≤ attempts count.new) }
    ensures grows { attempts count.old ≤ attempts count.new }
    ensures most { attempts count.new ≤ attempts count.old + 2 * length element.entry.any.content.now }
{
    let mut parts = parts_of(alloc, 16, element, count)?;
    let algorithm = next_algorithm(alloc, &mut parts, count)?;
    let subject_public_key = next_key_bits(alloc, &mut parts)?;
    let left = parts.left().len();
    let raw = &element.octets[..element.octets.len().saturating_sub(left)];
    Ok(SubjectPublicKeyInfo {
        algorithm,
        subject_public_key,
        raw,
    })
}

/// Reads a SubjectPublicKeyInfo from the front of `parts`.
pub fn next_key<'a>(
    alloc: Global,
    parts: &mut Parts<'a>,
    count: &mut HeaderCount,
) -> Result<SubjectPublicKeyInfo<'a>, Refusal<X509Error>>
    requires { attempts count.old + 2 * length parts.old.octets < 2 ^ 128 }
    ensures read { Gives (λ v. (key_view v, parts.new.octets)) result (key_at parts.old.octets) }
    ensures counted { IfOk result IsCountedKey }
    ensures elements { IfOk result (λ _. parts.old.elements ≡ parts.new.elements + 1) }
    ensures least { IfOk result (λ _. attempts count.old + 3 ≤ attempts count.new) }
    ensures grows { attempts count.old ≤ attempts count.new }
    ensures ends { length parts.new.octets ≤ length parts.old.octets }
    ensures most { attempts count.new + 2 * length parts.new.octets ≤ attempts count.old + 2 * length parts.old.octets }
{
    let element = parts.next()?;
    key_of(alloc, element, count)
}

impl<'b> DerMeaning for SubjectPublicKeyInfo<'b> {
    ghost der_reads = { λ i v r. grammar.SubjectPublicKeyInfo i (key_view v) r };

    ghost der_cut = { EndsWithinElement };

    ghost der_grows = { Unit {0} };

    ghost one_rest = { λ i v w r s left right. one_rest (HoldsWindow 16 grammar.KeyParts (λ k. k.raw)) i (key_view v) (key_view w) r s left right };
}

impl<'a> FromDer<'a, X509Error> for SubjectPublicKeyInfo<'a> {
    /// Reads one SubjectPublicKeyInfo from the front of `bytes` (RFC 5280, 4.1.2.7). Returns
    /// `(rest, key)`.
    ///
    /// # Errors
    ///
    /// `Incomplete` if `bytes` ends inside the element; `InvalidAlgorithmIdentifier` without an
    /// identifier of the algorithm; `InvalidSPKI` without bits.
    fn from_der(alloc: Global, bytes: &'a [u8]) -> X509Result<'a, SubjectPublicKeyInfo<'a>>
        ensures reads { Reads (λ given e. e ≡ told given) (Unit {0}) EndsWithinElement (λ i. i.now)
            (λ i v r. grammar.SubjectPublicKeyInfo i (key_view v) r) bytes.now result }
        ensures exact { Gives (λ r. (key_view r.1, r.0.now)) result (key_at bytes.now) }
        ensures window { IfOk result (λ r. IsWindow bytes.now r.1.raw.now r.0.now) }
        ensures found { IfOk result (λ r. grammar.SubjectPublicKeyInfo bytes.now (key_view r.1) r.0.now) }
        ensures only { (v : Key) (rest : List ℕ) → grammar.SubjectPublicKeyInfo bytes.now v rest
            → ElseMemory result (λ r. (key_view r.1 ≡ v) × (r.0.now ≡ rest)) }
        ensures counted { IfOk result (λ r. IsCountedKey r.1) }
    {
        key_at_front(alloc, bytes)
    }
}

fn key_at_front<'a>(alloc: Global, i: &'a [u8]) -> X509Result<'a, SubjectPublicKeyInfo<'a>>
    ensures exact { Gives (λ r. (key_view r.1, r.0.now)) result (key_at i.now) }
    ensures counted { IfOk result (λ r. IsCountedKey r.1) }
    ensures missing { TellsMissing i.now result }
{
    let mut count = HeaderCount::new();
    let (rest, element) = front_element(i, &mut count)?;
    match key_of(alloc, element, &mut count) {
        Ok(key) => Ok((rest, key)),
        Err(refusal) => Err(Refusal::within(refusal)),
    }
}
