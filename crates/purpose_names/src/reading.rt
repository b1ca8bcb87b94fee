//! A purpose as it is written.

ghost use Rattle.std.specs.Prelude.{◌≡◌, ℕ, List, ◌↔◌, IfOk, IfErr, IfSome, IsTrue};
ghost use Rattle.asn1_oid.specs.Identifier.{Spells};
ghost use Rattle.purpose_names.specs.Reading.{IsAny, IsNumber, WritesPurpose, RefusesPurpose};

use crate::naming::{is_word, named_by};
use crate::refusal::PurposeRefusal;
use asn1_core::{Error, OutOfMemory};
use asn1_oid::Oid;
use std::alloc::{AllocError, Global};

/// How many octets an identifier has at most.
const MOST_OCTETS: usize = 128;

/// Whether a text is the name of the purpose of any.
fn is_any(text: &str) -> bool
    ensures { IsTrue result ↔ IsAny text.now }
{
    is_word(text, "anyExtendedKeyUsage")
}

/// Numbers with a point between two. None where one is no number of 64 bits.
fn numbers_of(alloc: Global, text: &str) -> Result<Option<Vec<u64>>, AllocError> {
    let mut numbers = Vec::new(alloc);
    for word in text.split('.') {
        let Ok(number) = word.parse::<u64>() else {
            return Ok(None);
        };
        numbers.push(number)?;
    }
    Ok(Some(numbers))
}

/// The identifier of these numbers.
fn identifier_of(alloc: Global, numbers: &[u64]) -> Result<Option<Oid<'static>>, OutOfMemory>
    ensures { IfOk result (λ o. IfSome o (λ oid. Spells numbers.now oid)) }
{
    match Oid::from(alloc, numbers) {
        Ok(identifier) => Ok(Some(identifier)),
        Err(Error::OutOfMemory) => Err(OutOfMemory),
        Err(_) => Ok(None),
    }
}

/// The identifier whose numbers a text has, each in its one spelling.
fn number_of(alloc: Global, text: &str) -> Result<Option<Oid<'static>>, OutOfMemory>
    ensures { IfOk result (λ o. IfSome o (λ oid. IsNumber text.now oid)) }
{
    let Some(numbers) = numbers_of(alloc, text)? else {
        return Ok(None);
    };
    let Some(identifier) = identifier_of(alloc, &numbers)? else {
        return Ok(None);
    };
    let written = identifier.to_id_string(alloc)?;
    if written.as_str() == text {
        Ok(Some(identifier))
    } else {
        Ok(None)
    }
}

/// Returns the identifier of the purpose that a text asks for: a name of RFC 5280, 4.2.1.12, a name
/// that `openssl verify -purpose` accepts, letters without case, or an object identifier in dotted
/// numbers, each of at most 64 bits and without leading zeros, as `1.3.6.1.5.5.7.3.1`.
///
/// # Errors
///
/// `Any` for anyExtendedKeyUsage; `Long` for an identifier of more than 128 octets; `Unknown` for
/// any other text; `OutOfMemory` if an allocation fails.
pub fn read_purpose(alloc: Global, text: &str) -> Result<Oid<'static>, PurposeRefusal>
    ensures made { IfOk result (λ oid. WritesPurpose text.now oid) }
    ensures refused { IfErr result (RefusesPurpose text.now) }
{
    if let Some(purpose) = named_by(text) {
        return Ok(Oid::new(purpose.identifier()));
    }
    if is_any(text) {
        return Err(PurposeRefusal::Any);
    }
    let Ok(read) = number_of(alloc, text) else {
        return Err(PurposeRefusal::OutOfMemory);
    };
    let Some(identifier) = read else {
        return Err(PurposeRefusal::Unknown);
    };
    if identifier.as_bytes().len() > MOST_OCTETS {
        return Err(PurposeRefusal::Long);
    }
    Ok(identifier)
}
