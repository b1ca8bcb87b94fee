//! Readers of single elements: identifiers and bit strings.

ghost use Rattle.std.specs.Prelude.{◌≡◌, ◌+◌, ◌≤◌, length, IfOk, IfErr};
ghost use Rattle.asn1_any.specs.Views.{any_of};
ghost use Rattle.x509_core.specs.Answers.{Gives};
ghost use Rattle.x509_core.specs.Fronts.{TakesNoMemory};
ghost use Rattle.x509_names.specs.Reading.{oid_at, bits_of, bits_at, integer_in, octets_in};
ghost use Rattle.x509_names.specs.View.{bits_view};

use asn1_any::Any;
use asn1_core::{Err as Refusal, Error};
use asn1_oid::Oid;
use asn1_values::BitString;
use std::alloc::Global;
use x509_core::{DerLeaf, FromLeaf, Parts, X509Error, check_shortest, leaf_of, oid_of};

/// The content octets of an OCTET STRING.
pub(crate) fn octets_of<'a>(any: Any<'a>) -> Result<&'a [u8], Refusal<X509Error>>
    ensures read { Gives (λ c. c.now) result (octets_in (any_of any.entry)) }
    ensures memory { IfErr result TakesNoMemory }
{
    leaf_of(4, any)
}

/// The content octets of an INTEGER in its shortest form (X.690, 8.3.2).
pub(crate) fn integer_of<'a>(any: Any<'a>) -> Result<&'a [u8], Refusal<X509Error>>
    ensures read { Gives (λ c. c.now) result (integer_in (any_of any.entry)) }
    ensures memory { IfErr result TakesNoMemory }
{
    let content = leaf_of(2, any)?;
    match check_shortest(content) {
        Ok(()) => Ok(content),
        Err(e) => Err(Refusal::Error(X509Error::Der(e))),
    }
}

/// The bits of a BIT STRING's content in DER (X.690, 8.6 and 11.2): unused bits are zero.
#[tactic(auto, unfolding(crate::specs::Reading::bits_of))]
pub fn bits_within<'a>(
    alloc: Global,
    content: &'a [u8],
) -> Result<BitString<'a>, Refusal<X509Error>>
    ensures read { Gives bits_view result (bits_of content.now) }
    ensures memory { IfErr result TakesNoMemory }
{
    if let Err(e) = BitString::check_content(content) {
        return Err(Refusal::Error(X509Error::Der(e)));
    }
    match BitString::from_content(alloc, content) {
        Ok(bits) => Ok(bits),
        Err(e) => Err(Refusal::Error(X509Error::Der(e))),
    }
}

/// Reads an OBJECT IDENTIFIER from the front of `parts`.
pub fn next_oid<'a>(parts: &mut Parts<'a>) -> Result<Oid<'a>, Refusal<X509Error>>
    ensures read { Gives (λ o. (o, parts.new.octets)) result (oid_at parts.old.octets) }
    ensures memory { IfErr result TakesNoMemory }
    ensures elements { IfOk result (λ _. parts.old.elements ≡ parts.new.elements + 1) }
    ensures ends { length parts.new.octets ≤ length parts.old.octets }
{
    let element = parts.next()?;
    oid_of(element)
}

/// Reads a BIT STRING from the front of `parts`.
pub fn next_bits<'a>(
    alloc: Global,
    parts: &mut Parts<'a>,
) -> Result<BitString<'a>, Refusal<X509Error>>
    ensures read { Gives (λ v. (bits_view v, parts.new.octets)) result (bits_at parts.old.octets) }
    ensures memory { IfErr result TakesNoMemory }
    ensures elements { IfOk result (λ _. parts.old.elements ≡ parts.new.elements + 1) }
    ensures ends { length parts.new.octets ≤ length parts.old.octets }
{
    let element = parts.next()?;
    let content = leaf_of(3, element.any)?;
    bits_within(alloc, content)
}
