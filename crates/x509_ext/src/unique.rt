//! `UniqueIdentifier` (RFC 5280, 4.1.2.8).

ghost use Rattle.std.specs.Prelude.{◌≡◌, ◌+◌, ◌^◌, ◌<◌, ◌≤◌, length, option_map, IfErr};
ghost use Rattle.asn1_core.specs.Counts.{attempts};
ghost use Rattle.asn1_core.specs.declared.outcome.Err.TheVariants as refusals;
ghost use Rattle.asn1_any.specs.Views.{any_of};
ghost use Rattle.x509_core.specs.Answers.{Gives, naming};
ghost use Rattle.x509_core.specs.Fronts.{TakesNoMemory};
ghost use Rattle.x509_core.specs.declared.error.X509Error.TheVariants.{InvalidIssuerUID, InvalidSubjectUID};
ghost use Rattle.x509_core.specs.Reading.{next};
ghost use Rattle.x509_ext.specs.Reading.{implicit_bits_in, id_at};
ghost use Rattle.x509_ext.specs.View.{identifier_view};

use crate::version::is_context;
use asn1_any::Any;
use asn1_core::{Err as Refusal, Error, HeaderCount};
use asn1_values::BitString;
use std::alloc::Global;
use x509_core::{Parts, X509Error, front_header, named};
use x509_names::bits_within;

/// Bits that distinguish subjects or issuers of the same name (RFC 5280, 4.1.2.8).
#[derive(Clone, Debug, Drop, PartialEq, Eq)]
pub struct UniqueIdentifier<'a>(pub BitString<'a>);

fn implicit_bits<'a>(
    alloc: Global,
    any: Any<'a>,
) -> Result<UniqueIdentifier<'a>, Refusal<X509Error>>
    ensures read { Gives identifier_view result (implicit_bits_in (any_of any.entry)) }
    ensures memory { IfErr result TakesNoMemory }
{
    if !is_context(any.class()) || any.header.is_constructed() {
        return Err(Refusal::Error(X509Error::Der(Error::InvalidTag)));
    }
    let bits = bits_within(alloc, any.content)?;
    Ok(UniqueIdentifier(bits))
}

fn next_implicit_bits<'a>(
    alloc: Global,
    parts: &mut Parts<'a>,
) -> Result<UniqueIdentifier<'a>, Refusal<X509Error>>
    ensures read { Gives (λ v. (identifier_view v, parts.new.octets)) result (next (λ p. implicit_bits_in p.element) parts.old.octets) }
    ensures memory { IfErr result TakesNoMemory }
    ensures ends { length parts.new.octets ≤ length parts.old.octets }
{
    let element = parts.next()?;
    implicit_bits(alloc, element.any)
}

// A unique identifier of this tag number at the front, or none.
fn next_id<'a>(
    alloc: Global,
    tag: u32,
    parts: &mut Parts<'a>,
    count: &mut HeaderCount,
) -> Result<Option<UniqueIdentifier<'a>>, Refusal<X509Error>>
    requires { attempts count.old + length parts.old.octets < 2 ^ 128 }
    ensures read { Gives (λ v. (option_map identifier_view v, parts.new.octets)) result (id_at tag parts.old.octets) }
    ensures memory { IfErr result TakesNoMemory }
    ensures grows { attempts count.old ≤ attempts count.new }
    ensures ends { length parts.new.octets ≤ length parts.old.octets }
    ensures most { attempts count.new ≤ attempts count.old + length parts.old.octets }
{
    if parts.left().is_empty() {
        return Ok(None);
    }
    let (_, header) = front_header(parts.left(), count)?;
    if header.tag().0 != tag {
        return Ok(None);
    }
    let id = next_implicit_bits(alloc, parts)?;
    Ok(Some(id))
}

/// Reads the issuer's unique identifier, under tag number 1. `None` if no octet is left, or a
/// header of another tag number is next.
///
/// # Errors
///
/// `InvalidIssuerUID` for anything else.
pub fn next_issuer_id<'a>(
    alloc: Global,
    parts: &mut Parts<'a>,
    count: &mut HeaderCount,
) -> Result<Option<UniqueIdentifier<'a>>, Refusal<X509Error>>
    requires { attempts count.old + length parts.old.octets < 2 ^ 128 }
    ensures read { Gives (λ v. (option_map identifier_view v, parts.new.octets)) result (naming InvalidIssuerUID (id_at 1 parts.old.octets)) }
    ensures refused { IfErr result (λ e. e ≡ refusals.Error InvalidIssuerUID) }
    ensures grows { attempts count.old ≤ attempts count.new }
    ensures ends { length parts.new.octets ≤ length parts.old.octets }
    ensures most { attempts count.new ≤ attempts count.old + length parts.old.octets }
{
    named(next_id(alloc, 1, parts, count), X509Error::InvalidIssuerUID)
}

/// Reads the subject's unique identifier, under tag number 2. `None` if no octet is left, or a
/// header of another tag number is next.
///
/// # Errors
///
/// `InvalidSubjectUID` for anything else.
pub fn next_subject_id<'a>(
    alloc: Global,
    parts: &mut Parts<'a>,
    count: &mut HeaderCount,
) -> Result<Option<UniqueIdentifier<'a>>, Refusal<X509Error>>
    requires { attempts count.old + length parts.old.octets < 2 ^ 128 }
    ensures read { Gives (λ v. (option_map identifier_view v, parts.new.octets)) result (naming InvalidSubjectUID (id_at 2 parts.old.octets)) }
    ensures refused { IfErr result (λ e. e ≡ refusals.Error InvalidSubjectUID) }
    ensures grows { attempts count.old ≤ attempts count.new }
    ensures ends { length parts.new.octets ≤ length parts.old.octets }
    ensures most { attempts count.new ≤ attempts count.old + length parts.old.octets }
{
    named(
        next_id(alloc, 2, parts, count),
        X509Error::InvalidSubjectUID,
    )
}
