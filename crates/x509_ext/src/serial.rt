//! `CertificateSerialNumber` (RFC 5280, 4.1.2.2).

ghost use Rattle.std.specs.Prelude.{◌≡◌, ◌+◌, ◌≤◌, length, IfOk, IfErr};
ghost use Rattle.asn1_core.specs.declared.outcome.Err.TheVariants as refusals;
ghost use Rattle.x509_core.specs.Answers.{Gives, naming};
ghost use Rattle.x509_core.specs.Fronts.{TakesNoMemory};
ghost use Rattle.x509_core.specs.declared.error.X509Error.TheVariants.{InvalidSerial};
ghost use Rattle.x509_ext.specs.Reading.{serial_at};

use asn1_core::{Err as Refusal, Error};
use x509_core::{Parts, X509Error, named};

fn any_serial<'a>(parts: &mut Parts<'a>) -> Result<&'a [u8], Refusal<X509Error>>
    ensures read { Gives (λ v. (v.now, parts.new.octets)) result (serial_at parts.old.octets) }
    ensures memory { IfErr result TakesNoMemory }
    ensures elements { IfOk result (λ _. parts.old.elements ≡ parts.new.elements + 1) }
    ensures ends { length parts.new.octets ≤ length parts.old.octets }
{
    let element = parts.next()?;
    if element.any.tag().0 != 2 {
        return Err(Refusal::Error(X509Error::Der(Error::InvalidTag)));
    }
    Ok(element.any.content)
}

/// Reads the content octets of a serial number from the front: those of any element of tag number
/// 2.
///
/// # Errors
///
/// `InvalidSerial` if there is none.
pub fn next_serial<'a>(parts: &mut Parts<'a>) -> Result<&'a [u8], Refusal<X509Error>>
    ensures read { Gives (λ v. (v.now, parts.new.octets)) result (naming InvalidSerial (serial_at parts.old.octets)) }
    ensures refused { IfErr result (λ e. e ≡ refusals.Error InvalidSerial) }
    ensures elements { IfOk result (λ _. parts.old.elements ≡ parts.new.elements + 1) }
    ensures ends { length parts.new.octets ≤ length parts.old.octets }
{
    named(any_serial(parts), X509Error::InvalidSerial)
}
