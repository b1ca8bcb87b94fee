//! Conversions of a reader's result to a parsed value.

ghost use Rattle.std.specs.Prelude.{◌≡◌, ◌≢◌, IfOk, OnOk};
ghost use Rattle.asn1_core.specs.Answers.{TakesNoMemory};
ghost use Rattle.asn1_core.specs.declared.error.Error.TheVariants as errors;
ghost use Rattle.x509_core.specs.Fronts.{TakesNoMemory as IsNoFailure};
ghost use Rattle.x509_ext_parse.specs.Cases.{IsHeld, IsSettled, element_error};

use asn1_core::{Err as Refusal, Error, OutOfMemory};
use x509_core::{X509Error, X509Result};

// The error as one of an element; an error of another part is `BerValueError`.
fn plain(e: X509Error) -> Error
    ensures memory { result ≢ errors.OutOfMemory }
    ensures error { result ≡ element_error e }
{
    match e {
        X509Error::Der(Error::OutOfMemory) => Error::BerValueError,
        X509Error::Der(e) => e,
        _ => Error::BerValueError,
    }
}

/// Converts a refusal to one with an element's error; out of memory becomes an `Err` of its own.
pub(crate) fn refused(refusal: Refusal<X509Error>) -> Result<Refusal<Error>, OutOfMemory>
    ensures kept { IfOk result TakesNoMemory }
    ensures octets { OnOk result (IsNoFailure refusal) }
    ensures error { IfOk result (IsHeld refusal) }
{
    match refusal {
        Refusal::Failure(_) => Err(OutOfMemory),
        Refusal::Incomplete(needed) => Ok(Refusal::Incomplete(needed)),
        Refusal::Error(e) => Ok(Refusal::Error(plain(e))),
    }
}

/// Converts a reader's result: the rest is dropped, errors become an element's errors, and out of
/// memory becomes an `Err` of its own.
pub(crate) fn settled<'a, T: Drop>(
    answer: X509Result<'a, T>,
) -> Result<Result<T, Refusal<Error>>, OutOfMemory>
    ensures { IsSettled answer.entry result }
{
    match answer {
        Ok((_, value)) => Ok(Ok(value)),
        Err(refusal) => {
            let error = refused(refusal)?;
            Ok(Err(error))
        }
    }
}
