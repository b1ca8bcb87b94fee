//! Contents of elements, optional fields, and readers that return `None` in place of an error.

ghost use Rattle.std.specs.Prelude.{◌≡◌, ◌==◌, IfErr};
ghost use Rattle.asn1_core.specs.Views.{class_number};
ghost use Rattle.x509_core.specs.asn1_any.specs.Views.{any_of};
ghost use Rattle.x509_core.specs.Answers.{Gives};
ghost use Rattle.x509_core.specs.Fronts.{TakesNoMemory};
ghost use Rattle.x509_core.specs.Reading.{content_in};
ghost use Rattle.x509_items.specs.Answers.{IsOptional, IsTaken, IsTold};
ghost use Rattle.x509_items.specs.Reading.{sequence_in};

use asn1_core::{Class, Err as Refusal, Error, OutOfMemory, Tag};
use x509_core::{Any, X509Error, X509Result};

/// The content of an element of this tag number, of any class and constructed bit.
///
/// # Errors
///
/// `Der(UnexpectedTag)` for another tag number.
pub fn content_of<'a>(tag: u32, any: Any<'a>) -> Result<&'a [u8], Refusal<X509Error>>
    ensures read { Gives (λ c. c.now) result (content_in tag (any_of any.entry)) }
    ensures memory { IfErr result TakesNoMemory }
{
    if any.tag().0 != tag {
        return Err(Refusal::Error(X509Error::Der(Error::unexpected_tag(
            Some(Tag(tag)),
            any.tag(),
        ))));
    }
    Ok(any.content)
}

/// The content of a SEQUENCE: a constructed universal element of tag number 16 (X.690, 8.9).
pub fn sequence_content<'a>(any: Any<'a>) -> Result<&'a [u8], Refusal<X509Error>>
    ensures read { Gives (λ c. c.now) result (sequence_in (any_of any.entry)) }
    ensures memory { IfErr result TakesNoMemory }
{
    if is_of_class(any.class(), 0) && any.header.is_constructed() && any.tag().0 == 16 {
        return Ok(any.content);
    }
    Err(Refusal::Error(X509Error::Der(Error::InvalidTag)))
}

/// Whether a class has this number (X.690, 8.1.2.2).
pub fn is_of_class(class: Class, number: u8) -> bool
    ensures { result ≡ (class_number class == number) }
{
    match class {
        Class::Universal => number == 0,
        Class::Application => number == 1,
        Class::ContextSpecific => number == 2,
        Class::Private => number == 3,
    }
}

/// The result of an optional field's reader: any error but out of memory becomes `None`, with all
/// of `i` left.
pub fn optional<'a, T: Drop>(i: &'a [u8], answer: X509Result<'a, T>) -> X509Result<'a, Option<T>>
    ensures { IsOptional i.entry answer.entry result }
{
    match answer {
        Ok((rest, value)) => Ok((rest, Some(value))),
        Err(Refusal::Failure(e)) => Err(Refusal::Failure(e)),
        Err(Refusal::Incomplete(_)) => Ok((i, None)),
        Err(Refusal::Error(_)) => Ok((i, None)),
    }
}

/// Converts a reader's result: any error but out of memory becomes `None`.
pub fn taken<'a, T: Drop>(answer: X509Result<'a, T>) -> Result<Option<(&'a [u8], T)>, OutOfMemory>
    ensures { IsTaken answer.entry result }
{
    match answer {
        Ok(value) => Ok(Some(value)),
        Err(Refusal::Failure(_)) => Err(OutOfMemory),
        Err(Refusal::Incomplete(_)) => Ok(None),
        Err(Refusal::Error(_)) => Ok(None),
    }
}

/// Converts `None` to an error.
pub fn told<T: Drop>(answer: Result<Option<T>, OutOfMemory>) -> Result<T, Refusal<X509Error>>
    ensures { IsTold answer result }
{
    match answer {
        Ok(Some(value)) => Ok(value),
        Ok(None) => Err(Refusal::Error(X509Error::Der(Error::InvalidLength))),
        Err(e) => Err(Refusal::Failure(X509Error::from(e))),
    }
}

/// Converts `None` to an error, of a result with its rest.
pub fn told_front<'a, T: Drop>(
    answer: Result<Option<(&'a [u8], T)>, OutOfMemory>,
) -> X509Result<'a, T>
    ensures { IsTold answer.entry result }
{
    match answer {
        Ok(Some(value)) => Ok(value),
        Ok(None) => Err(Refusal::Error(X509Error::Der(Error::InvalidLength))),
        Err(e) => Err(Refusal::Failure(X509Error::from(e))),
    }
}
