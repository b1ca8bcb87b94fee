//! What a reader answers, in words.

use asn1_any::Any;
use asn1_core::{Class, Err as Refusal, OutOfMemory};
use asn1_traits::FromDer;
use asn1_values::BitString;
use rows_hex::{Added, add_hex};
use std::alloc::AllocError;
use std::fmt::Display;
use std::slice;
use x509_core::{X509Error, X509Result};

/// A value that has words.
pub(crate) trait Words {
    /// Adds the value's parts to the text, in the order of its fields.
    fn add_words(&self, text: &mut String) -> Added;
}

/// Adds the words of the value that begins the octets, and the octets after it, or the refusal.
pub(crate) fn add_read<'a, T: FromDer<'a, X509Error> + Words + Drop>(
    text: &mut String,
    octets: &'a [u8],
) -> Added {
    let alloc = *text.allocator();
    match T::from_der(alloc, octets) {
        Ok((rest, value)) => add_words_before(text, &value, rest),
        Err(refusal) => add_refusal(text, &refusal),
    }
}

/// Adds the value's words, or the error.
pub(crate) fn add_made<T: Words + Drop>(text: &mut String, made: Result<T, X509Error>) -> Added {
    match made {
        Ok(value) => value.add_words(text),
        Err(error) => add_error(text, &error),
    }
}

/// Adds the value's words, and the octets after it.
pub(crate) fn add_words_before<T: Words>(text: &mut String, value: &T, rest: &[u8]) -> Added {
    value.add_words(text)?;
    add_rest(text, rest)
}

/// Adds the value as text, and the octets after it.
pub(crate) fn add_text_before<T: Display>(text: &mut String, value: &T, rest: &[u8]) -> Added {
    write!(text, "{value}")?;
    add_rest(text, rest)
}

/// Adds the octets of a value in hex, and those after it.
pub(crate) fn add_hex_before(text: &mut String, octets: &[u8], rest: &[u8]) -> Added {
    add_hex(text, octets)?;
    add_rest(text, rest)
}

/// Adds the octets after a value.
pub(crate) fn add_rest(text: &mut String, rest: &[u8]) -> Added {
    text.push_str("; rest ")?;
    add_hex(text, rest)
}

/// Adds the refusal; of an error of the readers below its kind alone, since which one it is isn't promised.
pub(crate) fn add_refusal(text: &mut String, refusal: &Refusal<X509Error>) -> Added {
    match refusal {
        Refusal::Error(error) => {
            text.push_str("Error(")?;
            add_error(text, error)?;
            text.push(')')
        }
        refusal => write!(text, "{refusal:?}"),
    }
}

/// Adds the error's name.
pub(crate) fn add_error(text: &mut String, error: &X509Error) -> Added {
    match error {
        X509Error::Der(_) => text.push_str("Der"),
        X509Error::NomError(_) => text.push_str("NomError"),
        error => write!(text, "{error:?}"),
    }
}

/// What was made, or that memory ran out.
pub(crate) fn had<T>(made: Result<T, OutOfMemory>) -> Result<T, AllocError> {
    match made {
        Ok(value) => Ok(value),
        Err(OutOfMemory) => Err(AllocError),
    }
}

/// Whether octets are read, and whether the number of headers that were tried is in its bounds: at most eight for each octet, and
/// of what is read the least number at least.
pub(crate) fn count_text(is_read: bool, tried: u64, least: u64, octets: usize) -> &'static str {
    let is_bounded = u128::from(tried) <= octets as u128 * 8;
    match (is_read, is_bounded) {
        (true, true) if least <= tried => "read, headers in bounds",
        (true, _) => "read, headers out of bounds",
        (false, true) => "refused, headers in bounds",
        (false, false) => "refused, headers out of bounds",
    }
}

/// A truth value's name.
pub(crate) fn truth_text(is_true: bool) -> &'static str {
    if is_true { "true" } else { "false" }
}

/// Adds an element: class, form, tag number and content.
pub(crate) fn add_element(text: &mut String, any: &Any<'_>) -> Added {
    let class = match any.header.class() {
        Class::Universal => "universal",
        Class::Application => "application",
        Class::ContextSpecific => "context",
        Class::Private => "private",
    };
    let form = if any.header.is_constructed() {
        "constructed"
    } else {
        "primitive"
    };
    write!(text, "{class} {form} {} ", any.tag().0)?;
    add_hex(text, any.content)
}

/// Adds a line of a part.
pub(crate) fn add<T: Words>(text: &mut String, name: &str, part: &T) -> Added {
    write!(text, "\n  {name} ")?;
    part.add_words(text)
}

/// Adds a line of each part.
pub(crate) fn add_each<T: Words>(
    text: &mut String,
    name: &str,
    parts: slice::Iter<'_, T>,
) -> Added {
    for part in parts {
        add(text, name, part)?;
    }
    Ok(())
}

impl Words for BitString<'_> {
    /// The number of unused bits, and the octets.
    fn add_words(&self, text: &mut String) -> Added {
        write!(text, "{} unused of ", self.unused_bits)?;
        add_hex(text, self.content)
    }
}
