//! What a reader answers, with the value's fields.

use crate::words::{add_refusal, add_rest, add_text_before};
use asn1_traits::FromDer;
use rows_hex::{Added, add_debug};
use std::fmt::{Debug, Display};
use x509_core::{X509Error, X509Result};

/// Adds the value that begins the octets, with its fields, and the octets after it, or the refusal.
pub(crate) fn add_fields_of<'a, T: FromDer<'a, X509Error> + Debug + Drop>(
    text: &mut String,
    octets: &'a [u8],
) -> Added {
    let alloc = *text.allocator();
    add_fields(text, T::from_der(alloc, octets))
}

/// Adds the value with its fields and the octets after it, or the refusal.
pub(crate) fn add_fields<T: Debug + Drop>(text: &mut String, read: X509Result<'_, T>) -> Added {
    match read {
        Ok((rest, value)) => {
            write!(text, "{value:?}")?;
            add_rest(text, rest)
        }
        Err(refusal) => add_refusal(text, &refusal),
    }
}

/// Adds the value that begins the octets by its text, and the octets after it, or the refusal.
pub(crate) fn add_text_of<'a, T: FromDer<'a, X509Error> + Display + Drop>(
    text: &mut String,
    octets: &'a [u8],
) -> Added {
    match T::from_der(*text.allocator(), octets) {
        Ok((rest, value)) => add_text_before(text, &value, rest),
        Err(refusal) => add_refusal(text, &refusal),
    }
}

/// Adds why octets are refused as a value of this type, where it is promised which error that is.
pub(crate) fn add_fault_of<'a, T: FromDer<'a, X509Error> + Drop>(
    text: &mut String,
    octets: &'a [u8],
) -> Added {
    let alloc = *text.allocator();
    add_fault(text, T::from_der(alloc, octets))
}

/// Adds why a reader refuses octets.
pub(crate) fn add_fault<T: Drop>(text: &mut String, read: X509Result<'_, T>) -> Added {
    match read {
        Ok(_) => text.push_str("no fault"),
        Err(refusal) => add_debug(text, &refusal),
    }
}
