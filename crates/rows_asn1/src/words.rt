//! What a call answers, in words.

use asn1_rs::{Err, Error, FromBer, FromDer, IResult, ToDer};
use rows_hex::{Added, add_debug, add_hex};
use std::fmt::Debug;

/// What is done with the octets of a type.
#[derive(Clone, Copy)]
pub(crate) enum Call {
    /// A value is read by DER's rules.
    Der,
    /// A value is read by BER's rules.
    Ber,
    /// A value is read by BER's rules and written by DER's.
    Write,
}

/// Adds what the octets are at the type: the value and how many octets are left, or the error; the octets that are written.
pub(crate) fn add_words<'a, T: FromDer<'a, Error> + FromBer<'a, Error> + ToDer + Debug + Drop>(
    text: &mut String,
    call: Call,
    octets: &'a [u8],
) -> Added {
    let alloc = *text.allocator();
    match call {
        Call::Der => add_read(text, T::from_der(alloc, octets)),
        Call::Ber => add_read(text, T::from_ber(alloc, octets)),
        Call::Write => match T::from_ber(alloc, octets) {
            Ok((_, value)) => add_written(text, &value),
            Err(error) => add_debug(text, &error),
        },
    }
}

/// Adds the value and how many octets are left, or the error.
fn add_read<T: Debug + Drop>(text: &mut String, read: IResult<&[u8], T, Error>) -> Added {
    match read {
        Ok((rest, value)) => write!(text, "{value:?}, {} left", rest.len()),
        Err(error) => add_debug(text, &error),
    }
}

/// Adds the octets that are written of the value.
fn add_written<T: ToDer>(text: &mut String, value: &T) -> Added {
    if !value.in_der_form() {
        return text.push_str("out of DER form");
    }
    match value.to_der_vec(*text.allocator()) {
        Ok(octets) => add_checked(text, value, &octets),
        Err(error) => add_debug(text, &error),
    }
}

/// Adds the octets, where their number and their form are as the value tells them.
fn add_checked<T: ToDer>(text: &mut String, value: &T, octets: &[u8]) -> Added {
    if value.to_der_len() != Ok(octets.len()) {
        return text.push_str("another length than is told");
    }
    if octets.first().is_some_and(|first| *first & 0x20 != 0) != value.der_constructed() {
        return text.push_str("another form than is told");
    }
    add_hex(text, octets)
}
