//! Headers.

use asn1_rs::{Error, Header, ParseResult};
use rows_hex::{Added, add_debug, add_hex};

/// Adds what the header reader of this name answers, or the octets that are written.
pub(crate) fn add_header(text: &mut String, rules: &str, octets: &[u8]) -> Added {
    match rules {
        "ber" => add_read(text, Header::from_ber(octets)),
        "der" => add_read(text, Header::from_der(octets)),
        "strict" => add_read(text, Header::strict(octets)),
        "write" => add_written(text, octets),
        _ => text.push_str("no kind"),
    }
}

/// Adds the header and how many octets are left, or the error.
fn add_read(text: &mut String, read: ParseResult<'_, Header>) -> Added {
    match read {
        Ok((rest, header)) => {
            add_parts(text, &header)?;
            write!(text, ", {} left", rest.len())
        }
        Err(error) => add_debug(text, &error),
    }
}

/// Adds class, constructed bit, tag number and length.
pub(crate) fn add_parts(text: &mut String, header: &Header) -> Added {
    add_debug(text, &header.class())?;
    text.push_str(form_text(header.is_constructed()))?;
    write!(text, "{}, ", header.tag().0)?;
    add_debug(text, &header.length())
}

/// The name of an element's form, between blanks.
pub(crate) fn form_text(is_constructed: bool) -> &'static str {
    if is_constructed {
        " constructed "
    } else {
        " primitive "
    }
}

/// Adds the octets that are written of the header that begins the octets by BER's rules.
fn add_written(text: &mut String, octets: &[u8]) -> Added {
    match Header::from_ber(octets) {
        Ok((_, header)) => match header.strict_octets() {
            Some(octets) => add_hex(text, octets.as_slice()),
            None => text.push_str("not written"),
        },
        Err(error) => add_debug(text, &error),
    }
}
