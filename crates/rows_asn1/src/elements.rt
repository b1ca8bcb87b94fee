//! Elements of any type, one or several.

use crate::headers::add_parts;
use asn1_rs::{
    Any, BerParser, DerParser, Error, HeaderCount, ParseResult, SequenceIterator,
    cut_elements_counted,
};
use rows_hex::{Added, add_debug, add_hex};

/// Adds the element that begins the octets by the rules of this name.
pub(crate) fn add_element(text: &mut String, rules: &str, octets: &[u8]) -> Added {
    match read_by(rules, octets) {
        Some(Ok((rest, any))) => {
            add_parts(text, &any.header)?;
            text.push_str(", content ")?;
            add_hex(text, any.content)?;
            text.push_str(", rest ")?;
            add_hex(text, rest)
        }
        Some(Err(error)) => add_debug(text, &error),
        None => text.push_str("no kind"),
    }
}

/// What the reader of this name answers.
fn read_by<'a>(rules: &str, octets: &'a [u8]) -> Option<ParseResult<'a, Any<'a>>> {
    match rules {
        "ber" => Some(Any::from_ber(octets)),
        "der" => Some(Any::from_der(octets)),
        _ => None,
    }
}

/// Adds how many of the shorter fronts of the octets an element begins.
pub(crate) fn add_fronts(text: &mut String, rules: &str, octets: &[u8]) -> Added {
    let mut taken: usize = 0;
    for n in 0..octets.len() {
        if let Some(Ok(_)) = read_by(rules, &octets[..n]) {
            taken = taken.saturating_add(1);
        }
    }
    write!(text, "{taken} of {} fronts", octets.len())
}

/// Adds the octets cut into their elements, the octets behind them, and how many headers were tried.
pub(crate) fn add_cut(text: &mut String, octets: &[u8]) -> Added {
    let mut count = HeaderCount::new();
    let Ok(elements) = cut_elements_counted(*text.allocator(), octets, &mut count) else {
        return text.push_str("out of memory");
    };
    for element in &elements.items {
        add_hex(text, element.octets)?;
        text.push_str(" | ")?;
    }
    text.push_str("tail ")?;
    add_hex(text, elements.tail)?;
    write!(text, ", {} headers", count.get())
}

/// Adds what the iterator over numbers gives, to its end.
pub(crate) fn add_items(text: &mut String, rules: &str, octets: &[u8]) -> Added {
    match rules {
        "ber" => add_ber_items(text, octets)?,
        _ => add_der_items(text, octets)?,
    }
    text.push_str("end")
}

fn add_ber_items(text: &mut String, octets: &[u8]) -> Added {
    for item in SequenceIterator::<u32, BerParser, Error>::new(*text.allocator(), octets) {
        write!(text, "{item:?}, ")?;
    }
    Ok(())
}

fn add_der_items(text: &mut String, octets: &[u8]) -> Added {
    for item in SequenceIterator::<u32, DerParser, Error>::new(*text.allocator(), octets) {
        write!(text, "{item:?}, ")?;
    }
    Ok(())
}
