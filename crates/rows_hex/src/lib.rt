//! What the programs of rows share: rows from standard input, each printed with its outcome; names of calls; octets in hex.
//!
//! A program implements `Rows` and hands it to `print_rows`. Everything that a row prints is added to one text, which is handed down.
#![tactic(auto)]

use std::alloc::{AllocError, Global};
use std::fmt::Debug;
use std::io;

/// Whether what was to be added to a text was added, or memory ran out.
pub type Added = Result<(), AllocError>;

/// What rows mean.
pub trait Rows {
    /// Adds what the row means.
    fn add_outcome(&self, text: &mut String, row: &str) -> Added;
}

/// Prints each line of standard input, and behind a row `= OUTCOME`. Empty lines and those that begin with `#` are no rows.
pub fn print_rows<R: Rows>(rt: &HostRuntime, rows: &R) -> io::Result<()> {
    for line in rt.lines(rt.alloc()) {
        let line = line?;
        let mut text = String::new(rt.alloc());
        add_line(rows, &mut text, line.as_str())?;
        println!(rt; "{text}")?;
    }
    Ok(())
}

/// Adds the line, and what it means if it is a row.
fn add_line<R: Rows>(rows: &R, text: &mut String, line: &str) -> Added {
    text.push_str(line)?;
    if line.is_empty() || line.starts_with('#') {
        return Ok(());
    }
    text.push_str(" = ")?;
    rows.add_outcome(text, line)
}

/// What stands beside the name.
pub fn found<T: Copy>(table: &[(&str, T)], name: &str) -> Option<T> {
    for (known, value) in table {
        if *known == name {
            return Some(*value);
        }
    }
    None
}

/// The octets that the text spells; none where it spells none.
pub fn octets_of(alloc: Global, text: &str) -> Result<Option<Vec<u8>>, AllocError> {
    let mut octets = Vec::new(alloc);
    for (i, part) in text.split('"').enumerate() {
        if i % 2 == 1 {
            octets.extend_from_slice(part.as_bytes())?;
        } else if !push_octets(&mut octets, part)? {
            return Ok(None);
        }
    }
    Ok(Some(octets))
}

/// Appends the octets that the digits spell, and answers whether they spell any.
fn push_octets(octets: &mut Vec<u8>, digits: &str) -> Result<bool, AllocError> {
    let mut first = None;
    for digit in digits.chars() {
        match (first, value_of(digit)) {
            (None, None) if digit == ' ' => {}
            (None, Some(value)) => first = Some(value),
            (Some(high), Some(low)) => {
                octets.push(high << 4 | low)?;
                first = None;
            }
            _ => return Ok(false),
        }
    }
    Ok(first.is_none())
}

/// The value of a hexadecimal digit.
fn value_of(digit: char) -> Option<u8> {
    match digit {
        '0'..='9' => Some(digit as u8 - b'0'),
        'a'..='f' => Some(digit as u8 - b'a' + 10),
        _ => None,
    }
}

/// Adds the octets in hex, a blank between two; `none` of no octet.
pub fn add_hex(text: &mut String, octets: &[u8]) -> Added {
    if octets.is_empty() {
        return text.push_str("none");
    }
    for (place, octet) in octets.iter().enumerate() {
        if place > 0 {
            text.push(' ')?;
        }
        write!(text, "{octet:02x}")?;
    }
    Ok(())
}

/// Adds the value in its debug text.
pub fn add_debug<T: Debug>(text: &mut String, value: &T) -> Added {
    write!(text, "{value:?}")
}
