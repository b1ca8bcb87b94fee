//! Values of attributes as text.

ghost use Rattle.std.specs.Prelude.{◌≡◌, Some, is_some, option_map};
ghost use Rattle.std.specs.Fmt.{DisplaysOnOk};
ghost use Rattle.asn1_any.specs.Views.{any_of};
ghost use Rattle.asn1_strings.specs.Wide.{utf16_octets, IsWideText};
ghost use Rattle.x509_names.specs.NameTexts.{is_shown_as_text, utf8_text, wide_text, upper_pair, upper_hex, value_text};
ghost use Rattle.x509_names.specs.Writing.{or_nothing, value_piece};

use asn1_any::Any;
use asn1_strings::WideForm;
use asn1_strings::wide_forms::{BmpString, Utf16};
use std::{fmt, str};

/// Whether the value can be shown: a text that is UTF-8, a BMPString that is UTF-16, or another
/// type.
pub(crate) fn is_shown(value: &Any<'_>) -> bool
    ensures { result ≡ is_some (value_text (any_of value.now)) }
{
    let tag = value.tag().0;
    if is_shown_as_text(tag) {
        return utf8(value.content).is_some();
    }
    if tag == 30 {
        return is_wide(value.content);
    }
    true
}

/// Writes the value; nothing if it can't be shown.
pub(crate) fn write_value<W: fmt::Write>(value: &Any<'_>, f: &mut fmt::Formatter<W>) -> fmt::Result
    ensures { DisplaysOnOk W.write_str_gives f.old result (Some (value_piece (any_of value.now))) f.new }
{
    let tag = value.tag().0;
    if is_shown_as_text(tag) {
        return write_utf8(value.content, f);
    }
    if tag == 30 {
        return write_wide(value.content, f);
    }
    write_hex(value.content, f)
}

// Whether values of this tag number are shown as the text that their content is.
fn is_shown_as_text(tag: u32) -> bool
    ensures { result ≡ is_shown_as_text tag }
{
    (tag == 7 || tag == 12) || ((18 <= tag && tag <= 22) || (25 <= tag && tag <= 27))
}

fn utf8<'a>(content: &'a [u8]) -> Option<&'a str>
    ensures { option_map (λ t. t.now) result ≡ utf8_text content.now }
{
    match str::from_utf8(content) {
        Ok(text) => Some(text),
        Err(_) => None,
    }
}

fn write_utf8<W: fmt::Write>(content: &[u8], f: &mut fmt::Formatter<W>) -> fmt::Result
    ensures { DisplaysOnOk W.write_str_gives f.old result (Some (or_nothing (utf8_text content.now))) f.new }
{
    match utf8(content) {
        Some(text) => f.write_str(text),
        None => Ok(()),
    }
}

// Whether the octets are those of characters, as UTF-16, the high octet of a unit first.
fn is_wide(content: &[u8]) -> bool
    ensures { result ≡ is_some (wide_text content.now) }
{
    match BmpString::test_valid_charset(content) {
        Ok(()) => true,
        Err(_) => false,
    }
}

fn write_wide<W: fmt::Write>(content: &[u8], f: &mut fmt::Formatter<W>) -> fmt::Result
    ensures { DisplaysOnOk W.write_str_gives f.old result (Some (or_nothing (wide_text content.now))) f.new }
{
    match BmpString::test_valid_charset(content) {
        Ok(()) => write_characters(content, f),
        Err(_) => Ok(()),
    }
}

// Writes the characters that have these octets.
fn write_characters<W: fmt::Write>(content: &[u8], f: &mut fmt::Formatter<W>) -> fmt::Result
    requires { IsWideText utf16_octets content.now }
    ensures { DisplaysOnOk W.write_str_gives f.old result (Some (or_nothing (wide_text content.now))) f.new }
{
    let mut rest = content;
    while let Some((character, after)) = Utf16::first_char(rest) {
        f.write_char(character)?;
        rest = after;
    }
    Ok(())
}

// Two upper-case hexadecimal digits an octet.
fn write_hex<W: fmt::Write>(octets: &[u8], f: &mut fmt::Formatter<W>) -> fmt::Result
    ensures { DisplaysOnOk W.write_str_gives f.old result (Some (upper_hex octets.now)) f.new }
{
    let mut rest = octets;
    while let Some((octet, after)) = rest.split_first() {
        write_pair(*octet, f)?;
        rest = after;
    }
    Ok(())
}

#[tactic(auto, using(std::proofs::lemmas::Fmt::hex_byte))]
fn write_pair<W: fmt::Write>(octet: u8, f: &mut fmt::Formatter<W>) -> fmt::Result
    ensures { DisplaysOnOk W.write_str_gives f.old result (Some (upper_pair octet)) f.new }
{
    write!(f, "{octet:02X}")
}
