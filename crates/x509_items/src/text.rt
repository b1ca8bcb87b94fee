//! Octets as text: as UTF-8 and in hexadecimal.

ghost use Rattle.std.specs.Prelude.{◌≡◌, ◌<◌, Some, IfOk, IfErr, string_bytes};
ghost use Rattle.std.specs.Fmt.{DisplaysOnOk};
ghost use Rattle.x509_core.specs.asn1_oid.specs.Joining.{separator_text};
ghost use Rattle.x509_core.specs.asn1_oid.specs.Text.{hex_pair};
ghost use Rattle.x509_core.specs.Answers.{Gives};
ghost use Rattle.x509_core.specs.Fronts.{TakesNoMemory};
ghost use Rattle.x509_items.specs.Reading.{text_in};
ghost use Rattle.x509_items.specs.Texts.{serial_text};

use asn1_core::{Err as Refusal, Error, OutOfMemory};
use std::alloc::Global;
use std::{fmt, str};
use x509_core::X509Error;

/// The content as text.
///
/// # Errors
///
/// An `Error` if it isn't UTF-8.
pub fn text_of<'a>(content: &'a [u8]) -> Result<&'a str, Refusal<X509Error>>
    ensures read { Gives (λ t. t.now) result (text_in content.now) }
    ensures memory { IfErr result TakesNoMemory }
{
    match str::from_utf8(content) {
        Ok(text) => Ok(text),
        Err(_) => Err(Refusal::Error(X509Error::Der(Error::StringInvalidCharset))),
    }
}

// Octets with a colon between two.
#[derive(Clone, Copy)]
struct Colons<'a>(&'a [u8]);

impl<'a> fmt::Display for Colons<'a> {
    ghost use Rattle.std.specs.Prelude.{Some};
    ghost use Rattle.x509_items.specs.Texts.{serial_text};

    ghost output = { λ c. Some (serial_text c.0.now) };

    fn fmt<W: fmt::Write>(&self, f: &mut fmt::Formatter<W>) -> fmt::Result {
        write_octets(self.0, f)
    }
}

/// The octets in hexadecimal, two lower-case digits each, separated by colons: `01:02:ff`.
///
/// # Errors
///
/// Out of memory.
pub fn format_serial(alloc: Global, i: &[u8]) -> Result<String, OutOfMemory>
    ensures { IfOk result (λ text. string_bytes text ≡ serial_text i.now) }
{
    let text = Colons(i).to_string(alloc)?;
    Ok(text)
}

/// Writes the octets in hexadecimal, two lower-case digits each, separated by colons: `01:02:ff`.
pub fn write_octets<W: fmt::Write>(octets: &[u8], f: &mut fmt::Formatter<W>) -> fmt::Result
    ensures { DisplaysOnOk W.write_str_gives f.old result (Some (serial_text octets.now)) f.new }
{
    let mut rest = octets;
    let mut begun = false;
    while let Some((octet, after)) = rest.split_first() {
        separate(begun, f)?;
        write_pair(*octet, f)?;
        begun = true;
        rest = after;
    }
    Ok(())
}

// The colon, if something was written before.
fn separate<W: fmt::Write>(begun: bool, f: &mut fmt::Formatter<W>) -> fmt::Result
    ensures { DisplaysOnOk W.write_str_gives f.old result (Some (separator_text begun 0x3A)) f.new }
{
    if begun { f.write_char(':') } else { Ok(()) }
}

#[tactic(auto, using(std::proofs::lemmas::Fmt::hex_byte))]
fn write_pair<W: fmt::Write>(octet: u8, f: &mut fmt::Formatter<W>) -> fmt::Result
    ensures { DisplaysOnOk W.write_str_gives f.old result (Some (hex_pair octet)) f.new }
{
    write!(f, "{octet:02x}")
}
