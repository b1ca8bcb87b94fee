//! Identifiers as text.
ghost use Rattle.std.specs.Prelude.{◌≡◌, ℕ, ◌<◌, false, List, Some, IfOk, string_bytes};
ghost use Rattle.std.specs.Fmt.{DisplaysOnOk};
ghost use Rattle.asn1_oid.specs.Identifier.{Spells};
ghost use Rattle.asn1_oid.specs.Text.{dotted, hex_pair, spaced_hex, oid_text};
ghost use Rattle.asn1_oid.specs.Joining.{separator_text};

use crate::components::{SubIdentifierIterator, read_components};
use crate::identifier::Oid;
use asn1_core::OutOfMemory;
use std::alloc::Global;
use std::fmt;

impl<'a> fmt::Display for Oid<'a> {
    ghost output = { λ oid. Some (oid_text oid) };

    /// Writes the components in decimal, as `1.2.840`; if there are none that fit 64 bits, the
    /// octets, as `2a 80 01`.
    fn fmt<W: fmt::Write>(&self, f: &mut fmt::Formatter<W>) -> fmt::Result {
        let octets = self.as_bytes();
        match read_components(octets) {
            Some(components) => write_dotted(components, f),
            None => write_hex(octets, f),
        }
    }
}

impl<'a> fmt::Debug for Oid<'a> {
    fn fmt<W: fmt::Write>(&self, f: &mut fmt::Formatter<W>) -> fmt::Result {
        f.write_str("OID(")?;
        fmt::Display::fmt(self, f)?;
        f.write_str(")")
    }
}

/// Writes numbers in decimal, with a point between two.
fn write_dotted<W: fmt::Write>(
    components: SubIdentifierIterator<'_>,
    f: &mut fmt::Formatter<W>,
) -> fmt::Result
    ensures { DisplaysOnOk W.write_str_gives f.old result (Some (dotted components.entry)) f.new }
{
    let mut left = components;
    let mut begun = false;
    while let Some(component) = left.next() {
        separate(begun, '.', f)?;
        write!(f, "{component}")?;
        begun = true;
    }
    Ok(())
}

/// Writes octets in hexadecimal, with a space between two.
fn write_hex<W: fmt::Write>(octets: &[u8], f: &mut fmt::Formatter<W>) -> fmt::Result
    ensures { DisplaysOnOk W.write_str_gives f.old result (Some (spaced_hex octets.now)) f.new }
{
    let mut rest = octets;
    let mut begun = false;
    while let Some((octet, after)) = rest.split_first() {
        separate(begun, ' ', f)?;
        write_pair(*octet, f)?;
        begun = true;
        rest = after;
    }
    Ok(())
}

/// Writes the separator, if `begun`.
fn separate<W: fmt::Write>(begun: bool, separator: char, f: &mut fmt::Formatter<W>) -> fmt::Result
    requires { separator < 128 }
    ensures { DisplaysOnOk W.write_str_gives f.old result (Some (separator_text begun separator)) f.new }
{
    if begun {
        f.write_char(separator)
    } else {
        Ok(())
    }
}

/// Writes two hexadecimal digits.
#[tactic(auto, using(std::proofs::lemmas::Fmt::hex_byte))]
fn write_pair<W: fmt::Write>(octet: u8, f: &mut fmt::Formatter<W>) -> fmt::Result
    ensures { DisplaysOnOk W.write_str_gives f.old result (Some (hex_pair octet)) f.new }
{
    write!(f, "{octet:02x}")
}

impl<'a> Oid<'a> {
    /// Returns the text that `Display` writes: `1.2.840`, or hexadecimal octets if there are no
    /// components that fit 64 bits. The only error is out of memory.
    pub fn to_id_string(&self, alloc: Global) -> Result<String, OutOfMemory>
        ensures components { (components : List ℕ) → Spells components self.now
            → IfOk result (λ text. string_bytes text ≡ dotted components) }
        ensures octets { ((components : List ℕ) → Spells components self.now → ⊥)
            → IfOk result (λ text. string_bytes text ≡ spaced_hex self.now) }
        ensures exact { IfOk result (λ text. string_bytes text ≡ oid_text self.now) }
    {
        let text = self.to_string(alloc)?;
        Ok(text)
    }
}
