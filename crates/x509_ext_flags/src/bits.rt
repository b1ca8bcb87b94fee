//! Flags in bit strings (X.690, 8.6).

ghost use Rattle.std.specs.Prelude.{◌≡◌, ◌<◌, ◌≤◌, ◌^◌};
ghost use Rattle.asn1_values.specs.Bits.{bit_at};
ghost use Rattle.x509_core.specs.Answers.{Gives};
ghost use Rattle.x509_core.specs.Fronts.{TakesNoMemory};
ghost use Rattle.std.specs.Prelude.{IfErr, IfOk};
ghost use Rattle.x509_ext_flags.specs.Flags.{bit_of};
ghost use Rattle.x509_ext_flags.specs.Reading.{digit, weight, flags_in};

use asn1_core::Err as Refusal;
use asn1_values::BitString;
use x509_core::{DerLeaf, X509Error};

/// Bit `index` of the flags; bit 0 is the lowest.
pub fn flag_at(flags: u16, index: u32) -> bool
    requires { index < 16 }
    ensures { result ≡ bit_of flags index }
{
    (flags >> index) % 2 == 1
}

// Bit `index` of the octets, the highest of the first being bit 0; false after the last octet.
fn octet_bit(octets: &[u8], index: u32) -> bool
    requires { index < 16 }
    ensures { result ≡ bit_at octets.now index }
{
    match octets.get((index / 8) as usize) {
        Some(octet) => (*octet >> (7 - index % 8)) % 2 == 1,
        None => false,
    }
}

fn digit_of(bit: bool) -> u16
    ensures value { result ≡ digit bit }
    ensures small { result < 2 }
{
    if bit { 1 } else { 0 }
}

// The first `width` bits of the octets: bit i of the string is bit i of the number.
fn weight_of(octets: &[u8], width: u32) -> u16
    requires { width ≤ 16 }
    ensures value { result ≡ weight width 0 octets.now }
    ensures small { result < 2 ^ width }
{
    let mut flags: u16 = 0;
    let mut at = width;
    while at > 0 {
        at -= 1;
        flags = 2 * flags + digit_of(octet_bit(octets, at));
    }
    flags
}

/// The first `width` bits of a BIT STRING's content in DER (X.690, 8.6 and 11.2): bit i of the
/// string becomes bit i of the number. Further bits are dropped.
///
/// # Errors
///
/// An `Error` if the content isn't DER.
pub fn bits_of(content: &[u8], width: u32) -> Result<u16, Refusal<X509Error>>
    requires { width ≤ 16 }
    ensures read { Gives (λ flags. flags) result (flags_in width content.now) }
    ensures memory { IfErr result TakesNoMemory }
    ensures small { IfOk result (λ flags. flags < 2 ^ width) }
{
    if let Err(e) = BitString::check_content(content) {
        return Err(Refusal::Error(X509Error::Der(e)));
    }
    let octets = match content {
        [] => content,
        [_, octets @ ..] => octets,
    };
    Ok(weight_of(octets, width))
}
