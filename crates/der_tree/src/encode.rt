//! Objects as octets.

ghost use Rattle.std.specs.Prelude.{◌≡◌, ◌+◌, ◌<◌, ◌++◌, ◌∷◌, [], ℕ, List, length, slice_index, OnOk, IfOk, IfErr};
ghost use Rattle.std.specs.Int.Digits.{digits_of};
ghost use Rattle.std.specs.Io.KnownBytes.{Appends};
ghost use Rattle.asn1_core.specs.Strict.{strict_header};
ghost use Rattle.asn1_core.specs.Views.{head_of};
ghost use Rattle.der_tree.specs.Tree.{octets};
ghost use Rattle.der_tree.specs.Shape.{IsObject};
ghost use Rattle.der_tree.specs.Encode.{positive, sized, encoded, encoded_content, all_encoded, NotWritten};
ghost use Rattle.der_tree.specs.View.{view, content_view, views};

use crate::object::{BerObject, BerObjectContent};
use asn1_core::{Header, Length, SerializeError, SerializeResult};
use asn1_device::{Sink, write_octets};
use std::alloc::{AllocError, Global};

/// Writes an object: a strict header and the content as it is held, a true boolean as ff (X.690, 8.1 and 10.1). Answers
/// how many octets were written.
///
/// Refusals: `OutOfMemory` before anything is written, `IOError` if the writer failed, after a
/// front of the octets.
pub fn ber_encode_object<W: Sink>(
    alloc: Global,
    writer: &mut W,
    object: &BerObject<'_>,
) -> SerializeResult<usize>
    ensures ok { IfOk result (λ n. Appends (W.contents writer.old) (W.contents writer.new) (encoded (view object.now))
        × (n ≡ length (encoded (view object.now))) × (W.failures writer.new ≡ W.failures writer.old)) }
    ensures err { IfErr result (NotWritten (W.contents writer.old) (W.contents writer.new)
        (W.failures writer.old) (W.failures writer.new) (encoded (view object.now))) }
{
    let octets = object.to_vec(alloc)?;
    match write_octets(writer, octets.as_slice()) {
        Ok(()) => Ok(octets.len()),
        Err(_) => Err(SerializeError::IOError),
    }
}

impl<'a> BerObject<'a> {
    /// The octets of the object: a strict header and the content as it is held, a true boolean as ff. Of an object that
    /// `parse_der` read these are the octets read.
    pub fn to_vec(&self, alloc: Global) -> SerializeResult<Vec<u8>>
        ensures ok { IfOk result (λ v. v.items ≡ encoded (view self.now)) }
        ensures again { IfOk result (λ v. (k : ℕ) → IsObject k (view self.now) → v.items ≡ octets (view self.now)) }
        ensures err { IfErr result (λ e. e ≡ SerializeError.OutOfMemory) }
    {
        let mut out = Vec::new(alloc);
        match push_object(alloc, &mut out, self) {
            Ok(()) => Ok(out),
            Err(_) => Err(SerializeError::OutOfMemory),
        }
    }
}

/// Appends an object.
#[cycle(encoding)]
fn push_object(alloc: Global, out: &mut Vec<u8>, object: &BerObject<'_>) -> Result<(), AllocError>
    ensures { OnOk result (out.new.items ≡ out.old.items ++ encoded (view object.now)) }
{
    let mut content = Vec::new(alloc);
    push_content(alloc, &mut content, &object.content)?;
    push_header(out, object.header, content.len())?;
    out.extend_from_slice(content.as_slice())
}

/// Appends what an object holds.
#[cycle(encoding)]
fn push_content(
    alloc: Global,
    out: &mut Vec<u8>,
    content: &BerObjectContent<'_>,
) -> Result<(), AllocError>
    ensures { OnOk result (out.new.items ≡ out.old.items ++ encoded_content (content_view content.now)) }
{
    match content {
        BerObjectContent::EndOfContent | BerObjectContent::Null => Ok(()),
        BerObjectContent::Boolean(value) => push(out, if *value { 255 } else { 0 }),
        BerObjectContent::BitString(unused, octets) => {
            push(out, *unused)?;
            out.extend_from_slice(octets)
        }
        BerObjectContent::OID(identifier) => out.extend_from_slice(identifier.as_bytes()),
        BerObjectContent::Enum(number) => push_positive(out, *number),
        BerObjectContent::Sequence(parts) | BerObjectContent::Set(parts) => {
            push_all(alloc, out, parts)
        }
        BerObjectContent::UTF8String(text)
        | BerObjectContent::NumericString(text)
        | BerObjectContent::PrintableString(text)
        | BerObjectContent::IA5String(text)
        | BerObjectContent::VisibleString(text) => out.extend_from_slice(text.as_bytes()),
        BerObjectContent::Unknown(any) => out.extend_from_slice(any.content),
        BerObjectContent::Integer(octets)
        | BerObjectContent::OctetString(octets)
        | BerObjectContent::ObjectDescriptor(octets)
        | BerObjectContent::RelativeOID(octets)
        | BerObjectContent::T61String(octets)
        | BerObjectContent::VideotexString(octets)
        | BerObjectContent::UTCTime(octets)
        | BerObjectContent::GeneralizedTime(octets)
        | BerObjectContent::GraphicString(octets)
        | BerObjectContent::GeneralString(octets)
        | BerObjectContent::UniversalString(octets)
        | BerObjectContent::BmpString(octets) => out.extend_from_slice(octets),
    }
}

/// Appends objects, one after the other.
#[cycle(encoding)]
fn push_all(alloc: Global, out: &mut Vec<u8>, parts: &[BerObject<'_>]) -> Result<(), AllocError>
    ensures { OnOk result (out.new.items ≡ out.old.items ++ all_encoded (views parts.now)) }
{
    for part in parts {
        push_object(alloc, out, part)?;
    }
    Ok(())
}

fn push(out: &mut Vec<u8>, octet: u8) -> Result<(), AllocError>
    ensures { OnOk result (out.new.items ≡ out.old.items ++ octet ∷ []) }
{
    match out.push(octet) {
        Ok(()) => Ok(()),
        Err(_) => Err(AllocError),
    }
}

/// Appends a strict header of that class, constructed bit and tag number, and of so many content octets.
fn push_header(out: &mut Vec<u8>, header: Header, size: usize) -> Result<(), AllocError>
    ensures { OnOk result (out.new.items ≡ out.old.items ++ strict_header (sized (head_of header) size)) }
{
    match header.with_length(Length::Definite(size)).strict_octets() {
        Some(octets) => out.extend_from_slice(octets.as_slice()),
        // a definite length has octets
        None => Err(AllocError),
    }
}

/// Appends the digits of base 256.
fn push_digits(out: &mut Vec<u8>, number: u64) -> Result<(), AllocError>
    ensures { OnOk result (out.new.items ≡ out.old.items ++ digits_of 256 number) }
{
    if number == 0 {
        return Ok(());
    }
    push_digits(out, number / 256)?;
    push(out, (number % 256) as u8)
}

/// Appends a number that isn't negative as shortest two's complement (X.690, 8.3).
fn push_positive(out: &mut Vec<u8>, number: u64) -> Result<(), AllocError>
    ensures { OnOk result (out.new.items ≡ out.old.items ++ positive (digits_of 256 number)) }
{
    if number == 0 {
        return push(out, 0);
    }
    if first_digit(number) < 128 {
        return push_digits(out, number);
    }
    push(out, 0)?;
    push_digits(out, number)
}

/// The first digit of base 256.
fn first_digit(number: u64) -> u8
    requires { 0 < number }
    ensures { result ≡ slice_index (digits_of 256 number) 0 }
{
    if number < 256 {
        number as u8
    } else {
        first_digit(number / 256)
    }
}
