//! The trait by which values are written, and what every writer uses.

ghost use Rattle.std.specs.Prelude.{◌≡◌, ◌↔◌, ℕ, false, true, List, Option, Some, IsTrue, IsOk, IfOk, IfErr, option_map, length};
ghost use Rattle.asn1_core.specs.Elements.{Element};
ghost use Rattle.asn1_core.specs.Strict.{strict_header};
ghost use Rattle.asn1_core.specs.Views.{class_number};
ghost use Rattle.asn1_traits.specs.Writes.{written, header_of, content_of, constructed_of, kind_of, kind_of_element, IsLong, Measures, Writes, NotEncoded, IsFormRefusal};

use asn1_core::{Class, Error, Header, HeaderOctets, Length, SerializeError, SerializeResult, Tag};
use asn1_device::{Sink, WriteSink, write_octets};
use std::alloc::Global;

/// The kind of an element: class, constructed bit and tag number, as its identifier octets say
/// (X.690, 8.1.2).
#[derive(Clone, Copy, Debug, PartialEq, Eq)]
pub struct DerKind {
    pub class: Class,
    /// Whether the element is constructed.
    pub constructed: bool,
    pub tag: Tag,
}

impl DerKind {
    /// Returns the primitive kind of a universal tag number.
    pub fn primitive(tag: Tag) -> DerKind
        ensures { result ≡ record { class = Class.Universal; constructed = false; tag = tag } }
    {
        DerKind {
            class: Class::Universal,
            constructed: false,
            tag,
        }
    }

    /// Returns the constructed kind of a universal tag number.
    pub fn constructed(tag: Tag) -> DerKind
        ensures { result ≡ record { class = Class.Universal; constructed = true; tag = tag } }
    {
        DerKind {
            class: Class::Universal,
            constructed: true,
            tag,
        }
    }

    // The strict header before so many content octets.
    fn header(&self, size: usize) -> HeaderOctets
        ensures { result ≡ strict_header (record { class = class_number self.now.class; constructed = self.now.constructed; tag = self.now.tag.0; size = size }) }
    {
        let header = Header::new(
            self.class,
            self.constructed,
            self.tag,
            Length::Definite(size),
        );
        match header.strict_octets() {
            Some(octets) => octets,
            None => unreachable!(),
        }
    }
}

/// A type whose values are written by the rules of DER: as one element, or as nothing if a value is
/// absent.
///
/// A type defines `in_der_form`, `der_kind`, `der_content_len` and `write_der_content`; the other
/// calls follow.
pub trait ToDer {
    /// The value is in DER form: `from_der` reads back what is written of it.
    ghost is_der: { Self → Type 0 };

    /// The element that is written; none for an absent value.
    ghost element: { Self → Option Element };

    /// Writing it may allocate.
    ghost grows: { Self → Type 0 } = { λ _. ⊥ };

    /// Returns whether the value is in DER form.
    fn in_der_form(&self) -> bool
        ensures { IsTrue result ↔ is_der self.now };

    /// Returns the kind of the element; `None` for an absent value.
    fn der_kind(&self) -> Option<DerKind>
        ensures { option_map kind_of result ≡ option_map kind_of_element (element self.now) };

    /// Returns how many content octets the element has, 0 for an absent value. `InvalidLength` if
    /// the number passes `usize`.
    fn der_content_len(&self) -> SerializeResult<usize>
        ensures { Measures (content_of (element self.now)) result };

    /// Writes the content octets, and returns their number.
    fn write_der_content<S: Sink>(&self, writer: &mut S) -> SerializeResult<usize>
        ensures { Writes (S.contents writer.old) (S.contents writer.new) (S.failures writer.old) (S.failures writer.new)
            (IsLong (content_of (element self.now))) (grows self.now) (is_der self.now → ⊥) (content_of (element self.now)) result };

    /// Returns the error of `write_der` for a value that isn't in DER form.
    fn form_refusal(&self) -> SerializeError
        ensures { IsFormRefusal result }
    {
        let error = match self.der_kind() {
            Some(kind) => kind.tag.invalid_value("the value is not in DER form"),
            None => Error::BerValueError,
        };
        SerializeError::ASN1Error(error)
    }

    /// Returns whether the element is constructed.
    fn der_constructed(&self) -> bool
        ensures { result ≡ constructed_of (element self.now) }
    {
        match self.der_kind() {
            Some(kind) => kind.constructed,
            None => false,
        }
    }

    /// Returns how many octets the element has, whether the value is in DER form or not.
    /// `InvalidLength` if the number passes `usize`.
    fn to_der_len(&self) -> SerializeResult<usize>
        ensures { Measures (written (element self.now)) result }
    {
        match self.der_kind() {
            Some(kind) => match self.der_content_len() {
                Ok(content) => match kind.header(content).as_slice().len().checked_add(content) {
                    Some(n) => Ok(n),
                    None => Err(SerializeError::InvalidLength),
                },
                Err(e) => Err(e),
            },
            None => Ok(0),
        }
    }

    /// Writes the strict header, and returns its number of octets.
    fn write_der_header<S: Sink>(&self, writer: &mut S) -> SerializeResult<usize>
        ensures { Writes (S.contents writer.old) (S.contents writer.new) (S.failures writer.old) (S.failures writer.new)
            (IsLong (written (element self.now))) (grows self.now) (is_der self.now → ⊥) (header_of (element self.now)) result }
    {
        match self.der_kind() {
            Some(kind) => match self.der_content_len() {
                Ok(content) => write_all(writer, kind.header(content).as_slice()),
                Err(e) => Err(e),
            },
            None => Ok(0),
        }
    }

    /// Writes the element, and returns its number of octets. It doesn't flush.
    ///
    /// # Errors
    ///
    /// Nothing is written of a value that isn't in DER form, since `from_der` would reject it:
    /// `ASN1Error`, or `InvalidClass` for a class above 3. Other errors come after some octets from
    /// the front were written: `IOError` if the writer fails; `InvalidLength` if the number of
    /// octets passes `usize`; `OutOfMemory` only from values that contain a set.
    fn write_der<S: Sink>(&self, writer: &mut S) -> SerializeResult<usize>
        ensures octets { Writes (S.contents writer.old) (S.contents writer.new) (S.failures writer.old) (S.failures writer.new)
            (IsLong (written (element self.now))) (grows self.now) (is_der self.now → ⊥) (written (element self.now)) result }
        ensures in_form { IsOk result → is_der self.now }
        ensures unwritten { (is_der self.now → ⊥) → S.contents writer.new ≡ S.contents writer.old }
    {
        if !self.in_der_form() {
            return Err(self.form_refusal());
        }
        let header = match self.write_der_header(writer) {
            Ok(n) => n,
            Err(e) => return Err(e),
        };
        let content = match self.write_der_content(writer) {
            Ok(n) => n,
            Err(e) => return Err(e),
        };
        match header.checked_add(content) {
            Some(n) => Ok(n),
            None => Err(SerializeError::InvalidLength),
        }
    }

    /// Returns the octets of the element, in an allocation of their own. Errors are those of
    /// `write_der` without `IOError`; `OutOfMemory` if an allocation fails.
    final fn to_der_vec(&self, alloc: Global) -> SerializeResult<Vec<u8>>
    where
        Self: Sized,
        ensures ok { IfOk result (λ v. v.items ≡ written (element self.now)) }
        ensures err { IfErr result (NotEncoded (is_der self.now → ⊥) (written (element self.now))) }
        ensures in_form { IsOk result → is_der self.now }
    {
        encode(self, alloc)
    }
}

// The octets that are written of the value.
fn encode<T: ToDer>(value: &T, alloc: Global) -> SerializeResult<Vec<u8>>
    ensures ok { IfOk result (λ v. v.items ≡ written (T.element value.now)) }
    ensures err { IfErr result (NotEncoded (T.is_der value.now → ⊥) (written (T.element value.now))) }
    ensures in_form { IsOk result → T.is_der value.now }
{
    let mut sink = WriteSink::new(Vec::new(alloc));
    match value.write_der(&mut sink) {
        Ok(_) => Ok(sink.into_inner()),
        Err(SerializeError::IOError) => Err(SerializeError::OutOfMemory),
        Err(e) => Err(e),
    }
}

/// Writes all of the octets, and returns their number. `IOError` if the writer fails; some octets
/// from the front may have been written then. It doesn't flush.
pub fn write_all<S: Sink>(writer: &mut S, octets: &[u8]) -> SerializeResult<usize>
    ensures octets { Writes (S.contents writer.old) (S.contents writer.new) (S.failures writer.old) (S.failures writer.new) ⊥ ⊥ ⊥ octets.now result }
    ensures flushes { S.flushes writer.new ≡ S.flushes writer.old }
{
    match write_octets(writer, octets) {
        Ok(()) => Ok(octets.len()),
        Err(_) => Err(SerializeError::IOError),
    }
}
