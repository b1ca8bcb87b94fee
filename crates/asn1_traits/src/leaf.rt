//! Primitive types: a type says what its content octets mean, and a leaf trait gives it all readers
//! and writers.

ghost use Rattle.std.specs.Prelude.{◌≡◌, ◌↔◌, ◌^◌, ◌<◌, ℕ, List, Some, IsTrue};
ghost use Rattle.asn1_core.specs.Elements.{Element};
ghost use Rattle.asn1_any.specs.Views.{any_of};
ghost use Rattle.asn1_traits.specs.Leaves.{IsLeaf, LeafMeans, LeafAllows, ReadsContent, ChecksContent};
ghost use Rattle.asn1_traits.specs.Reads.{Checks};
ghost use Rattle.asn1_traits.specs.Writes.{primitive, IsLong, Measures, Writes};

use crate::read::{AnyMeaning, CheckDerConstraints, DerAutoDerive, FromAny, Tagged};
use crate::write::{DerKind, ToDer};
use asn1_any::Any;
use asn1_core::{Err, Error, SerializeResult};
use asn1_device::Sink;
use std::alloc::Global;

/// A primitive type with laws: its elements have the constructed bit 0, and tag number and content
/// decide the value. With `FromLeaf` it has all readers and writers.
pub trait DerLeaf: Tagged {
    /// The content means the value, by the wider rules (BER).
    ghost content_means: { List ℕ → Self → Type 0 };

    /// Reading a content may allocate.
    ghost content_grows: { Type 0 } = { ⊥ };

    /// DER allows the content.
    ghost content_allowed: { List ℕ → Type 0 };

    /// The value is in DER form.
    ghost leaf_form: { Self → Type 0 };

    /// The content that is written.
    ghost content: { Self → List ℕ };

    /// Returns `Ok(())` if DER allows the content; else the constraint that it breaks.
    fn check_content(octets: &[u8]) -> Result<(), Error>
        ensures { ChecksContent content_allowed octets.now result };

    /// Returns whether the value is in DER form.
    fn leaf_in_form(&self) -> bool
        ensures { IsTrue result ↔ leaf_form self.now };

    /// Returns how many octets the content has.
    fn leaf_len(&self) -> SerializeResult<usize>
        ensures { Measures (content self.now) result };

    /// Writes the content, and returns its number of octets.
    fn write_leaf<S: Sink>(&self, writer: &mut S) -> SerializeResult<usize>
        ensures { Writes (S.contents writer.old) (S.contents writer.new) (S.failures writer.old) (S.failures writer.new)
            (IsLong (content self.now)) ⊥ (leaf_form self.now → ⊥) (content self.now) result };

    /// The tag number fits 32 bits.
    ghost low: { Self.tag_number < 2 ^ 32 };

    /// What is written of a value in DER form is allowed, and means the value.
    ghost fits: { (v : Self) → leaf_form v → content_allowed (content v) × content_means (content v) v };

    /// Another value that this content means has an equal content.
    ghost same: { (v w : Self) → leaf_form v → content_means (content v) w → content w ≡ content v };
}

/// A primitive type whose content is read.
pub trait FromLeaf<'a>: DerLeaf + Sized {
    /// Returns the value of the content, or an error if it has none. `OutOfMemory` comes only from
    /// a type that allocates (`content_grows`).
    fn from_content(alloc: Global, octets: &'a [u8]) -> Result<Self, Error>
        ensures { ReadsContent Self.content_grows Self.content_means octets.now result };
}

impl<T: DerLeaf> AnyMeaning for T {
    ghost means = { LeafMeans T.tag_number T.content_means };

    ghost reading_grows = { T.content_grows };
}

// A primitive element of the tag number, or the error that it is none.
fn check_leaf<T: Tagged>(any: &Any<'_>) -> Result<(), Error>
    ensures { Checks (IsLeaf T.tag_number) (any_of any.now) result }
{
    any.tag().assert_eq(T::own_tag())?;
    any.header.assert_primitive()
}

impl<'a, E: From<Error>, T: FromLeaf<'a> + DerLeaf> FromAny<'a, E> for T {
    fn try_from_any(alloc: Global, any: Any<'a>) -> Result<Self, Err<E>> {
        match check_leaf::<T>(&any) {
            Ok(()) => match T::from_content(alloc, any.content) {
                Ok(value) => Ok(value),
                Err(e) => Err(Err::from(e)),
            },
            Err(e) => Err(Err::from(e)),
        }
    }
}

impl<T: DerLeaf> CheckDerConstraints for T {
    ghost der_allows = { LeafAllows T.tag_number T.content_allowed };

    fn check_constraints(any: &Any<'_>) -> Result<(), Error> {
        match check_leaf::<T>(any) {
            Ok(()) => T::check_content(any.content),
            Err(e) => Err(e),
        }
    }
}

impl<T: DerLeaf> DerAutoDerive for T {}

impl<T: DerLeaf> ToDer for T {
    ghost is_der = { T.leaf_form };

    ghost element = { λ v. Some (primitive T.tag_number (T.content v)) };

    fn in_der_form(&self) -> bool {
        self.leaf_in_form()
    }

    fn der_kind(&self) -> Option<DerKind> {
        Some(DerKind::primitive(T::own_tag()))
    }

    fn der_content_len(&self) -> SerializeResult<usize> {
        self.leaf_len()
    }

    fn write_der_content<S: Sink>(&self, writer: &mut S) -> SerializeResult<usize> {
        self.write_leaf(writer)
    }
}
