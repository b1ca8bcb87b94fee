//! `SetOf`, a SET OF (X.690, 8.12).

ghost use Rattle.std.specs.Prelude.{◌≡◌, ◌↔◌, ◌<◌, ◌++◌, ◌∷◌, List, [], Some, IsTrue, length, is_ok, if◌then◌else◌};
ghost use Rattle.std.specs.Iterator.Adapters.{IterYieldsInOrder};
ghost use Rattle.std.specs.Slice.Iter.{iter_rest};
ghost use Rattle.std.proofs.Common.{lit<, refl};
ghost use Rattle.asn1_traits.specs.Lists.{ContainerMeans, EachIs};
ghost use Rattle.asn1_lists.specs.Ordered.{set_of};
ghost use Rattle.asn1_lists.specs.SetLaws.{set_back, set_same};

use crate::encoding::set_content;
use asn1_any::Any;
use asn1_core::{Class, Err, Error, OutOfMemory, SerializeResult, Tag};
use asn1_device::Sink;
use asn1_traits::{
    AnyMeaning, BerMeaning, DerAnyMeaning, DerElement, DerKind, DerMeaning, FromAny, FromBer,
    FromDer, FromDerAny, Tagged, TaggedElement, ToDer, are_in_der_form, check_container, items_len,
    read_ber_items, read_items, write_all,
};
use std::alloc::Global;
use std::marker::Model;
use std::slice::Iter;

/// Values of one type, written as a SET OF in ascending order of their encodings (X.690, 11.6),
/// whatever order they are in here.
///
/// It is read from values in any order. Writing it allocates, unless it is empty, and sorts the
/// encodings.
#[derive(Debug, Drop)]
pub struct SetOf<T> {
    items: Vec<T>,
}

impl<T> Model for SetOf<T> {
    ghost Value = { List T };

    ghost view = { λ s. s.items.items };
}

impl<T> SetOf<T> {
    /// Returns a set of no values. It takes no memory.
    pub fn new(alloc: Global) -> SetOf<T>
        ensures { result ≡ [] }
    {
        SetOf {
            items: Vec::new(alloc),
        }
    }

    /// Returns the set of these values.
    pub fn from_vec(items: Vec<T>) -> SetOf<T>
        ensures { result ≡ items.items }
    {
        SetOf { items }
    }

    /// Returns the values, in the order in which they were put.
    pub fn into_vec(self) -> Vec<T>
        ensures { result.items ≡ self }
    {
        let SetOf { items } = self;
        items
    }

    /// Adds a value at the end. The only error is out of memory; the values are then as they were.
    pub fn push(&mut self, item: T) -> Result<(), OutOfMemory>
    where
        T: Drop,
        ensures { self.new ≡ (if is_ok result then self.old ++ item ∷ [] else self.old) }
    {
        match self.items.push(item) {
            Ok(()) => Ok(()),
            Err(_) => Err(OutOfMemory),
        }
    }

    /// Returns how many values there are.
    pub fn len(&self) -> usize
        ensures { result ≡ length self.now }
    {
        self.items.len()
    }

    /// Returns whether there are none.
    pub fn is_empty(&self) -> bool
        ensures { IsTrue result ↔ (self.now ≡ []) }
    {
        self.items.is_empty()
    }

    /// Returns the values as a slice.
    pub fn as_slice(&self) -> &[T]
        ensures { result.now ≡ self.now }
    {
        self.items.as_slice()
    }

    /// Returns the values as a slice.
    pub fn as_ref(&self) -> &[T]
        ensures { result.now ≡ self.now }
    {
        self.as_slice()
    }

    /// Returns an iterator over the values.
    pub fn iter(&self) -> Iter<'_, T>
        ensures rest { iter_rest result ≡ self.now }
        ensures runs { IterYieldsInOrder T }
    {
        self.items.iter()
    }
}

impl<T> Tagged for SetOf<T> {
    const TAG: Tag = Tag::Set;

    ghost tag_number = { 17 };

    fn own_class() -> Class {
        Class::Universal
    }

    fn own_tag() -> Tag {
        Tag::Set
    }
}

impl<T: BerMeaning> AnyMeaning for SetOf<T> {
    ghost means = { ContainerMeans 17 T.ber_reads };

    ghost reading_grows = { Unit {0} };
}

impl<'a, E: From<Error>, T: FromBer<'a, E> + BerMeaning + Drop> FromAny<'a, E> for SetOf<T> {
    fn try_from_any(alloc: Global, any: Any<'a>) -> Result<SetOf<T>, Err<E>> {
        match check_container(&any, Tag::Set) {
            Ok(()) => match read_ber_items(alloc, any.content) {
                Ok(items) => Ok(SetOf { items }),
                Err(e) => Err(e),
            },
            Err(e) => Err(Err::from(e)),
        }
    }
}

impl<T: DerMeaning> DerAnyMeaning for SetOf<T> {
    ghost der_means = { ContainerMeans 17 T.der_reads };

    ghost der_reading_grows = { Unit {0} };
}

impl<'a, E: From<Error>, T: FromDer<'a, E> + DerMeaning + Drop> FromDerAny<'a, E> for SetOf<T> {
    fn try_from_der_any(alloc: Global, any: Any<'a>) -> Result<SetOf<T>, Err<E>> {
        match check_container(&any, Tag::Set) {
            Ok(()) => match read_items(alloc, any.content) {
                Ok(items) => Ok(SetOf { items }),
                Err(e) => Err(e),
            },
            Err(e) => Err(Err::from(e)),
        }
    }
}

impl<T: ToDer> ToDer for SetOf<T> {
    ghost is_der = { EachIs T.is_der };

    ghost element = { λ v. Some (set_of T.element v) };

    ghost grows = { λ v. 0 < length v };

    fn in_der_form(&self) -> bool {
        are_in_der_form(self.items.as_slice())
    }

    fn der_kind(&self) -> Option<DerKind> {
        Some(DerKind::constructed(Tag::Set))
    }

    fn der_content_len(&self) -> SerializeResult<usize> {
        items_len(self.items.as_slice())
    }

    fn write_der_content<S: Sink>(&self, writer: &mut S) -> SerializeResult<usize> {
        match set_content(self.items.as_slice(), *self.items.allocator()) {
            Ok(octets) => write_all(writer, octets.as_slice()),
            Err(e) => Err(e),
        }
    }
}

impl<T: DerElement> DerElement for SetOf<T> {
    ghost one_element = { λ _ _. (lit< tt, lit< tt) };

    ghost reads_back = { set_back T.is_der T.element T.der_reads T.one_element T.reads_back };

    ghost same_back = { set_same T.is_der T.element T.der_reads T.one_element T.reads_back T.same_back T.one_rest };
}

impl<T: DerElement> TaggedElement for SetOf<T> {
    ghost has_tag = { λ _ _. refl };
}
