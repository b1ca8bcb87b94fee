//! `SequenceOf`, a SEQUENCE OF (X.690, 8.10).

ghost use Rattle.std.specs.Prelude.{◌≡◌, ◌↔◌, ◌++◌, ◌∷◌, List, [], Some, IsTrue, length, is_ok, if◌then◌else◌};
ghost use Rattle.std.specs.Iterator.Adapters.{IterYieldsInOrder};
ghost use Rattle.std.specs.Slice.Iter.{iter_rest};
ghost use Rattle.std.proofs.Common.{lit<, refl};
ghost use Rattle.asn1_traits.specs.Lists.{ContainerMeans, container_of, EachIs, OneIs};
ghost use Rattle.asn1_traits.specs.ListLaws.{list_back, list_same};

use asn1_any::Any;
use asn1_core::{Class, Err, Error, OutOfMemory, SerializeResult, Tag};
use asn1_device::Sink;
use asn1_traits::{
    AnyMeaning, BerMeaning, DerAnyMeaning, DerElement, DerKind, DerMeaning, FromAny, FromBer,
    FromDer, FromDerAny, Tagged, TaggedElement, ToDer, are_in_der_form, check_container, items_len,
    read_ber_items, read_items, write_items,
};
use std::alloc::Global;
use std::marker::Model;
use std::slice::Iter;

/// Values of one type, written as a SEQUENCE OF in their order (X.690, 8.10).
#[derive(Debug, Drop)]
pub struct SequenceOf<T> {
    items: Vec<T>,
}

impl<T> Model for SequenceOf<T> {
    ghost Value = { List T };

    ghost view = { λ s. s.items.items };
}

impl<T> SequenceOf<T> {
    /// Returns a sequence of no values. It takes no memory.
    pub fn new(alloc: Global) -> SequenceOf<T>
        ensures { result ≡ [] }
    {
        SequenceOf {
            items: Vec::new(alloc),
        }
    }

    /// Returns the sequence of these values.
    pub fn from_vec(items: Vec<T>) -> SequenceOf<T>
        ensures { result ≡ items.items }
    {
        SequenceOf { items }
    }

    /// Returns the values.
    pub fn into_vec(self) -> Vec<T>
        ensures { result.items ≡ self }
    {
        let SequenceOf { items } = self;
        items
    }

    /// Adds a value at the end. The only error is out of memory; the values are then as they were.
    pub fn push(&mut self, item: T) -> Result<(), OutOfMemory>
    where
        T: Drop,
        ensures { self.new ≡ (if is_ok result then self.old ++ item ∷ [] else self.old) }
    {
        match self.items.push(item) {
            Ok(()) => Ok(()),
            Err(_) => Err(OutOfMemory),
        }
    }

    /// Returns how many values there are.
    pub fn len(&self) -> usize
        ensures { result ≡ length self.now }
    {
        self.items.len()
    }

    /// Returns whether there are none.
    pub fn is_empty(&self) -> bool
        ensures { IsTrue result ↔ (self.now ≡ []) }
    {
        self.items.is_empty()
    }

    /// Returns the values as a slice.
    pub fn as_slice(&self) -> &[T]
        ensures { result.now ≡ self.now }
    {
        self.items.as_slice()
    }

    /// Returns the values as a slice.
    pub fn as_ref(&self) -> &[T]
        ensures { result.now ≡ self.now }
    {
        self.as_slice()
    }

    /// Returns an iterator over the values.
    pub fn iter(&self) -> Iter<'_, T>
        ensures rest { iter_rest result ≡ self.now }
        ensures runs { IterYieldsInOrder T }
    {
        self.items.iter()
    }
}

impl<T> Tagged for SequenceOf<T> {
    const TAG: Tag = Tag::Sequence;

    ghost tag_number = { 16 };

    fn own_class() -> Class {
        Class::Universal
    }

    fn own_tag() -> Tag {
        Tag::Sequence
    }
}

impl<T: BerMeaning> AnyMeaning for SequenceOf<T> {
    ghost means = { ContainerMeans 16 T.ber_reads };

    ghost reading_grows = { Unit {0} };
}

impl<'a, E: From<Error>, T: FromBer<'a, E> + BerMeaning + Drop> FromAny<'a, E> for SequenceOf<T> {
    fn try_from_any(alloc: Global, any: Any<'a>) -> Result<SequenceOf<T>, Err<E>> {
        match check_container(&any, Tag::Sequence) {
            Ok(()) => match read_ber_items(alloc, any.content) {
                Ok(items) => Ok(SequenceOf { items }),
                Err(e) => Err(e),
            },
            Err(e) => Err(Err::from(e)),
        }
    }
}

impl<T: DerMeaning> DerAnyMeaning for SequenceOf<T> {
    ghost der_means = { ContainerMeans 16 T.der_reads };

    ghost der_reading_grows = { Unit {0} };
}

impl<'a, E: From<Error>, T: FromDer<'a, E> + DerMeaning + Drop> FromDerAny<'a, E>
    for SequenceOf<T> {
    fn try_from_der_any(alloc: Global, any: Any<'a>) -> Result<SequenceOf<T>, Err<E>> {
        match check_container(&any, Tag::Sequence) {
            Ok(()) => match read_items(alloc, any.content) {
                Ok(items) => Ok(SequenceOf { items }),
                Err(e) => Err(e),
            },
            Err(e) => Err(Err::from(e)),
        }
    }
}

impl<T: ToDer> ToDer for SequenceOf<T> {
    ghost is_der = { EachIs T.is_der };

    ghost element = { λ v. Some (container_of 16 T.element v) };

    ghost grows = { OneIs T.grows };

    fn in_der_form(&self) -> bool {
        are_in_der_form(self.items.as_slice())
    }

    fn der_kind(&self) -> Option<DerKind> {
        Some(DerKind::constructed(Tag::Sequence))
    }

    fn der_content_len(&self) -> SerializeResult<usize> {
        items_len(self.items.as_slice())
    }

    fn write_der_content<S: Sink>(&self, writer: &mut S) -> SerializeResult<usize> {
        write_items(self.items.as_slice(), writer)
    }
}

impl<T: DerElement> DerElement for SequenceOf<T> {
    ghost one_element = { λ _ _. (lit< tt, lit< tt) };

    ghost reads_back = { list_back 16 (lit< tt) T.is_der T.element T.der_reads (λ v. v) (λ _ ws. ws) (λ _ _ _. refl) T.one_element T.reads_back };

    ghost same_back = { list_same 16 (lit< tt) T.is_der T.element T.der_reads (λ v. v) T.one_element T.reads_back T.same_back T.one_rest };
}

impl<T: DerElement> TaggedElement for SequenceOf<T> {
    ghost has_tag = { λ _ _. refl };
}
