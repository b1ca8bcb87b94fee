//! `Set`, a set that keeps its content (X.690, 8.11).

ghost use Rattle.std.specs.Prelude.{◌≡◌, ◌↔◌, Some, IsTrue};
ghost use Rattle.std.proofs.Common.{lit<, refl};
ghost use Rattle.asn1_any.specs.Views.{any_of};
ghost use Rattle.asn1_traits.specs.Reads.{Checks};
ghost use Rattle.asn1_traits.specs.Lists.{ReadsAll};
ghost use Rattle.asn1_lists.specs.Containers.{container, HoldsContent};
ghost use Rattle.asn1_lists.specs.ContainerLaws.{container_one, container_back, container_same};
ghost use Rattle.asn1_core.specs.Views.{class_number};

use crate::iterator::SequenceIterator;
use crate::parser::{BerParser, DerParser};
use asn1_any::Any;
use asn1_core::{Class, Err, Error, IResult, SerializeResult, Tag};
use asn1_device::Sink;
use asn1_traits::{
    AnyMeaning, BerMeaning, CheckDerConstraints, DerAutoDerive, DerElement, DerKind, DerMeaning,
    FromAny, FromBer, FromDer, Tagged, TaggedElement, ToDer, check_container, read_ber_items,
    read_items, write_all,
};
use std::alloc::Global;

/// A SET and its content octets, a window of the octets that were read (X.690, 8.11). Nothing is
/// required of the content.
#[derive(Clone, Copy, Debug, PartialEq, Eq)]
pub struct Set<'a> {
    /// The content octets.
    pub content: &'a [u8],
}

impl<'a> Set<'a> {
    /// Returns the set of this content.
    pub fn new(content: &'a [u8]) -> Set<'a>
        ensures { result.content ≡ content.entry }
    {
        Set { content }
    }

    /// Returns the content octets.
    pub fn as_ref(&self) -> &'a [u8]
        ensures { result ≡ self.now.content }
    {
        self.content
    }

    /// Returns the content octets.
    pub fn into_content(self) -> &'a [u8]
        ensures { result ≡ self.entry.content }
    {
        self.as_ref()
    }

    /// Passes the content to a reader, and returns its result, errors included; the octets that it
    /// leaves are the rest in that result.
    pub fn and_then<T, E, F: FnOnce(&'a [u8]) -> IResult<&'a [u8], T, E>>(
        self,
        op: F,
    ) -> IResult<&'a [u8], T, E>
        requires { F.IsAlwaysCallable op }
        ensures { F.post op self.entry.content result }
    {
        op(self.content)
    }

    /// Passes the content to a reader, and returns its result, errors included; the set is kept.
    pub fn parse<T, E, F: FnOnce(&'a [u8]) -> IResult<&'a [u8], T, E>>(
        &self,
        f: F,
    ) -> IResult<&'a [u8], T, E>
        requires { F.IsAlwaysCallable f }
        ensures { F.post f self.now.content result }
    {
        f(self.content)
    }

    /// Returns an iterator over the values of the content, by BER's rules.
    pub fn ber_iter<T, E>(&self, alloc: Global) -> SequenceIterator<'a, T, BerParser, E>
        ensures { result ≡ self.now.content.now }
    {
        SequenceIterator::<T, BerParser, E>::new(alloc, self.content)
    }

    /// Returns an iterator over the values of the content, by DER's rules.
    pub fn der_iter<T, E>(&self, alloc: Global) -> SequenceIterator<'a, T, DerParser, E>
        ensures { result ≡ self.now.content.now }
    {
        SequenceIterator::<T, DerParser, E>::new(alloc, self.content)
    }

    /// Reads all values of the content, by BER's rules, into a vector. Errors are those of
    /// `read_ber_items`.
    pub fn ber_set_of<E: From<Error>, T: FromBer<'a, E> + BerMeaning + Drop>(
        &self,
        alloc: Global,
    ) -> Result<Vec<T>, Err<E>>
        ensures { ReadsAll E.from_gives (λ v. v.items) T.ber_reads self.now.content.now result }
    {
        read_ber_items(alloc, self.content)
    }

    /// Reads all values of the content, by DER's rules, into a vector. Errors are those of
    /// `read_items`.
    pub fn der_set_of<E: From<Error>, T: FromDer<'a, E> + DerMeaning + Drop>(
        &self,
        alloc: Global,
    ) -> Result<Vec<T>, Err<E>>
        ensures { ReadsAll E.from_gives (λ v. v.items) T.der_reads self.now.content.now result }
    {
        read_items(alloc, self.content)
    }
}

impl<'b> Tagged for Set<'b> {
    const TAG: Tag = Tag::Set;

    ghost tag_number = { 17 };

    fn own_class() -> Class
        ensures { class_number result ≡ 0 }
    {
        Class::Universal
    }

    fn own_tag() -> Tag
        ensures { result.0 ≡ 17 }
    {
        Self::TAG
    }
}

impl<'b> AnyMeaning for Set<'b> {
    ghost means = { HoldsContent 17 (λ v. v.content.now) };
}

impl<'b, E: From<Error>> FromAny<'b, E> for Set<'b> {
    fn try_from_any(_alloc: Global, any: Any<'b>) -> Result<Set<'b>, Err<E>> {
        match check_container(&any, Tag::Set) {
            Ok(()) => Ok(Set {
                content: any.content,
            }),
            Err(e) => Err(Err::from(e)),
        }
    }
}

impl<'b> CheckDerConstraints for Set<'b> {
    ghost der_allows = { λ _. Unit {0} };

    fn check_constraints(_any: &Any<'_>) -> Result<(), Error>
        ensures { Checks (λ _. Unit {0}) (any_of _any.now) result }
    {
        Ok(())
    }
}

impl<'b> DerAutoDerive for Set<'b> {}

impl<'b> ToDer for Set<'b> {
    ghost is_der = { λ _. Unit {0} };

    ghost element = { λ v. Some (container 17 v.content.now) };

    fn in_der_form(&self) -> bool {
        true
    }

    fn der_kind(&self) -> Option<DerKind> {
        Some(DerKind::constructed(Tag::Set))
    }

    fn der_content_len(&self) -> SerializeResult<usize> {
        Ok(self.content.len())
    }

    fn write_der_content<S: Sink>(&self, writer: &mut S) -> SerializeResult<usize> {
        write_all(writer, self.content)
    }
}

impl<'b> DerElement for Set<'b> {
    ghost one_element = { λ v _. container_one 17 v.content.now (lit< tt) };

    ghost reads_back = { λ v rest _ short. container_back 17 (lit< tt) (λ x. x.content.now) v rest short };

    ghost same_back = { λ v w rest r _ short read. container_same 17 (lit< tt) (λ x. x.content.now) v w rest r short read };
}

impl<'b> TaggedElement for Set<'b> {
    ghost has_tag = { λ _ _. refl };
}
