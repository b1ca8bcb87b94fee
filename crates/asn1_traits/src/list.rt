//! `Vec`, a SEQUENCE OF (X.690, 8.10).

ghost use Rattle.std.specs.Prelude.{◌≡◌, Some};
ghost use Rattle.std.proofs.Common.{lit<, refl};
ghost use Rattle.asn1_core.specs.Elements.{Element};
ghost use Rattle.asn1_any.specs.Views.{any_of};
ghost use Rattle.asn1_traits.specs.Reads.{Checks};
ghost use Rattle.asn1_traits.specs.Lists.{IsContainer, ContainerMeans, container_of, EachIs, OneIs};
ghost use Rattle.asn1_traits.specs.ListLaws.{list_back, list_same, vec_put, vec_put_items};

use crate::ber_items::read_ber_items;
use crate::items::read_items;
use crate::laws::{DerElement, TaggedElement};
use crate::read::{
    AnyMeaning, BerMeaning, DerAnyMeaning, DerMeaning, FromAny, FromBer, FromDer, FromDerAny,
    Tagged,
};
use crate::write::{DerKind, ToDer};
use crate::written::{are_in_der_form, items_len, write_items};
use asn1_any::Any;
use asn1_core::{Class, Err, Error, SerializeResult, Tag};
use asn1_device::Sink;
use std::alloc::Global;

/// Returns `Ok(())` for a constructed element of this universal tag number; else `UnexpectedTag`,
/// `UnexpectedClass` or `ConstructExpected`, the first that applies.
pub fn check_container(any: &Any<'_>, tag: Tag) -> Result<(), Error>
    ensures { Checks (IsContainer tag.0) (any_of any.now) result }
{
    any.tag().assert_eq(tag)?;
    any.class().assert_eq(Class::Universal)?;
    any.header.assert_constructed()
}

impl<T> Tagged for Vec<T> {
    const TAG: Tag = Tag::Sequence;

    ghost tag_number = { 16 };

    fn own_class() -> Class {
        Class::Universal
    }

    fn own_tag() -> Tag {
        Tag::Sequence
    }
}

impl<T: BerMeaning> AnyMeaning for Vec<T> {
    ghost means = { λ e v. ContainerMeans 16 T.ber_reads e v.items };

    ghost reading_grows = { Unit {0} };
}

impl<'a, E: From<Error>, T: FromBer<'a, E> + BerMeaning + Drop> FromAny<'a, E> for Vec<T> {
    fn try_from_any(alloc: Global, any: Any<'a>) -> Result<Vec<T>, Err<E>> {
        match check_container(&any, Tag::Sequence) {
            Ok(()) => read_ber_items(alloc, any.content),
            Err(e) => Err(Err::from(e)),
        }
    }
}

impl<T: DerMeaning> DerAnyMeaning for Vec<T> {
    ghost der_means = { λ e v. ContainerMeans 16 T.der_reads e v.items };

    ghost der_reading_grows = { Unit {0} };
}

impl<'a, E: From<Error>, T: FromDer<'a, E> + DerMeaning + Drop> FromDerAny<'a, E> for Vec<T> {
    fn try_from_der_any(alloc: Global, any: Any<'a>) -> Result<Vec<T>, Err<E>> {
        match check_container(&any, Tag::Sequence) {
            Ok(()) => read_items(alloc, any.content),
            Err(e) => Err(Err::from(e)),
        }
    }
}

impl<T: ToDer> ToDer for Vec<T> {
    ghost is_der = { λ v. EachIs T.is_der v.items };

    ghost element = { λ v. Some (container_of 16 T.element v.items) };

    ghost grows = { λ v. OneIs T.grows v.items };

    fn in_der_form(&self) -> bool {
        are_in_der_form(self.as_slice())
    }

    fn der_kind(&self) -> Option<DerKind> {
        Some(DerKind::constructed(Tag::Sequence))
    }

    fn der_content_len(&self) -> SerializeResult<usize> {
        items_len(self.as_slice())
    }

    fn write_der_content<S: Sink>(&self, writer: &mut S) -> SerializeResult<usize> {
        write_items(self.as_slice(), writer)
    }
}

impl<T: DerElement> DerElement for Vec<T> {
    ghost one_element = { λ _ _. (lit< tt, lit< tt) };

    ghost reads_back = { list_back 16 (lit< tt) T.is_der T.element T.der_reads (λ v. v.items) vec_put vec_put_items T.one_element T.reads_back };

    ghost same_back = { list_same 16 (lit< tt) T.is_der T.element T.der_reads (λ v. v.items) T.one_element T.reads_back T.same_back T.one_rest };
}

impl<T: DerElement> TaggedElement for Vec<T> {
    ghost has_tag = { λ _ _. refl };
}
