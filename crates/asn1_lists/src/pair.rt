//! A sequence of two values.

ghost use Rattle.std.specs.Prelude.{◌≡◌, ◌⊎◌, Some};
ghost use Rattle.std.proofs.Common.{refl};
ghost use Rattle.asn1_lists.specs.Pairs.{PairMeans, pair_element, pair_one, pair_back, pair_same};

use asn1_any::Any;
use asn1_core::{Class, Err, Error, SerializeError, SerializeResult, Tag};
use asn1_device::Sink;
use asn1_traits::{
    DerAnyMeaning, DerElement, DerKind, DerMeaning, FromDer, FromDerAny, Tagged, TaggedElement,
    ToDer, check_container,
};
use std::alloc::Global;

/// A SEQUENCE of two values, whose types may differ (X.690, 8.9). More values are pairs of pairs,
/// each a SEQUENCE of its own, or a type of one's own that follows this one.
///
/// What is read has to end with the second value: octets after it are `InvalidLength`. The errors
/// of the two values are returned; octets that are missing in the SEQUENCE are an error, since its
/// content is whole. Reading allocates if one of the two types does.
#[derive(Clone, Copy, Debug, PartialEq, Eq, Drop)]
pub struct Pair<A, B> {
    pub first: A,
    pub second: B,
}

impl<A, B> Tagged for Pair<A, B> {
    const TAG: Tag = Tag::Sequence;

    ghost tag_number = { 16 };

    fn own_class() -> Class {
        Class::Universal
    }

    fn own_tag() -> Tag {
        Tag::Sequence
    }
}

impl<A: DerMeaning, B: DerMeaning> DerAnyMeaning for Pair<A, B> {
    ghost der_means = { λ e v. PairMeans A.der_reads B.der_reads e v.first v.second };

    ghost der_reading_grows = { A.der_grows ⊎ B.der_grows };
}

impl<
    'a,
    E: From<Error>,
    A: FromDer<'a, E> + DerMeaning + Drop,
    B: FromDer<'a, E> + DerMeaning + Drop,
> FromDerAny<'a, E> for Pair<A, B> {
    fn try_from_der_any(alloc: Global, any: Any<'a>) -> Result<Pair<A, B>, Err<E>> {
        match check_container(&any, Tag::Sequence) {
            Ok(()) => {}
            Err(e) => return Err(Err::from(e)),
        }
        let (rest, first) = match A::from_der(alloc, any.content) {
            Ok(read) => read,
            Err(e) => return Err(Err::within(e)),
        };
        let (rest, second) = match B::from_der(alloc, rest) {
            Ok(read) => read,
            Err(e) => return Err(Err::within(e)),
        };
        if rest.is_empty() {
            Ok(Pair { first, second })
        } else {
            Err(Err::from(Error::InvalidLength))
        }
    }
}

impl<A: ToDer, B: ToDer> ToDer for Pair<A, B> {
    ghost is_der = { λ v. A.is_der v.first × B.is_der v.second };

    ghost element = { λ v. Some (pair_element (A.element v.first) (B.element v.second)) };

    ghost grows = { λ v. A.grows v.first ⊎ B.grows v.second };

    fn in_der_form(&self) -> bool {
        self.first.in_der_form() && self.second.in_der_form()
    }

    fn der_kind(&self) -> Option<DerKind> {
        Some(DerKind::constructed(Tag::Sequence))
    }

    fn der_content_len(&self) -> SerializeResult<usize> {
        let first = match self.first.to_der_len() {
            Ok(n) => n,
            Err(e) => return Err(e),
        };
        let second = match self.second.to_der_len() {
            Ok(n) => n,
            Err(e) => return Err(e),
        };
        match first.checked_add(second) {
            Some(n) => Ok(n),
            None => Err(SerializeError::InvalidLength),
        }
    }

    fn write_der_content<S: Sink>(&self, writer: &mut S) -> SerializeResult<usize> {
        let first = match self.first.write_der(writer) {
            Ok(n) => n,
            Err(e) => return Err(e),
        };
        let second = match self.second.write_der(writer) {
            Ok(n) => n,
            Err(e) => return Err(e),
        };
        match first.checked_add(second) {
            Some(n) => Ok(n),
            None => Err(SerializeError::InvalidLength),
        }
    }
}

impl<A: DerElement, B: DerElement> DerElement for Pair<A, B> {
    ghost one_element = { λ v _. pair_one (A.element v.first) (B.element v.second) };

    ghost reads_back = { pair_back (λ a b. record { first = a; second = b }) (λ v. v.first) (λ v. v.second) (λ _ _. refl) (λ _ _. refl)
        A.is_der A.element A.der_reads B.is_der B.element B.der_reads A.reads_back B.reads_back };

    ghost same_back = { pair_same (λ v. v.first) (λ v. v.second) A.is_der A.element A.der_reads B.is_der B.element B.der_reads
        A.reads_back A.same_back A.one_rest B.same_back };
}

impl<A: DerElement, B: DerElement> TaggedElement for Pair<A, B> {
    ghost has_tag = { λ _ _. refl };
}
