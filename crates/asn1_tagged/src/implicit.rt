//! Values with an implicit tag, in place of their own (X.690, 8.14.3).

ghost use Rattle.std.specs.Prelude.{◌≡◌, ◌↔◌, IsTrue, option_map};
ghost use Rattle.asn1_core.specs.Views.{class_number};
ghost use Rattle.asn1_any.specs.Views.{ber_any_of};
ghost use Rattle.asn1_traits.specs.Writes.{kind_of};
ghost use Rattle.asn1_tagged.specs.Tagging.{ImplicitMeans, ber_retagged, implicit_element, IsOf, IsImplicitForm};

use crate::check::{check_tagged, refusal_under};
use crate::value::{Implicit, TaggedValue};
use asn1_any::Any;
use asn1_core::{Class, Err, Error, SerializeError, SerializeResult, Tag};
use asn1_device::Sink;
use asn1_traits::{AnyMeaning, DerAnyMeaning, DerKind, FromAny, FromDerAny, Tagged, ToDer};
use std::alloc::Global;

// The element under this class and tag number, its constructed bit, length and content as they are.
fn retag<'a>(any: Any<'a>, class: Class, tag: Tag) -> Any<'a>
    ensures { ber_any_of result ≡ ber_retagged (class_number class) tag.0 (ber_any_of any.entry) }
{
    Any::new(any.header.with_class(class).with_tag(tag), any.content)
}

impl<T: AnyMeaning + Tagged, E, const CLASS: u8, const TAG: u32> AnyMeaning
    for TaggedValue<T, E, Implicit, CLASS, TAG> {
    ghost means = { λ e v. ImplicitMeans CLASS TAG T.own_class_number T.tag_number T.means e v.inner };

    ghost reading_grows = { T.reading_grows };
}

impl<
    'a,
    E: From<Error>,
    T: FromAny<'a, E> + AnyMeaning + Tagged,
    const CLASS: u8,
    const TAG: u32,
> FromAny<'a, E> for TaggedValue<T, E, Implicit, CLASS, TAG> {
    fn try_from_any(alloc: Global, any: Any<'a>) -> Result<Self, Err<E>> {
        match check_tagged(&any, CLASS, TAG) {
            Ok(()) => match T::try_from_any(alloc, retag(any, T::own_class(), T::own_tag())) {
                Ok(inner) => Ok(TaggedValue::implicit(inner)),
                Err(e) => Err(e),
            },
            Err(e) => Err(Err::from(e)),
        }
    }
}

impl<T: DerAnyMeaning + Tagged, E, const CLASS: u8, const TAG: u32> DerAnyMeaning
    for TaggedValue<T, E, Implicit, CLASS, TAG> {
    ghost der_means = { λ e v. ImplicitMeans CLASS TAG T.own_class_number T.tag_number T.der_means e v.inner };

    ghost der_reading_grows = { T.der_reading_grows };
}

impl<
    'a,
    E: From<Error>,
    T: FromDerAny<'a, E> + DerAnyMeaning + Tagged,
    const CLASS: u8,
    const TAG: u32,
> FromDerAny<'a, E> for TaggedValue<T, E, Implicit, CLASS, TAG> {
    fn try_from_der_any(alloc: Global, any: Any<'a>) -> Result<Self, Err<E>> {
        match check_tagged(&any, CLASS, TAG) {
            Ok(()) => match T::try_from_der_any(alloc, retag(any, T::own_class(), T::own_tag())) {
                Ok(inner) => Ok(TaggedValue::implicit(inner)),
                Err(e) => Err(e),
            },
            Err(e) => Err(Err::from(e)),
        }
    }
}

// Whether the kind is of this class and tag number.
fn is_of(kind: Option<DerKind>, class: Class, tag: Tag) -> bool
    ensures { IsTrue result ↔ IsOf (class_number class) tag.0 (option_map kind_of kind) }
{
    match kind {
        Some(kind) => kind.class == class && kind.tag.0 == tag.0,
        None => false,
    }
}

impl<T: ToDer + Tagged, E, const CLASS: u8, const TAG: u32> ToDer
    for TaggedValue<T, E, Implicit, CLASS, TAG> {
    ghost is_der = { λ v. IsImplicitForm CLASS TAG T.own_class_number T.tag_number (T.is_der v.inner) (T.element v.inner) };

    ghost element = { λ v. implicit_element CLASS TAG (T.element v.inner) };

    ghost grows = { λ v. T.grows v.inner };

    fn in_der_form(&self) -> bool {
        CLASS < 4
            && self.inner.in_der_form()
            && is_of(self.inner.der_kind(), T::own_class(), T::own_tag())
            && self.inner.to_der_len().is_ok()
    }

    fn form_refusal(&self) -> SerializeError {
        refusal_under(CLASS, Tag(TAG))
    }

    fn der_kind(&self) -> Option<DerKind> {
        match (Class::try_from(CLASS), self.inner.der_kind()) {
            (Ok(class), Some(kind)) => Some(DerKind {
                class,
                constructed: kind.constructed,
                tag: Tag(TAG),
            }),
            _ => None,
        }
    }

    fn der_content_len(&self) -> SerializeResult<usize> {
        if CLASS < 4 {
            self.inner.der_content_len()
        } else {
            Ok(0)
        }
    }

    fn write_der_content<S: Sink>(&self, writer: &mut S) -> SerializeResult<usize> {
        if CLASS < 4 {
            self.inner.write_der_content(writer)
        } else {
            Err(SerializeError::InvalidClass { class: CLASS })
        }
    }
}
