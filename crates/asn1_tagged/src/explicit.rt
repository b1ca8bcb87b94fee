//! Values with an explicit tag: an element whose content is the value's whole encoding
//! (X.690, 8.14.2).

ghost use Rattle.std.specs.Prelude.{◌≡◌};
ghost use Rattle.asn1_any.specs.Views.{any_of};
ghost use Rattle.asn1_tagged.specs.Tagging.{ExplicitMeans, explicit_element, IsExplicitForm};

use crate::check::{check_explicit, refusal_under};
use crate::value::{Explicit, TaggedValue};
use asn1_any::Any;
use asn1_core::{Class, Err, Error, SerializeError, SerializeResult, Tag};
use asn1_device::Sink;
use asn1_traits::{
    AnyMeaning, BerMeaning, DerAnyMeaning, DerKind, DerMeaning, FromAny, FromBer, FromDer,
    FromDerAny, ToDer,
};
use std::alloc::Global;

impl<T: BerMeaning, E, const CLASS: u8, const TAG: u32> AnyMeaning
    for TaggedValue<T, E, Explicit, CLASS, TAG> {
    ghost means = { λ e v. ExplicitMeans CLASS TAG T.ber_reads e v.inner };

    ghost reading_grows = { T.ber_grows };
}

impl<'a, E: From<Error>, T: FromBer<'a, E> + BerMeaning, const CLASS: u8, const TAG: u32> FromAny<
    'a,
    E,
> for TaggedValue<T, E, Explicit, CLASS, TAG> {
    fn try_from_any(alloc: Global, any: Any<'a>) -> Result<Self, Err<E>> {
        match check_explicit(&any, CLASS, TAG) {
            Ok(()) => match T::from_ber(alloc, any.content) {
                Ok((_, inner)) => Ok(TaggedValue::explicit(inner)),
                Err(e) => Err(Err::within(e)),
            },
            Err(e) => Err(Err::from(e)),
        }
    }
}

impl<T: DerMeaning, E, const CLASS: u8, const TAG: u32> DerAnyMeaning
    for TaggedValue<T, E, Explicit, CLASS, TAG> {
    ghost der_means = { λ e v. ExplicitMeans CLASS TAG T.der_reads e v.inner };

    ghost der_reading_grows = { T.der_grows };
}

impl<
    'a,
    E: From<Error>,
    T: FromDer<'a, E> + DerMeaning,
    const CLASS: u8,
    const TAG: u32,
> FromDerAny<'a, E> for TaggedValue<T, E, Explicit, CLASS, TAG> {
    fn try_from_der_any(alloc: Global, any: Any<'a>) -> Result<Self, Err<E>> {
        match check_explicit(&any, CLASS, TAG) {
            Ok(()) => match T::from_der(alloc, any.content) {
                Ok((_, inner)) => Ok(TaggedValue::explicit(inner)),
                Err(e) => Err(Err::within(e)),
            },
            Err(e) => Err(Err::from(e)),
        }
    }
}

impl<T: ToDer, E, const CLASS: u8, const TAG: u32> ToDer
    for TaggedValue<T, E, Explicit, CLASS, TAG> {
    ghost is_der = { λ v. IsExplicitForm CLASS TAG (T.is_der v.inner) };

    ghost element = { λ v. explicit_element CLASS TAG (T.element v.inner) };

    ghost grows = { λ v. T.grows v.inner };

    fn in_der_form(&self) -> bool {
        CLASS < 4 && self.inner.in_der_form()
    }

    fn form_refusal(&self) -> SerializeError {
        refusal_under(CLASS, Tag(TAG))
    }

    fn der_kind(&self) -> Option<DerKind> {
        match Class::try_from(CLASS) {
            Ok(class) => Some(DerKind {
                class,
                constructed: true,
                tag: Tag(TAG),
            }),
            Err(_) => None,
        }
    }

    fn der_content_len(&self) -> SerializeResult<usize> {
        if CLASS < 4 {
            self.inner.to_der_len()
        } else {
            Ok(0)
        }
    }

    fn write_der_content<S: Sink>(&self, writer: &mut S) -> SerializeResult<usize> {
        if CLASS < 4 {
            self.inner.write_der(writer)
        } else {
            Err(SerializeError::InvalidClass { class: CLASS })
        }
    }
}
