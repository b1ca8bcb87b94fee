//! `Any`, an element of any type, read and written by the traits.

ghost use Rattle.std.specs.Prelude.{◌≡◌, ◌↔◌, ◌^◌, ◌<◌, Some, IsTrue};
ghost use Rattle.asn1_any.specs.Views.{any_of, ber_any_of};
ghost use Rattle.asn1_traits.specs.AnyLaws.{any_one, any_back, any_same};
ghost use Rattle.asn1_traits.specs.Reads.{Checks};

use crate::laws::DerElement;
use crate::read::{AnyMeaning, CheckDerConstraints, DerAutoDerive, FromAny};
use crate::write::{DerKind, ToDer, write_all};
use asn1_any::Any;
use asn1_core::{Err, Error, SerializeResult};
use asn1_device::Sink;
use std::alloc::Global;

impl<'b> AnyMeaning for Any<'b> {
    ghost means = { λ e v. ber_any_of v ≡ e };
}

impl<'b, E: From<Error>> FromAny<'b, E> for Any<'b> {
    fn try_from_any(_alloc: Global, any: Any<'b>) -> Result<Any<'b>, Err<E>> {
        Ok(any)
    }
}

impl<'b> CheckDerConstraints for Any<'b> {
    ghost der_allows = { λ _. Unit {0} };

    fn check_constraints(_any: &Any<'_>) -> Result<(), Error>
        ensures { Checks (λ _. Unit {0}) (any_of _any.now) result }
    {
        Ok(())
    }
}

impl<'b> DerAutoDerive for Any<'b> {}

impl<'b> ToDer for Any<'b> {
    ghost is_der = { λ v. v.header.tag.0 < 2 ^ 32 };

    ghost element = { λ v. Some (any_of v) };

    fn in_der_form(&self) -> bool {
        let _number = self.tag().0;
        true
    }

    fn der_kind(&self) -> Option<DerKind> {
        Some(DerKind {
            class: self.class(),
            constructed: self.header.constructed(),
            tag: self.tag(),
        })
    }

    fn der_content_len(&self) -> SerializeResult<usize> {
        Ok(self.content.len())
    }

    fn write_der_content<S: Sink>(&self, writer: &mut S) -> SerializeResult<usize> {
        write_all(writer, self.content)
    }
}

impl<'b> DerElement for Any<'b> {
    ghost one_element = { any_one };

    ghost reads_back = { any_back };

    ghost same_back = { any_same };
}
