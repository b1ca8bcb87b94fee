//! A struct of one's own, read and written as a SEQUENCE of two values by `Pair`.

ghost use Rattle.std.specs.Prelude.{◌≡◌, ◌⊎◌, Some};
ghost use Rattle.asn1_lists.specs.Pairs.{PairMeans, pair_element};

use asn1_any::Any;
use asn1_core::{Class, Err, Error, SerializeResult, Tag};
use asn1_device::Sink;
use asn1_lists::Pair;
use asn1_traits::{DerAnyMeaning, DerKind, DerMeaning, FromDerAny, Tagged, ToDer};
use std::alloc::Global;

/// `SEQUENCE { serial INTEGER, valid BOOLEAN }`.
#[derive(Clone, Copy, Debug, PartialEq, Eq)]
pub struct Ticket {
    pub serial: u32,
    pub valid: bool,
}

impl Ticket {
    fn pair(&self) -> Pair<u32, bool>
        ensures { result ≡ record { first = self.now.serial; second = self.now.valid } }
    {
        Pair {
            first: self.serial,
            second: self.valid,
        }
    }
}

impl Tagged for Ticket {
    const TAG: Tag = Tag::Sequence;

    ghost tag_number = { 16 };

    fn own_class() -> Class {
        Class::Universal
    }

    fn own_tag() -> Tag {
        Tag::Sequence
    }
}

impl DerAnyMeaning for Ticket {
    ghost der_means = { λ e t. PairMeans ⟦<u32 as DerMeaning>⟧.der_reads ⟦<bool as DerMeaning>⟧.der_reads e t.serial t.valid };

    ghost der_reading_grows = { ⟦<u32 as DerMeaning>⟧.der_grows ⊎ ⟦<bool as DerMeaning>⟧.der_grows };
}

impl<'a, E: From<Error>> FromDerAny<'a, E> for Ticket {
    fn try_from_der_any(alloc: Global, any: Any<'a>) -> Result<Ticket, Err<E>> {
        let Pair {
            first: serial,
            second: valid,
        } = match Pair::<u32, bool>::try_from_der_any(alloc, any) {
            Ok(pair) => pair,
            Err(e) => return Err(e),
        };
        Ok(Ticket { serial, valid })
    }
}

impl ToDer for Ticket {
    ghost is_der = { λ t. ⟦<u32 as ToDer>⟧.is_der t.serial × ⟦<bool as ToDer>⟧.is_der t.valid };

    ghost element = { λ t. Some (pair_element (⟦<u32 as ToDer>⟧.element t.serial) (⟦<bool as ToDer>⟧.element t.valid)) };

    fn in_der_form(&self) -> bool {
        self.pair().in_der_form()
    }

    fn der_kind(&self) -> Option<DerKind> {
        self.pair().der_kind()
    }

    fn der_content_len(&self) -> SerializeResult<usize> {
        self.pair().der_content_len()
    }

    fn write_der_content<S: Sink>(&self, writer: &mut S) -> SerializeResult<usize> {
        self.pair().write_der_content(writer)
    }
}
