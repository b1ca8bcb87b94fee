//! Values that may be absent: `Option` of a type with a tag.

ghost use Rattle.std.specs.Prelude.{◌≡◌, ◌↔◌, IsTrue};
ghost use Rattle.asn1_traits.specs.Options.{BeginsWithTag, BeginsWithBerTag, EndsWithinHeader, EndsWithinBerHeader, OptionReads, OptionCut, option_element, WhereSome, OnlySome};
ghost use Rattle.asn1_traits.specs.OptionLaws.{der_headers, ber_headers, option_rest};

use crate::read::{BerMeaning, DerMeaning, FromBer, FromDer, Tagged};
use crate::write::{DerKind, ToDer};
use asn1_core::{Err, Error, Header, IResult, SerializeResult};
use asn1_device::Sink;
use std::alloc::Global;

impl<T: DerMeaning + Tagged> DerMeaning for Option<T> {
    ghost der_reads = { OptionReads BeginsWithTag T.tag_number T.der_reads };

    ghost der_cut = { OptionCut EndsWithinHeader BeginsWithTag T.tag_number T.der_cut };

    ghost der_grows = { T.der_grows };

    ghost one_rest = { option_rest BeginsWithTag T.tag_number T.der_reads der_headers T.one_rest };
}

impl<'a, E: From<Error>, T: FromDer<'a, E> + DerMeaning + Tagged> FromDer<'a, E> for Option<T> {
    fn from_der(alloc: Global, bytes: &'a [u8]) -> IResult<&'a [u8], Option<T>, E> {
        if bytes.is_empty() {
            return Ok((bytes, None));
        }
        match Header::from_der(bytes) {
            Ok((_, header)) => {
                if header.tag().0 != T::own_tag().0 {
                    return Ok((bytes, None));
                }
                match T::from_der(alloc, bytes) {
                    Ok((rest, value)) => Ok((rest, Some(value))),
                    Err(e) => Err(e),
                }
            }
            Err(refusal) => Err(Err::convert(refusal)),
        }
    }
}

impl<T: BerMeaning + Tagged> BerMeaning for Option<T> {
    ghost ber_reads = { OptionReads BeginsWithBerTag T.tag_number T.ber_reads };

    ghost ber_cut = { OptionCut EndsWithinBerHeader BeginsWithBerTag T.tag_number T.ber_cut };

    ghost ber_grows = { T.ber_grows };

    ghost one_ber_rest = { option_rest BeginsWithBerTag T.tag_number T.ber_reads ber_headers T.one_ber_rest };
}

impl<'a, E: From<Error>, T: FromBer<'a, E> + BerMeaning + Tagged> FromBer<'a, E> for Option<T> {
    fn from_ber(alloc: Global, bytes: &'a [u8]) -> IResult<&'a [u8], Option<T>, E> {
        if bytes.is_empty() {
            return Ok((bytes, None));
        }
        match Header::from_ber(bytes) {
            Ok((_, header)) => {
                if header.tag().0 != T::own_tag().0 {
                    return Ok((bytes, None));
                }
                match T::from_ber(alloc, bytes) {
                    Ok((rest, value)) => Ok((rest, Some(value))),
                    Err(refused) => Err(refused),
                }
            }
            Err(refusal) => Err(Err::convert(refusal)),
        }
    }
}

impl<T: ToDer> ToDer for Option<T> {
    ghost is_der = { WhereSome T.is_der };

    ghost element = { option_element T.element };

    ghost grows = { OnlySome T.grows };

    fn in_der_form(&self) -> bool {
        match self {
            Some(value) => value.in_der_form(),
            None => true,
        }
    }

    fn der_kind(&self) -> Option<DerKind> {
        match self {
            Some(value) => value.der_kind(),
            None => None,
        }
    }

    fn der_content_len(&self) -> SerializeResult<usize> {
        match self {
            Some(value) => value.der_content_len(),
            None => Ok(0),
        }
    }

    fn write_der_content<S: Sink>(&self, writer: &mut S) -> SerializeResult<usize> {
        match self {
            Some(value) => value.write_der_content(writer),
            None => Ok(0),
        }
    }
}
