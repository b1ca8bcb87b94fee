//! The iterator over the values of a content.

ghost use Rattle.std.specs.Prelude.{◌≡◌, length};
ghost use Rattle.std.specs.Iterator.{at_most};
ghost use Rattle.asn1_lists.specs.Steps.{Steps};

use crate::parser::{BerParser, DerParser};
use asn1_core::{Err, Error, ErrorKind};
use asn1_traits::{BerMeaning, DerMeaning, FromBer, FromDer};
use std::alloc::Global;
use std::marker::{Model, PhantomData};

/// An iterator over the values in the content octets of a sequence or a set, read one after another
/// by the rules of `P`, which is `BerParser` or `DerParser`.
///
/// It gives `Ok` items and then ends, or one `Err` and then ends for good. The errors are those of
/// `T`; `NomError(Many0)` for a value that takes no octet; missing octets are an error too, never
/// `Incomplete`, since the content is whole.
#[derive(Drop)]
pub struct SequenceIterator<'a, T, P, E> {
    alloc: Global,
    content: &'a [u8],
    of: PhantomData<(T, P, E)>,
}

impl<'a, T, P, E> Model for SequenceIterator<'a, T, P, E> {
    ghost use Rattle.std.specs.Prelude.{ℕ, List};

    ghost Value = { List ℕ };

    ghost view = { λ it. it.content.now };
}

impl<'a, T, P, E> SequenceIterator<'a, T, P, E> {
    /// Returns an iterator over the values in these octets.
    pub fn new(alloc: Global, content: &'a [u8]) -> SequenceIterator<'a, T, P, E>
        ensures { result ≡ content.now }
    {
        SequenceIterator {
            alloc,
            content,
            of: PhantomData,
        }
    }
}

impl<'a, E: From<Error>, T: FromDer<'a, E> + DerMeaning + Drop> Iterator
    for SequenceIterator<'a, T, DerParser, E> {
    type Item = Result<T, Err<E>>;

    ghost next_gives = { Steps E.from_gives T.der_grows T.der_reads };

    ghost remaining = { λ octets. at_most (length octets) };

    fn next(&mut self) -> Option<Result<T, Err<E>>> {
        if self.content.is_empty() {
            return None;
        }
        let octets = self.content;
        self.content = &[];
        match T::from_der(self.alloc, octets) {
            Ok((rest, item)) => {
                if rest.len() >= octets.len() {
                    return Some(Err(Err::from(Error::NomError(ErrorKind::Many0))));
                }
                self.content = rest;
                Some(Ok(item))
            }
            Err(e) => Some(Err(Err::within(e))),
        }
    }
}

impl<'a, E: From<Error>, T: FromBer<'a, E> + BerMeaning + Drop> Iterator
    for SequenceIterator<'a, T, BerParser, E> {
    type Item = Result<T, Err<E>>;

    ghost next_gives = { Steps E.from_gives T.ber_grows T.ber_reads };

    ghost remaining = { λ octets. at_most (length octets) };

    fn next(&mut self) -> Option<Result<T, Err<E>>> {
        if self.content.is_empty() {
            return None;
        }
        let octets = self.content;
        self.content = &[];
        match T::from_ber(self.alloc, octets) {
            Ok((after, item)) => {
                if after.len() >= octets.len() {
                    return Some(Err(Err::from(Error::NomError(ErrorKind::Many0))));
                }
                self.content = after;
                Some(Ok(item))
            }
            Err(e) => Some(Err(Err::within(e))),
        }
    }
}
