//! Items one after another, each read by a closure.

ghost use Rattle.der_parser.specs.Items.{ReadsEach, HandsItems};

use crate::element::element_of_tag;
use asn1_core::{Err as Refusal, Error, ErrorKind, IResult, Tag};
use std::alloc::Global;

/// Reads a SEQUENCE OF (X.690, 8.10): the closure reads item after item, to the end of the content.
/// Returns `(rest, items)`.
///
/// # Errors
///
/// Those of `parse_der_sequence_defined_g`; the closure's, an `Incomplete` becoming an error, since
/// the content is whole; `NomError(Many0)` for an item that takes no octet; `Failure(OutOfMemory)`.
pub fn parse_der_sequence_of_v<
    'a,
    T: Drop,
    E: From<Error>,
    F: Fn(&'a [u8]) -> IResult<&'a [u8], T, E>,
>(alloc: Global, i: &'a [u8], f: F) -> IResult<&'a [u8], Vec<T>, E>
    requires { F.IsAlwaysCallable f }
    ensures { HandsItems E.from_gives 16 (λ content r. F.post f content r) i.now result }
{
    match element_of_tag(i, Tag::Sequence) {
        Ok((rest, element)) => match items_of(alloc, element.content, f) {
            Ok(items) => Ok((rest, items)),
            Err(refusal) => Err(refusal),
        },
        Err(refusal) => Err(Refusal::convert(refusal)),
    }
}

/// Reads the items of the octets, to their end.
fn items_of<'a, T: Drop, E: From<Error>, F: Fn(&'a [u8]) -> IResult<&'a [u8], T, E>>(
    alloc: Global,
    content: &'a [u8],
    f: F,
) -> Result<Vec<T>, Refusal<E>>
    requires { F.IsAlwaysCallable f }
    ensures { ReadsEach E.from_gives (λ i r. F.post f i r) content.now result }
{
    let mut items = Vec::new(alloc);
    let mut rest = content;
    while !rest.is_empty() {
        match f(rest) {
            Ok((after, item)) => {
                if after.len() >= rest.len() {
                    return Err(Refusal::Error(E::from(Error::NomError(ErrorKind::Many0))));
                }
                match items.push(item) {
                    Ok(()) => rest = after,
                    Err(_) => return Err(Refusal::Failure(E::from(Error::OutOfMemory))),
                }
            }
            Err(refusal) => return Err(Refusal::within(refusal)),
        }
    }
    Ok(items)
}
