//! Readers built from readers: the content of an element of a tag number is passed to a closure,
//! which is called at most once.
//!
//! The tag number alone is compared, not the class nor the constructed bit. Octets of the content
//! that the closure leaves are ignored. Errors: those of `der_read_element_header`,
//! `UnexpectedTag`, `Incomplete` if the content ends early, and the closure's, unchanged.

ghost use Rattle.der_parser.specs.Handed.{HandsOver, HandsObject};

use crate::element::element_of_tag;
use asn1_core::{Err as Refusal, Error, Header, IResult, Tag};
use der_tree::{BerObject, BerObjectContent, MAX_RECURSION, object_with};

/// Reads an element of tag number `tag` around other elements (X.690, 8.14.2): the closure reads
/// its content. Returns `(rest, value)`.
///
/// Errors are those of `der_read_element_header`; `UnexpectedTag`; `Incomplete` if the content ends
/// early; and the closure's, unchanged.
pub fn parse_der_tagged_explicit_g<
    'a,
    O,
    E: From<Error>,
    F: FnOnce(&'a [u8], Header) -> IResult<&'a [u8], O, E>,
>(i: &'a [u8], tag: Tag, f: F) -> IResult<&'a [u8], O, E>
    requires { F.IsAlwaysCallable f }
    ensures { HandsOver E.from_gives tag.0 (λ content header r. F.post f content header r) i.now result }
{
    match element_of_tag(i, tag) {
        Ok((rest, element)) => match f(element.content, element.header) {
            Ok((_, value)) => Ok((rest, value)),
            Err(refusal) => Err(refusal),
        },
        Err(refusal) => Err(Refusal::convert(refusal)),
    }
}

/// Reads an element whose tag number replaces that of a value (X.690, 8.14.3): the closure reads
/// its content, given its header and `MAX_RECURSION`, the levels that are allowed. Returns `(rest,
/// value)`.
///
/// Errors are those of `der_read_element_header`; `UnexpectedTag`; `Incomplete` if the content ends
/// early; and the closure's, unchanged.
pub fn parse_der_tagged_implicit_g<
    'a,
    O,
    E: From<Error>,
    F: FnOnce(&'a [u8], Header, usize) -> IResult<&'a [u8], O, E>,
>(i: &'a [u8], tag: Tag, f: F) -> IResult<&'a [u8], O, E>
    requires { F.IsAlwaysCallable f }
    ensures { HandsOver E.from_gives tag.0 (λ content header r. F.post f content header 50 r) i.now result }
{
    match element_of_tag(i, tag) {
        Ok((rest, element)) => match f(element.content, element.header, MAX_RECURSION) {
            Ok((_, value)) => Ok((rest, value)),
            Err(refusal) => Err(refusal),
        },
        Err(refusal) => Err(Refusal::convert(refusal)),
    }
}

/// Reads an element whose tag number replaces that of an object (X.690, 8.14.3), with a closure
/// that reads the object's content, as `parse_der_content` does. Returns `(rest, object)`; the
/// object has the header and the octets of the element.
///
/// Errors are those of `der_read_element_header`; `UnexpectedTag`; `Incomplete` if the content ends
/// early; and the closure's, unchanged.
pub fn parse_der_tagged_implicit<
    'a,
    E: From<Error>,
    F: FnOnce(&'a [u8], Header, usize) -> IResult<&'a [u8], BerObjectContent<'a>, E>,
>(i: &'a [u8], tag: Tag, f: F) -> IResult<&'a [u8], BerObject<'a>, E>
    requires { F.IsAlwaysCallable f }
    ensures { HandsObject E.from_gives tag.0 (λ content header r. F.post f content header 50 r) i.now result }
{
    match element_of_tag(i, tag) {
        Ok((rest, element)) => match f(element.content, element.header, MAX_RECURSION) {
            Ok((_, content)) => {
                let object = object_with(element.header, content, element.raw);
                Ok((rest, object))
            }
            Err(refusal) => Err(refusal),
        },
        Err(refusal) => Err(Refusal::convert(refusal)),
    }
}

/// Another name of `parse_der_tagged_implicit`: it reads what that reads, with its errors.
pub fn parse_der_implicit<
    'a,
    E: From<Error>,
    F: FnOnce(&'a [u8], Header, usize) -> IResult<&'a [u8], BerObjectContent<'a>, E>,
>(i: &'a [u8], tag: Tag, f: F) -> IResult<&'a [u8], BerObject<'a>, E>
    requires { F.IsAlwaysCallable f }
    ensures { HandsObject E.from_gives tag.0 (λ content header r. F.post f content header 50 r) i.now result }
{
    parse_der_tagged_implicit(i, tag, f)
}

/// Reads a SEQUENCE (X.690, 8.9): the closure reads its content. Returns `(rest, value)`.
///
/// Errors are those of `der_read_element_header`; `UnexpectedTag`; `Incomplete` if the content ends
/// early; and the closure's, unchanged.
pub fn parse_der_sequence_defined_g<
    'a,
    O,
    E: From<Error>,
    F: FnOnce(&'a [u8], Header) -> IResult<&'a [u8], O, E>,
>(i: &'a [u8], f: F) -> IResult<&'a [u8], O, E>
    requires { F.IsAlwaysCallable f }
    ensures { HandsOver E.from_gives 16 (λ content header r. F.post f content header r) i.now result }
{
    parse_der_tagged_explicit_g(i, Tag::Sequence, f)
}

/// Reads a SET (X.690, 8.11): the closure reads its content. Returns `(rest, value)`.
///
/// Errors are those of `der_read_element_header`; `UnexpectedTag`; `Incomplete` if the content ends
/// early; and the closure's, unchanged.
pub fn parse_der_set_defined_g<
    'a,
    O,
    E: From<Error>,
    F: FnOnce(&'a [u8], Header) -> IResult<&'a [u8], O, E>,
>(i: &'a [u8], f: F) -> IResult<&'a [u8], O, E>
    requires { F.IsAlwaysCallable f }
    ensures { HandsOver E.from_gives 17 (λ content header r. F.post f content header r) i.now result }
{
    parse_der_tagged_explicit_g(i, Tag::Set, f)
}
