//! Parsers of optional elements, whose header and content are passed to a closure.

ghost use Rattle.std.specs.Prelude.{◌≡◌};
ghost use Rattle.asn1_any.specs.DerElements.{BeginsWithElement};
ghost use Rattle.asn1_tagged.specs.Parsing.{DerHeaded, BerHeaded, BerBegins, LacksElement, LacksBerElement, Parsed};
ghost use Rattle.asn1_tagged.specs.Parsers.{IsContextParser};

use asn1_any::Any;
use asn1_core::{Class, Err, Error, Header, IResult, Tag};

/// A parser of an element of one class and tag number, which may be absent.
///
/// It is absent if no octet is left, or if the next element, which has to be whole, has another tag
/// number, whatever its class. The constructed bit isn't checked.
#[derive(Clone, Copy, Debug, PartialEq, Eq)]
pub struct OptTaggedParser {
    /// The wanted class.
    pub class: Class,
    /// The wanted tag number.
    pub tag: Tag,
}

impl OptTaggedParser {
    /// Returns a parser of elements of this class and tag number.
    pub fn new(class: Class, tag: Tag) -> OptTaggedParser
        ensures { result ≡ record { class = class; tag = tag } }
    {
        OptTaggedParser { class, tag }
    }

    /// Reads an element by BER's rules (`Any::from_ber`) from the front of `i` and passes its
    /// header and content to `f`. Returns `(rest, Some(value))`: the octets after the element, and
    /// what `f` returns; what `f` leaves of the content is ignored. If the element is absent,
    /// returns `(i, None)`.
    ///
    /// # Errors
    ///
    /// Those of `Any::from_ber`; `UnexpectedClass` if the tag number is the wanted one and the
    /// class isn't; those of `f`, unchanged.
    pub fn parse_ber<'a, T, E: From<Error>, F: FnOnce(Header, &'a [u8]) -> IResult<&'a [u8], T, E>>(
        &self,
        bytes: &'a [u8],
        f: F,
    ) -> IResult<&'a [u8], Option<T>, E>
        requires { F.IsAlwaysCallable f }
        ensures { Parsed E.from_gives (LacksBerElement bytes.now) (λ i. i.now) (BerHeaded bytes.now) (BerBegins bytes.now) (F.post f) self.now.class self.now.tag bytes.now result }
    {
        if bytes.is_empty() {
            return Ok((bytes, None));
        }
        match Any::from_ber(bytes) {
            Ok((rest, element)) => {
                if element.tag() != self.tag {
                    return Ok((bytes, None));
                }
                match element.class().assert_eq(self.class) {
                    Ok(()) => match f(element.header, element.content) {
                        Ok((_, read)) => Ok((rest, Some(read))),
                        Err(e) => Err(e),
                    },
                    Err(e) => Err(Err::from(e)),
                }
            }
            Err(refusal) => Err(Err::convert(refusal)),
        }
    }

    /// Reads an element by DER's rules (`Any::from_der`) from the front of `i` and passes its
    /// header and content to `f`. Returns `(rest, Some(value))`: the octets after the element, and
    /// what `f` returns; what `f` leaves of the content is ignored. If the element is absent,
    /// returns `(i, None)`.
    ///
    /// # Errors
    ///
    /// Those of `Any::from_der`; `UnexpectedClass` if the tag number is the wanted one and the
    /// class isn't; those of `f`, unchanged.
    pub fn parse_der<'a, T, E: From<Error>, F: FnOnce(Header, &'a [u8]) -> IResult<&'a [u8], T, E>>(
        &self,
        bytes: &'a [u8],
        f: F,
    ) -> IResult<&'a [u8], Option<T>, E>
        requires { F.IsAlwaysCallable f }
        ensures { Parsed E.from_gives (LacksElement bytes.now) (λ i. i.now) (DerHeaded bytes.now) (BeginsWithElement bytes.now) (F.post f) self.now.class self.now.tag bytes.now result }
    {
        if bytes.is_empty() {
            return Ok((bytes, None));
        }
        match Any::from_der(bytes) {
            Ok((rest, any)) => {
                if any.tag() != self.tag {
                    return Ok((bytes, None));
                }
                match any.class().assert_eq(self.class) {
                    Ok(()) => match f(any.header, any.content) {
                        Ok((_, value)) => Ok((rest, Some(value))),
                        Err(e) => Err(e),
                    },
                    Err(e) => Err(Err::from(e)),
                }
            }
            Err(refusal) => Err(Err::convert(refusal)),
        }
    }
}

/// A parser of elements of the context-specific class with this tag number.
impl From<u32> for OptTaggedParser {
    ghost from_gives = { IsContextParser };

    fn from(tag: u32) -> OptTaggedParser {
        OptTaggedParser::new(Class::ContextSpecific, Tag(tag))
    }
}
