//! The tree of an object.

use asn1_any::Any;
use asn1_core::{Error, Header, IResult};
use asn1_oid::Oid;

/// The most content octets that an object may have.
pub const MAX_OBJECT_SIZE: usize = 4_294_967_295;

/// How many levels `parse_der` and `parse_ber` allow.
pub const MAX_RECURSION: usize = 50;

/// Why octets are refused.
pub type BerError = Error;

/// The octets after what was read, and the value; or why there is none.
pub type BerResult<'a, O = BerObject<'a>> = IResult<&'a [u8], O, BerError>;

/// An object read by DER.
pub type DerObject<'a> = BerObject<'a>;

/// What an object read by DER holds.
pub type DerObjectContent<'a> = BerObjectContent<'a>;

/// An object: its header, what it holds, and the octets that it was read from.
#[derive(Drop)]
#[cycle(ber)]
pub struct BerObject<'a> {
    pub header: Header,
    pub content: BerObjectContent<'a>,
    raw: &'a [u8],
}

/// What an object holds (X.680, table 1). Windows are windows of the octets read.
#[derive(Drop)]
#[cycle(ber)]
pub enum BerObjectContent<'a> {
    /// End-of-contents octets, which DER has not.
    EndOfContent,
    Boolean(bool),
    /// The content octets, a two's complement number.
    Integer(&'a [u8]),
    /// How many bits of the last octet are unused, and the octets of the bits.
    BitString(u8, &'a [u8]),
    OctetString(&'a [u8]),
    Null,
    OID(Oid<'a>),
    ObjectDescriptor(&'a [u8]),
    /// The number.
    Enum(u64),
    UTF8String(&'a str),
    RelativeOID(&'a [u8]),
    Sequence(Vec<BerObject<'a>>),
    Set(Vec<BerObject<'a>>),
    NumericString(&'a str),
    PrintableString(&'a str),
    T61String(&'a [u8]),
    VideotexString(&'a [u8]),
    IA5String(&'a str),
    /// The content octets.
    UTCTime(&'a [u8]),
    /// The content octets.
    GeneralizedTime(&'a [u8]),
    GraphicString(&'a [u8]),
    VisibleString(&'a str),
    GeneralString(&'a [u8]),
    UniversalString(&'a [u8]),
    BmpString(&'a [u8]),
    /// Another class, or a universal tag number without a line in the table, left as it is.
    Unknown(Any<'a>),
}

impl<'a> BerObject<'a> {
    ghost use Rattle.std.specs.Prelude.{◌≡◌};

    /// An object read from these octets.
    pub(crate) fn new(header: Header, content: BerObjectContent<'a>, raw: &'a [u8]) -> BerObject<'a>
        ensures header { result.header ≡ header }
        ensures content { result.content ≡ content.entry }
        ensures raw { result.raw ≡ raw.entry }
    {
        BerObject {
            header,
            content,
            raw,
        }
    }

    pub(crate) fn raw(&self) -> &'a [u8]
        ensures { result ≡ self.now.raw }
    {
        self.raw
    }
}
