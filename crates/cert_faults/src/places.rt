//! The places of the grammar (RFC 5280, 4.1 and 5.1), and what is expected at each.

/// A field of Certificate (RFC 5280, 4.1) or of CertificateList (RFC 5280, 5.1).
#[derive(Clone, Copy, Debug, PartialEq, Eq)]
pub enum Field {
    /// The item itself, or any element of an item that isn't one DER object.
    Item,
    TbsCertificate,
    Version,
    SerialNumber,
    Signature,
    Issuer,
    Validity,
    NotBefore,
    NotAfter,
    Subject,
    SubjectPublicKeyInfo,
    KeyAlgorithm,
    SubjectPublicKey,
    IssuerUniqueId,
    SubjectUniqueId,
    Extensions,
    TbsCertList,
    ListVersion,
    ListSignature,
    ListIssuer,
    ThisUpdate,
    NextUpdate,
    RevokedCertificates,
    /// One entry of revokedCertificates (RFC 5280, 5.1.2.6).
    Entry,
    UserCertificate,
    RevocationDate,
    EntryExtensions,
    ListExtensions,
    SignatureAlgorithm,
    SignatureValue,
}

/// A part of a field that holds parts of its own: an algorithm, a name, or extensions.
#[derive(Clone, Copy, Debug, PartialEq, Eq)]
pub enum Part {
    /// The field itself.
    Whole,
    Algorithm,
    Parameters,
    RelativeName,
    Attribute,
    Type,
    Value,
    Extension,
    ExtnId,
    Critical,
    ExtnValue,
}

/// What the grammar expects at a place.
#[derive(Clone, Copy, Debug, PartialEq, Eq)]
pub enum Expected {
    /// X.690, 8.1.3: the element ends within the one that holds it.
    WholeElement,
    /// X.690, 8.1.2.
    ShortTag,
    /// X.690, 10.1.
    ShortLength,
    /// X.690, 10.1.
    DefiniteLength,
    /// Own bound.
    FewLevels,
    /// X.690, 8.2 to 8.23 and 10.2.
    Primitive,
    /// X.690, 8.9.1 and 8.11.1.
    Constructed,
    /// X.690, 11.1.
    BooleanContent,
    /// X.690, 8.3.1 and 8.3.2.
    IntegerContent,
    /// X.690, 8.6.2 and 11.2.1.
    BitStringContent,
    /// X.690, 8.8.2.
    NullContent,
    /// X.690, 8.19.2.
    IdentifierContent,
    /// X.690, 8.4, and own bound.
    EnumeratedContent,
    /// X.690, 8.23.
    Characters,
    /// X.690, 11.7 and 11.8.
    TimeContent,
    /// X.690, 8.1.5.
    NoEndOfContents,
    /// X.690, 8.9.
    Sequence,
    /// X.690, 8.11.
    Set,
    /// RFC 5280, 4.1.1.2.
    Identifier,
    AnyElement,
    /// RFC 5280, 4.1.2.2.
    NumberFromZero,
    BitString,
    OctetString,
    /// RFC 5280, 4.1.2.5.
    Time,
    /// RFC 5280, 4.1.2.1.
    VersionTwoOrThree,
    /// RFC 5280, 5.1.2.1.
    VersionTwo,
    /// RFC 5280, 4.1.2.8.
    ImplicitBits,
    /// RFC 5280, 4.1.2.8, 4.1.2.9, 5.1.2.6 and 5.1.2.7.
    LaterVersion,
    /// RFC 5280, 4.1.2.4.
    OneAttribute,
    /// X.690, 11.6.
    Ascending,
    /// X.690, 11.5.
    TrueOrNothing,
    /// RFC 5280, 4.1.2.9 and 5.1.2.7.
    OneExtension,
    /// RFC 5280, 5.1.2.6.
    OneEntry,
    NothingMore,
}
