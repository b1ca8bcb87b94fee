//! The calls that rows name.

/// A call, by what it is on.
#[derive(Clone, Copy)]
pub(crate) enum Kind {
    Certificate(OfCertificate),
    SignedPart(OfSignedPart),
    List(OfList),
    SignedList(OfSignedList),
    Entry(OfEntry),
    Request(OfRequest),
    RequestInfo(OfRequestInfo),
    Attribute(OfAttribute),
    Name(OfName),
    Key(OfKey),
    /// What begins the octets, read by a parser's call.
    Parsed(Parser),
    /// A part of a certificate or a request that has no call but its reader.
    Part(Part),
    /// The content of an element, or the octets by themselves.
    Octets(OnOctets),
    /// A value of an extension, by its type.
    Value(Value),
    /// A value of one element, of an extension.
    Leaf(Leaf),
    /// An algorithm, or a value of a signature.
    Algorithm(Algorithm),
    /// Values by identifier.
    Grouped(Grouped),
    /// No octets, but words.
    Words(OnWords),
    /// There is no such call.
    Unknown,
}

#[derive(Clone, Copy)]
pub(crate) enum OfCertificate {
    Words,
    Copy,
    Serial,
    Map,
    Walk,
    /// What the values of extensions are parsed as.
    Kinds,
    Get(Getter),
    Check(Check),
}

/// A call that looks for one kind of extension.
#[derive(Clone, Copy)]
pub(crate) enum Getter {
    BasicConstraints,
    KeyUsage,
    ExtendedKeyUsage,
    PolicyConstraints,
    InhibitAnypolicy,
    PolicyMappings,
    SubjectAlternativeName,
    NameConstraints,
    IsCa,
}

/// What judges a value.
#[derive(Clone, Copy)]
pub(crate) enum Check {
    Structure,
    Extensions,
    ExtensionList,
    Chain,
    Validate,
    Written,
    Handed,
}

#[derive(Clone, Copy)]
pub(crate) enum OfSignedPart {
    Words,
    Serial,
    Map,
    Walk,
    /// What the values of extensions are parsed as.
    Kinds,
    Structure,
    Validate,
}

#[derive(Clone, Copy)]
pub(crate) enum OfList {
    Words,
    Copy,
    Serials,
    Map,
    Number,
    Walk,
}

#[derive(Clone, Copy)]
pub(crate) enum OfSignedList {
    Words,
    Walk,
}

#[derive(Clone, Copy)]
pub(crate) enum OfEntry {
    Words,
    Reason,
    Date,
}

#[derive(Clone, Copy)]
pub(crate) enum OfRequest {
    Words,
    Extensions,
}

#[derive(Clone, Copy)]
pub(crate) enum OfRequestInfo {
    Words,
    Find,
    Map,
}

#[derive(Clone, Copy)]
pub(crate) enum OfAttribute {
    Words,
    Copy,
}

#[derive(Clone, Copy)]
pub(crate) enum OfName {
    Words,
    Shown,
    Registered,
    Structure,
    Attributes,
    Iter(AttributeType),
}

/// The type of the attributes that a call of a name goes over.
#[derive(Clone, Copy)]
pub(crate) enum AttributeType {
    CommonName,
    Country,
    Organization,
    OrganizationalUnit,
    StateOrProvince,
    Locality,
    Email,
}

#[derive(Clone, Copy)]
pub(crate) enum OfKey {
    Words,
    Parsed,
    Structure,
}

/// A parser, and what is told of what it reads.
#[derive(Clone, Copy)]
pub(crate) enum Parser {
    Certificate(Depth, OfCertificate),
    SignedPart(Depth, OfSignedPart),
    List(Depth, OfList),
    Extension(Depth),
}

/// Whose call it is, and whether it parses the values of extensions.
#[derive(Clone, Copy)]
pub(crate) enum Depth {
    /// A function that parses them.
    Function,
    /// The same by its shorter name.
    ShortFunction,
    /// The type's own reader.
    Reader,
    /// A parser as `new` makes it.
    Deep,
    /// A parser that leaves them.
    Shallow,
}

#[derive(Clone, Copy)]
pub(crate) enum Part {
    Algorithm,
    Attribute,
    Relative,
    Time,
    Validity,
    Rsa,
    Version,
    Extension,
    ExtensionRequest,
}

#[derive(Clone, Copy)]
pub(crate) enum OnOctets {
    FormatSerial,
    CertificateHeaders,
    ListHeaders,
    NextUpdate,
    NextVersion,
    ShortName,
    Description,
    Abbreviation,
    AsStr,
    AsSlice,
    TryExponent,
    FromTimestamp,
    IsValidAt,
    TimeToExpiration,
    FindExtension,
    UniqueExtension,
}

#[derive(Clone, Copy)]
pub(crate) enum Value {
    KeyIdentifier,
    KeyUsage,
    NSCertType,
    PolicyConstraints,
    InhibitAnyPolicy,
    CertificatePolicies,
    PolicyMapping,
    PolicyMappings,
    ExtendedKeyUsage,
    CRLDistributionPoints,
    IssuingDistributionPoint,
    Timestamps,
    GeneralName,
    SubjectAlternativeName,
    /// The names, as text.
    SubjectAlternativeNames,
    IssuerAlternativeName,
    AuthorityKeyIdentifier,
    NameConstraints,
    AuthorityInfoAccess,
    SubjectInfoAccess,
}

#[derive(Clone, Copy)]
pub(crate) enum Leaf {
    BasicConstraints,
    BasicConstraintsFault,
    CRLNumber,
    ReasonCode,
    ReasonCodeFault,
    InvalidityDate,
    NetscapeComment,
    KeyUsageText,
    NSCertTypeText,
    KeyIdentifierText,
    ReasonFlagsText,
}

#[derive(Clone, Copy)]
pub(crate) enum Algorithm {
    EcdsaSigValue,
    RsaSsaPssParams,
    RsaSsaPssParamsElement,
    RsaAesOaepParams,
    RsaAesOaepParamsElement,
    RsaAesOaepParamsEmpty,
    SignatureAlgorithm,
}

#[derive(Clone, Copy)]
pub(crate) enum Grouped {
    AuthorityInfo,
    SubjectInfo,
    Mappings,
}

#[derive(Clone, Copy)]
pub(crate) enum OnWords {
    BuiltName,
    KeyUsage,
    Validate,
    Refusal,
}
