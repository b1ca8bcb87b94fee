//! The names of places in the grammar, and what is expected there, in words.

ghost use Rattle.std.specs.Prelude.{◌≡◌};
ghost use Rattle.fault_texts.specs.FaultText.{path_text, part_text, expected_text};

use cert_faults::{Expected, Field, Part};

/// The names of the field and of those that hold it, as RFC 5280 writes them, with points
/// between; `item` for the item itself.
pub(crate) fn path_text(field: Field) -> &'static str
    ensures { result.now ≡ path_text field }
{
    match field {
        Field::Item => "item",
        Field::TbsCertificate => "tbsCertificate",
        Field::Version => "tbsCertificate.version",
        Field::SerialNumber => "tbsCertificate.serialNumber",
        Field::Signature => "tbsCertificate.signature",
        Field::Issuer => "tbsCertificate.issuer",
        Field::Validity => "tbsCertificate.validity",
        Field::NotBefore => "tbsCertificate.validity.notBefore",
        Field::NotAfter => "tbsCertificate.validity.notAfter",
        Field::Subject => "tbsCertificate.subject",
        Field::SubjectPublicKeyInfo => "tbsCertificate.subjectPublicKeyInfo",
        Field::KeyAlgorithm => "tbsCertificate.subjectPublicKeyInfo.algorithm",
        Field::SubjectPublicKey => "tbsCertificate.subjectPublicKeyInfo.subjectPublicKey",
        Field::IssuerUniqueId => "tbsCertificate.issuerUniqueID",
        Field::SubjectUniqueId => "tbsCertificate.subjectUniqueID",
        Field::Extensions => "tbsCertificate.extensions",
        Field::TbsCertList => "tbsCertList",
        Field::ListVersion => "tbsCertList.version",
        Field::ListSignature => "tbsCertList.signature",
        Field::ListIssuer => "tbsCertList.issuer",
        Field::ThisUpdate => "tbsCertList.thisUpdate",
        Field::NextUpdate => "tbsCertList.nextUpdate",
        Field::RevokedCertificates => "tbsCertList.revokedCertificates",
        Field::Entry => "tbsCertList.revokedCertificates.entry",
        Field::UserCertificate => "tbsCertList.revokedCertificates.userCertificate",
        Field::RevocationDate => "tbsCertList.revokedCertificates.revocationDate",
        Field::EntryExtensions => "tbsCertList.revokedCertificates.crlEntryExtensions",
        Field::ListExtensions => "tbsCertList.crlExtensions",
        Field::SignatureAlgorithm => "signatureAlgorithm",
        Field::SignatureValue => "signatureValue",
    }
}

/// A point and the part's name, as RFC 5280 writes it; nothing for the field itself.
pub(crate) fn part_text(part: Part) -> &'static str
    ensures { result.now ≡ part_text part }
{
    match part {
        Part::Whole => "",
        Part::Algorithm => ".algorithm",
        Part::Parameters => ".parameters",
        Part::RelativeName => ".RelativeDistinguishedName",
        Part::Attribute => ".AttributeTypeAndValue",
        Part::Type => ".type",
        Part::Value => ".value",
        Part::Extension => ".Extension",
        Part::ExtnId => ".extnID",
        Part::Critical => ".critical",
        Part::ExtnValue => ".extnValue",
    }
}

/// What is expected, in at most 60 octets.
pub(crate) fn expected_text(expected: Expected) -> &'static str
    ensures { result.now ≡ expected_text expected }
{
    match expected {
        Expected::WholeElement => "an element that ends within what holds it",
        Expected::ShortTag => "a tag number in the fewest octets, below 2^32",
        Expected::ShortLength => "a length in the fewest octets, below 2^32",
        Expected::DefiniteLength => "a definite length",
        Expected::FewLevels => "at most 50 levels of elements",
        Expected::Primitive => "a primitive element",
        Expected::Constructed => "a constructed element",
        Expected::BooleanContent => "a BOOLEAN of one octet, 00 or ff",
        Expected::IntegerContent => "an INTEGER in the fewest octets, one or more",
        Expected::BitStringContent => "a BIT STRING with 0 to 7 unused bits, all zero",
        Expected::NullContent => "a NULL without content",
        Expected::IdentifierContent => "an OBJECT IDENTIFIER of numbers in the fewest octets",
        Expected::EnumeratedContent => "an ENUMERATED in the fewest octets, from 0, below 2^64",
        Expected::Characters => "characters that the string type has",
        Expected::TimeContent => "a real time to the second, with Z",
        Expected::NoEndOfContents => "an element that is no end of contents",
        Expected::Sequence => "a SEQUENCE",
        Expected::Set => "a SET",
        Expected::Identifier => "an OBJECT IDENTIFIER",
        Expected::AnyElement => "an element",
        Expected::NumberFromZero => "an INTEGER that isn't negative",
        Expected::BitString => "a BIT STRING",
        Expected::OctetString => "an OCTET STRING",
        Expected::Time => "a UTCTime to 2049, a GeneralizedTime from 2050 on",
        Expected::VersionTwoOrThree => "the INTEGER 1 or 2 in a constructed [0], or nothing",
        Expected::VersionTwo => "the INTEGER 1, or nothing",
        Expected::ImplicitBits => "the content of a BIT STRING in a primitive element",
        Expected::LaterVersion => "nothing here in this version",
        Expected::OneAttribute => "one attribute or more",
        Expected::Ascending => "attributes in ascending order of their octets",
        Expected::TrueOrNothing => "the BOOLEAN true, or nothing",
        Expected::OneExtension => "one extension or more",
        Expected::OneEntry => "one entry or more",
        Expected::NothingMore => "nothing more",
    }
}
