//! The names of groups and calls.
//!
//! `certificate`: certificates and what they are made of. A call is the part that is read, or a function on octets, or one that looks
//! for an extension of a certificate. `list`: revocation lists, their entries, certification requests and attributes. `value`: values
//! of extensions by themselves, and parameters of algorithms, by the type that is read.
//!
//! `walk`: the calls of a walk, a `;` between two. A visitor with each method written records them, by its own `walk` and by the walk
//! of what was read; where the two differ, or in number from the calls of `walk_visits`, that is printed. `shallow-certificate` and
//! `shallow-list` leave the values of extensions unparsed; `tbs-certificate` and `tbs-list` are signed parts by themselves.
//!
//! `validator`: the answer, and then each warning behind `W`, each error behind `E`. `structure`, `extensions`, `extension-list` (by the
//! list alone), `chain` (the one, then the other) and `validate` are of a certificate, `tbs-structure` and `tbs-validate` of a signed
//! part by itself. `written` and `handed` are `validate` with a logger that writes lines, and with one that hands messages to closures,
//! which tell them in the order in which they come. `refusal memory` and `refusal write` are why a logger takes no message, as text.
//!
//! `call`: parsers, and what the values of extensions are parsed as and how many octets are left; whether a copy is the same; numbers,
//! names and alternative names as text, `registered` by a registry of one's own; values by identifier, lent and handed over; extensions
//! by identifier, of a list and its entries too. Of words: `built_name` of texts, `key_usage` of a number, `validate` of a number that
//! warns of itself where it is above 10.

use crate::kinds::{
    Algorithm, AttributeType, Check, Depth, Getter, Grouped, Kind, Leaf, OfAttribute,
    OfCertificate, OfEntry, OfKey, OfList, OfName, OfRequest, OfRequestInfo, OfSignedList,
    OfSignedPart, OnOctets, OnWords, Parser, Part, Value,
};
use rows_hex::found;

/// A group of calls.
#[derive(Clone, Copy)]
pub(crate) enum Group {
    Certificate,
    List,
    Value,
    Walk,
    Validator,
    Call,
}

const GROUPS: [(&str, Group); 6] = [
    ("certificate", Group::Certificate),
    ("list", Group::List),
    ("value", Group::Value),
    ("walk", Group::Walk),
    ("validator", Group::Validator),
    ("call", Group::Call),
];

/// The group of this name.
pub(crate) fn table_of(group: &str) -> Option<Group> {
    found(&GROUPS, group)
}

/// What the group's call of this name is on.
pub(crate) fn kind_of(group: Group, call: &str) -> Kind {
    let table: &[(&str, Kind)] = match group {
        Group::Certificate => &CERTIFICATE,
        Group::List => &LIST,
        Group::Value => &VALUE,
        Group::Walk => &WALK,
        Group::Validator => &VALIDATOR,
        Group::Call => &CALL,
    };
    match found(table, call) {
        Some(kind) => kind,
        None => Kind::Unknown,
    }
}

const CERTIFICATE: [(&str, Kind); 45] = [
    ("algorithm", Kind::Part(Part::Algorithm)),
    ("attribute", Kind::Part(Part::Attribute)),
    ("relative", Kind::Part(Part::Relative)),
    ("name", Kind::Name(OfName::Words)),
    ("key", Kind::Key(OfKey::Words)),
    ("time", Kind::Part(Part::Time)),
    ("validity", Kind::Part(Part::Validity)),
    ("rsa", Kind::Part(Part::Rsa)),
    ("version", Kind::Part(Part::Version)),
    ("extension", Kind::Part(Part::Extension)),
    ("tbs", Kind::SignedPart(OfSignedPart::Words)),
    ("certificate", Kind::Certificate(OfCertificate::Words)),
    ("format_serial", Kind::Octets(OnOctets::FormatSerial)),
    ("parse_counted", Kind::Octets(OnOctets::CertificateHeaders)),
    ("next_update", Kind::Octets(OnOctets::NextUpdate)),
    ("oid2sn", Kind::Octets(OnOctets::ShortName)),
    ("oid2description", Kind::Octets(OnOctets::Description)),
    ("oid2abbrev", Kind::Octets(OnOctets::Abbreviation)),
    ("as_str", Kind::Octets(OnOctets::AsStr)),
    ("as_slice", Kind::Octets(OnOctets::AsSlice)),
    ("try_exponent", Kind::Octets(OnOctets::TryExponent)),
    ("parsed", Kind::Key(OfKey::Parsed)),
    ("next_version", Kind::Octets(OnOctets::NextVersion)),
    ("iter_attributes", Kind::Name(OfName::Attributes)),
    (
        "iter_common_name",
        Kind::Name(OfName::Iter(AttributeType::CommonName)),
    ),
    (
        "iter_country",
        Kind::Name(OfName::Iter(AttributeType::Country)),
    ),
    (
        "iter_organization",
        Kind::Name(OfName::Iter(AttributeType::Organization)),
    ),
    (
        "iter_organizational_unit",
        Kind::Name(OfName::Iter(AttributeType::OrganizationalUnit)),
    ),
    (
        "iter_state_or_province",
        Kind::Name(OfName::Iter(AttributeType::StateOrProvince)),
    ),
    (
        "iter_locality",
        Kind::Name(OfName::Iter(AttributeType::Locality)),
    ),
    ("iter_email", Kind::Name(OfName::Iter(AttributeType::Email))),
    ("from_timestamp", Kind::Octets(OnOctets::FromTimestamp)),
    ("is_valid_at", Kind::Octets(OnOctets::IsValidAt)),
    (
        "time_to_expiration",
        Kind::Octets(OnOctets::TimeToExpiration),
    ),
    ("find_extension", Kind::Octets(OnOctets::FindExtension)),
    (
        "get_extension_unique",
        Kind::Octets(OnOctets::UniqueExtension),
    ),
    (
        "basic_constraints",
        Kind::Certificate(OfCertificate::Get(Getter::BasicConstraints)),
    ),
    (
        "key_usage",
        Kind::Certificate(OfCertificate::Get(Getter::KeyUsage)),
    ),
    (
        "extended_key_usage",
        Kind::Certificate(OfCertificate::Get(Getter::ExtendedKeyUsage)),
    ),
    (
        "policy_constraints",
        Kind::Certificate(OfCertificate::Get(Getter::PolicyConstraints)),
    ),
    (
        "inhibit_anypolicy",
        Kind::Certificate(OfCertificate::Get(Getter::InhibitAnypolicy)),
    ),
    (
        "policy_mappings",
        Kind::Certificate(OfCertificate::Get(Getter::PolicyMappings)),
    ),
    (
        "subject_alternative_name",
        Kind::Certificate(OfCertificate::Get(Getter::SubjectAlternativeName)),
    ),
    (
        "name_constraints",
        Kind::Certificate(OfCertificate::Get(Getter::NameConstraints)),
    ),
    ("is_ca", Kind::Certificate(OfCertificate::Get(Getter::IsCa))),
];

const LIST: [(&str, Kind); 18] = [
    ("entry", Kind::Entry(OfEntry::Words)),
    ("tbs", Kind::SignedList(OfSignedList::Words)),
    ("list", Kind::List(OfList::Words)),
    (
        "parse",
        Kind::Parsed(Parser::List(Depth::Shallow, OfList::Words)),
    ),
    (
        "parse_deep",
        Kind::Parsed(Parser::List(Depth::Deep, OfList::Words)),
    ),
    (
        "parse_x509_crl",
        Kind::Parsed(Parser::List(Depth::Function, OfList::Words)),
    ),
    (
        "parse_crl_der",
        Kind::Parsed(Parser::List(Depth::ShortFunction, OfList::Words)),
    ),
    ("parse_counted", Kind::Octets(OnOctets::ListHeaders)),
    ("crl_number", Kind::List(OfList::Number)),
    ("reason_code", Kind::Entry(OfEntry::Reason)),
    ("invalidity_date", Kind::Entry(OfEntry::Date)),
    ("extensions", Kind::Part(Part::ExtensionRequest)),
    ("attribute", Kind::Attribute(OfAttribute::Words)),
    ("info", Kind::RequestInfo(OfRequestInfo::Words)),
    ("request", Kind::Request(OfRequest::Words)),
    ("requested_extensions", Kind::Request(OfRequest::Extensions)),
    ("find_attribute", Kind::RequestInfo(OfRequestInfo::Find)),
    ("attributes_map", Kind::RequestInfo(OfRequestInfo::Map)),
];

const VALUE: [(&str, Kind); 37] = [
    ("KeyIdentifier", Kind::Value(Value::KeyIdentifier)),
    ("KeyUsage", Kind::Value(Value::KeyUsage)),
    ("NSCertType", Kind::Value(Value::NSCertType)),
    ("PolicyConstraints", Kind::Value(Value::PolicyConstraints)),
    ("InhibitAnyPolicy", Kind::Value(Value::InhibitAnyPolicy)),
    (
        "CertificatePolicies",
        Kind::Value(Value::CertificatePolicies),
    ),
    ("PolicyMapping", Kind::Value(Value::PolicyMapping)),
    ("PolicyMappings", Kind::Value(Value::PolicyMappings)),
    ("ExtendedKeyUsage", Kind::Value(Value::ExtendedKeyUsage)),
    (
        "CRLDistributionPoints",
        Kind::Value(Value::CRLDistributionPoints),
    ),
    (
        "IssuingDistributionPoint",
        Kind::Value(Value::IssuingDistributionPoint),
    ),
    ("Timestamps", Kind::Value(Value::Timestamps)),
    ("GeneralName", Kind::Value(Value::GeneralName)),
    (
        "SubjectAlternativeName",
        Kind::Value(Value::SubjectAlternativeName),
    ),
    (
        "IssuerAlternativeName",
        Kind::Value(Value::IssuerAlternativeName),
    ),
    (
        "AuthorityKeyIdentifier",
        Kind::Value(Value::AuthorityKeyIdentifier),
    ),
    ("NameConstraints", Kind::Value(Value::NameConstraints)),
    (
        "AuthorityInfoAccess",
        Kind::Value(Value::AuthorityInfoAccess),
    ),
    ("SubjectInfoAccess", Kind::Value(Value::SubjectInfoAccess)),
    ("BasicConstraints", Kind::Leaf(Leaf::BasicConstraints)),
    (
        "BasicConstraintsFault",
        Kind::Leaf(Leaf::BasicConstraintsFault),
    ),
    ("CRLNumber", Kind::Leaf(Leaf::CRLNumber)),
    ("ReasonCode", Kind::Leaf(Leaf::ReasonCode)),
    ("ReasonCodeFault", Kind::Leaf(Leaf::ReasonCodeFault)),
    ("InvalidityDate", Kind::Leaf(Leaf::InvalidityDate)),
    ("NetscapeComment", Kind::Leaf(Leaf::NetscapeComment)),
    ("KeyUsageText", Kind::Leaf(Leaf::KeyUsageText)),
    ("NSCertTypeText", Kind::Leaf(Leaf::NSCertTypeText)),
    ("KeyIdentifierText", Kind::Leaf(Leaf::KeyIdentifierText)),
    ("ReasonFlagsText", Kind::Leaf(Leaf::ReasonFlagsText)),
    ("EcdsaSigValue", Kind::Algorithm(Algorithm::EcdsaSigValue)),
    (
        "RsaSsaPssParams",
        Kind::Algorithm(Algorithm::RsaSsaPssParams),
    ),
    (
        "RsaSsaPssParamsElement",
        Kind::Algorithm(Algorithm::RsaSsaPssParamsElement),
    ),
    (
        "RsaAesOaepParams",
        Kind::Algorithm(Algorithm::RsaAesOaepParams),
    ),
    (
        "RsaAesOaepParamsElement",
        Kind::Algorithm(Algorithm::RsaAesOaepParamsElement),
    ),
    (
        "RsaAesOaepParamsEmpty",
        Kind::Algorithm(Algorithm::RsaAesOaepParamsEmpty),
    ),
    (
        "SignatureAlgorithm",
        Kind::Algorithm(Algorithm::SignatureAlgorithm),
    ),
];

const WALK: [(&str, Kind); 6] = [
    ("certificate", Kind::Certificate(OfCertificate::Walk)),
    ("tbs-certificate", Kind::SignedPart(OfSignedPart::Walk)),
    ("list", Kind::List(OfList::Walk)),
    ("tbs-list", Kind::SignedList(OfSignedList::Walk)),
    (
        "shallow-certificate",
        Kind::Parsed(Parser::Certificate(Depth::Shallow, OfCertificate::Walk)),
    ),
    (
        "shallow-list",
        Kind::Parsed(Parser::List(Depth::Shallow, OfList::Walk)),
    ),
];

const VALIDATOR: [(&str, Kind); 12] = [
    ("name", Kind::Name(OfName::Structure)),
    ("key", Kind::Key(OfKey::Structure)),
    (
        "structure",
        Kind::Certificate(OfCertificate::Check(Check::Structure)),
    ),
    (
        "extensions",
        Kind::Certificate(OfCertificate::Check(Check::Extensions)),
    ),
    (
        "extension-list",
        Kind::Certificate(OfCertificate::Check(Check::ExtensionList)),
    ),
    (
        "chain",
        Kind::Certificate(OfCertificate::Check(Check::Chain)),
    ),
    (
        "validate",
        Kind::Certificate(OfCertificate::Check(Check::Validate)),
    ),
    (
        "written",
        Kind::Certificate(OfCertificate::Check(Check::Written)),
    ),
    (
        "handed",
        Kind::Certificate(OfCertificate::Check(Check::Handed)),
    ),
    ("tbs-structure", Kind::SignedPart(OfSignedPart::Structure)),
    ("tbs-validate", Kind::SignedPart(OfSignedPart::Validate)),
    ("refusal", Kind::Words(OnWords::Refusal)),
];

const CALL: [(&str, Kind); 27] = [
    ("copy_certificate", Kind::Certificate(OfCertificate::Copy)),
    (
        "raw_serial_as_string",
        Kind::Certificate(OfCertificate::Serial),
    ),
    ("extensions_map", Kind::Certificate(OfCertificate::Map)),
    (
        "tbs_raw_serial_as_string",
        Kind::SignedPart(OfSignedPart::Serial),
    ),
    ("tbs_extensions_map", Kind::SignedPart(OfSignedPart::Map)),
    ("copy_list", Kind::List(OfList::Copy)),
    ("entry_serials", Kind::List(OfList::Serials)),
    ("list_extensions_map", Kind::List(OfList::Map)),
    ("copy_attribute", Kind::Attribute(OfAttribute::Copy)),
    ("shown", Kind::Name(OfName::Shown)),
    ("registered", Kind::Name(OfName::Registered)),
    ("general", Kind::Value(Value::SubjectAlternativeNames)),
    ("authority_info", Kind::Grouped(Grouped::AuthorityInfo)),
    ("subject_info", Kind::Grouped(Grouped::SubjectInfo)),
    ("mappings", Kind::Grouped(Grouped::Mappings)),
    (
        "parse_x509_certificate",
        Kind::Parsed(Parser::Certificate(Depth::Function, OfCertificate::Kinds)),
    ),
    (
        "parse_x509_der",
        Kind::Parsed(Parser::Certificate(Depth::ShortFunction, OfCertificate::Kinds)),
    ),
    (
        "parse_deep",
        Kind::Parsed(Parser::Certificate(Depth::Deep, OfCertificate::Kinds)),
    ),
    (
        "parse",
        Kind::Parsed(Parser::Certificate(Depth::Shallow, OfCertificate::Kinds)),
    ),
    (
        "tbs",
        Kind::Parsed(Parser::SignedPart(Depth::Reader, OfSignedPart::Kinds)),
    ),
    (
        "parse_deep_tbs",
        Kind::Parsed(Parser::SignedPart(Depth::Deep, OfSignedPart::Kinds)),
    ),
    (
        "parse_tbs",
        Kind::Parsed(Parser::SignedPart(Depth::Shallow, OfSignedPart::Kinds)),
    ),
    (
        "parse_deep_extension",
        Kind::Parsed(Parser::Extension(Depth::Deep)),
    ),
    (
        "parse_extension",
        Kind::Parsed(Parser::Extension(Depth::Shallow)),
    ),
    ("built_name", Kind::Words(OnWords::BuiltName)),
    ("key_usage", Kind::Words(OnWords::KeyUsage)),
    ("validate", Kind::Words(OnWords::Validate)),
];
