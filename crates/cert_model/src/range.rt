//! Whether fields have a spelling (RFC 5280, 4.1 and 5.1; X.690, 8, 10 and 11). Nothing here takes
//! memory.

ghost use Rattle.std.specs.Prelude.{◌≡◌, ◌≢◌, ◌↔◌, ◌<◌, [], IsTrue, map, option_map, Some};
ghost use Rattle.std.specs.List.{AllByRecursion};
ghost use Rattle.der_tree.specs.Table.{is_shortest, is_negative, are_unused_zero};
ghost use Rattle.cert_model.specs.Range.{IfThere, IsNumber, AreBits, IsAny, IsTimeField, IsAlgorithm, IsAttribute, IsRelativeName, IsName, IsKey, AreExtensions, AreCertificateFields, IsEntry, AreListFields};
ghost use Rattle.cert_model.specs.Versions.{HasVersion, HasListVersion};
ghost use Rattle.cert_model.specs.View.{any_view, alg_view, attr_view, name_view, bit_view, key_view, ext_view, time_view, certificate_view, entry_view, list_view};

use crate::ascending::are_attributes_ascending;
use crate::fields::{
    AlgField, AnyField, AttrField, BitField, CertFields, EntryFields, ExtField, KeyField,
    ListFields, NameFields,
};
use asn1_oid::is_oid_content;
use jiff::civil::DateTime;

/// The first year that a time of a certificate can be in, by UTCTime (RFC 5280, 4.1.2.5.1).
const FIRST_YEAR: i16 = 1950;

/// The bit of a first content octet by which an INTEGER is negative (X.690, 8.3.3).
const SIGN: u8 = 0x80;

/// Whether the octets are a number in the fewest octets that is not negative (RFC 5280, 4.1.2.2;
/// X.690, 8.3.2).
fn is_number(content: &[u8]) -> bool
    ensures { IsTrue result ↔ IsNumber content.now }
{
    is_shortest_integer(content) && !is_negative_integer(content)
}

fn is_shortest_integer(content: &[u8]) -> bool
    ensures { result ≡ is_shortest content.now }
{
    match content {
        [] => false,
        [_] => true,
        [first, second, ..] => !(*first == 0 && *second < SIGN)
            && !(*first == u8::MAX && *second >= SIGN),
    }
}

fn is_negative_integer(content: &[u8]) -> bool
    ensures { result ≡ is_negative content.now }
{
    match content {
        [] => false,
        [first, ..] => *first >= SIGN,
    }
}

/// Whether 0 to 7 bits are unused, all of them 0, and none if no octet follows (X.690, 8.6.2 and
/// 11.2.1).
fn are_bits(bits: &BitField<'_>) -> bool
    ensures { IsTrue result ↔ AreBits (bit_view bits.now) }
{
    bits.unused < 8 && has_unused_zero(bits.unused, bits.octets)
}

fn has_unused_zero(unused: u8, octets: &[u8]) -> bool
    requires { unused < 8 }
    ensures { result ≡ are_unused_zero unused octets.now }
{
    match octets.split_last() {
        None => unused == 0,
        Some((last, _)) => *last % (1u8 << unused) == 0,
    }
}

fn are_bits_if_there(bits: &Option<BitField<'_>>) -> bool
    ensures { IsTrue result ↔ IfThere AreBits (option_map bit_view bits.now) }
{
    match bits {
        None => true,
        Some(bits) => are_bits(bits),
    }
}

/// Whether the time is from 1950 to 9999, in whole seconds (RFC 5280, 4.1.2.5). Its type says that
/// it is real.
fn is_time(time: &DateTime) -> bool
    ensures { IsTrue result ↔ IsTimeField (time_view time.now) }
{
    time.year() >= FIRST_YEAR && time.subsec_nanosecond() == 0
}

fn is_time_if_there(time: &Option<DateTime>) -> bool
    ensures { IsTrue result ↔ IfThere IsTimeField (option_map time_view time.now) }
{
    match time {
        None => true,
        Some(time) => is_time(time),
    }
}

/// Whether the tag number has 32 bits (X.690, 8.1.2), which its type says. There is no other class
/// than the four.
fn is_any(field: &AnyField<'_>) -> bool
    ensures { IsTrue result ↔ IsAny (any_view field.now) }
{
    field.tag.0 <= u32::MAX
}

fn is_any_if_there(field: &Option<AnyField<'_>>) -> bool
    ensures { IsTrue result ↔ IfThere IsAny (option_map any_view field.now) }
{
    match field {
        None => true,
        Some(field) => is_any(field),
    }
}

fn is_algorithm(field: &AlgField<'_>) -> bool
    ensures { IsTrue result ↔ IsAlgorithm (alg_view field.now) }
{
    is_oid_content(field.identifier) && is_any_if_there(&field.parameters)
}

fn is_key(field: &KeyField<'_>) -> bool
    ensures { IsTrue result ↔ IsKey (key_view field.now) }
{
    is_algorithm(&field.algorithm) && are_bits(&field.key)
}

fn is_attribute(field: &AttrField<'_>) -> bool
    ensures { IsTrue result ↔ IsAttribute (attr_view field.now) }
{
    is_oid_content(field.identifier) && is_any(&field.value)
}

fn are_attributes(attributes: &[AttrField<'_>]) -> bool
    ensures { IsTrue result ↔ AllByRecursion IsAttribute (map attr_view attributes.now) }
{
    for attribute in attributes {
        if !is_attribute(attribute) {
            return false;
        }
    }
    true
}

/// Whether there is an attribute, each is in range, and their octets ascend (X.690, 11.6).
fn is_relative_name(attributes: &[AttrField<'_>]) -> bool
    ensures { IsTrue result ↔ IsRelativeName (map attr_view attributes.now) }
{
    !attributes.is_empty() && are_attributes(attributes) && are_attributes_ascending(attributes)
}

fn is_name(name: &NameFields<'_>) -> bool
    ensures { IsTrue result ↔ IsName (name_view name.now) }
{
    for set in &name.sets {
        if !is_relative_name(set.as_slice()) {
            return false;
        }
    }
    true
}

fn are_extensions(extensions: &[ExtField<'_>]) -> bool
    ensures { IsTrue result ↔ AreExtensions (map ext_view extensions.now) }
{
    for extension in extensions {
        if !is_oid_content(extension.identifier) {
            return false;
        }
    }
    true
}

/// Whether there is no extension, or the version is 2, written 1.
fn may_extend(extensions: &[ExtField<'_>], version: Option<u8>) -> bool
    ensures { IsTrue result ↔ ((map ext_view extensions.now ≢ []) → version ≡ Some 1) }
{
    extensions.is_empty() || matches!(version, Some(1))
}

impl EntryFields<'_> {
    /// Whether the entry may be in a list of this version, as it is written (RFC 5280, 5.1.2.6).
    fn in_range(&self, version: Option<u8>) -> bool
        ensures { IsTrue result ↔ IsEntry version (entry_view self.now) }
    {
        is_number(self.serial)
            && is_time(&self.date)
            && are_extensions(self.extensions.as_slice())
            && may_extend(self.extensions.as_slice(), version)
    }
}

fn are_entries(entries: &[EntryFields<'_>], version: Option<u8>) -> bool
    ensures { IsTrue result ↔ AllByRecursion (IsEntry version) (map entry_view entries.now) }
{
    for entry in entries {
        if !entry.in_range(version) {
            return false;
        }
    }
    true
}

fn is_signed(algorithm: &AlgField<'_>, value: &BitField<'_>) -> bool
    ensures { IsTrue result ↔ (IsAlgorithm (alg_view algorithm.now) × AreBits (bit_view value.now)) }
{
    is_algorithm(algorithm) && are_bits(value)
}

impl CertFields<'_> {
    /// Whether the fields have a spelling (RFC 5280, 4.1.2): whether some strict certificate has
    /// them. It takes no memory, and a step for each octet of identifiers and names.
    pub fn in_range(&self) -> bool
        ensures { IsTrue result ↔ AreCertificateFields (certificate_view self.now) }
    {
        self.has_version()
            && self.has_issue()
            && self.has_subject()
            && is_signed(&self.algorithm, &self.signature_value)
    }

    /// Whether the version has the optional fields that are there (RFC 5280, 4.1.2.1, 4.1.2.8 and
    /// 4.1.2.9).
    fn has_version(&self) -> bool
        ensures { IsTrue result ↔ HasVersion (certificate_view self.now) }
    {
        self.version <= 2
            && (self.issuer_id.is_none() || self.version > 0)
            && (self.subject_id.is_none() || self.version > 0)
            && (self.extensions.as_slice().is_empty() || self.version == 2)
    }

    // Whether the serial number, the inner algorithm, the issuer and the times are in range.
    fn has_issue(&self) -> bool
        ensures { IsTrue result ↔ (IsNumber self.now.serial.now × IsAlgorithm (alg_view self.now.signature)
            × IsName (name_view self.now.issuer) × IsTimeField (time_view self.now.not_before) × IsTimeField (time_view self.now.not_after)) }
    {
        is_number(self.serial)
            && is_algorithm(&self.signature)
            && is_name(&self.issuer)
            && is_time(&self.not_before)
            && is_time(&self.not_after)
    }

    // Whether the subject, its key, the unique identifiers and the extensions are in range.
    fn has_subject(&self) -> bool
        ensures { IsTrue result ↔ (IsName (name_view self.now.subject) × IsKey (key_view self.now.key)
            × IfThere AreBits (option_map bit_view self.now.issuer_id) × IfThere AreBits (option_map bit_view self.now.subject_id)
            × AreExtensions (map ext_view self.now.extensions.items)) }
    {
        is_name(&self.subject)
            && is_key(&self.key)
            && are_bits_if_there(&self.issuer_id)
            && are_bits_if_there(&self.subject_id)
            && are_extensions(self.extensions.as_slice())
    }
}

impl ListFields<'_> {
    /// Whether the fields have a spelling (RFC 5280, 5.1.2): whether some strict list has them. It
    /// takes no memory, and a step for each octet of identifiers and names.
    pub fn in_range(&self) -> bool
        ensures { IsTrue result ↔ AreListFields (list_view self.now) }
    {
        self.has_version()
            && self.has_issue()
            && self.has_entries()
            && is_signed(&self.algorithm, &self.signature_value)
    }

    /// Whether the version is 2, written 1, or none that has no extensions (RFC 5280, 5.1.2.1 and
    /// 5.1.2.7).
    fn has_version(&self) -> bool
        ensures { IsTrue result ↔ HasListVersion (list_view self.now) }
    {
        match self.version {
            None => self.extensions.as_slice().is_empty(),
            Some(version) => version == 1,
        }
    }

    // Whether the inner algorithm, the issuer and the times are in range.
    fn has_issue(&self) -> bool
        ensures { IsTrue result ↔ (IsAlgorithm (alg_view self.now.signature) × IsName (name_view self.now.issuer)
            × IsTimeField (time_view self.now.this_update) × IfThere IsTimeField (option_map time_view self.now.next_update)) }
    {
        is_algorithm(&self.signature)
            && is_name(&self.issuer)
            && is_time(&self.this_update)
            && is_time_if_there(&self.next_update)
    }

    // Whether the entries and the extensions are in range.
    fn has_entries(&self) -> bool
        ensures { IsTrue result ↔ (AllByRecursion (IsEntry self.now.version) (map entry_view self.now.entries.items)
            × AreExtensions (map ext_view self.now.extensions.items)) }
    {
        are_entries(self.entries.as_slice(), self.version)
            && are_extensions(self.extensions.as_slice())
    }
}
