//! What a file is, by its octets, and the labels that are known.

ghost use Rattle.std.specs.Prelude.{◌≡◌, bytes_eq};
ghost use Rattle.certpath_pem.specs.Sources.{source_of, begins_long, begins_sequence, has_wide_mark, holds_wide_words, is_utf16, without_mark, label_kind, is_either, is_item_label, is_trusted_label, is_signed_label, is_key_label, is_old_key_label, is_request_label, is_parameter_label, is_any_key_label, is_other_label, is_known_label};
ghost use Rattle.certpath_pem.specs.SourceViews.{source_view, kind_view};

use crate::labels::{begins_with, holds};

/// What a file is, by its octets alone.
#[derive(Clone, Copy, Debug, PartialEq, Eq)]
pub enum Source {
    /// A text in which `-----BEGIN` is (RFC 7468).
    Pem,
    /// Elements in DER or BER, the first of which is a SEQUENCE (X.690, 8.9.1).
    Der,
    /// A text in UTF-16. It has to be converted before anything in it is read.
    Utf16,
    /// No octet.
    Nothing,
    /// None of these.
    Other,
}

/// What the label of a block says that it holds.
#[derive(Clone, Copy, Debug, PartialEq, Eq)]
pub enum LabelKind {
    /// One certificate or revocation list (RFC 7468, 5 and 6).
    OneItem,
    /// A certificate, and after it what OpenSSL's trust settings say of it.
    Trusted,
    /// SignedData with certificates and revocation lists (RFC 7468, 8 and 9; RFC 5652, 5.1).
    SignedData,
    /// Another label of a fixed list, as `PRIVATE KEY`: it may be printed.
    Known,
    /// Any other label. It may hold anything, a key too: don't print it.
    Unknown,
}

fn begins_long(octets: &[u8]) -> bool
    ensures { result ≡ begins_long octets.now }
{
    match octets {
        [first, second, ..] => *first == 0x30 && *second >= 128 && *second <= 193,
        _ => false,
    }
}

fn begins_sequence(octets: &[u8]) -> bool
    ensures { result ≡ begins_sequence octets.now }
{
    match octets {
        [first, ..] => *first == 0x30,
        [] => false,
    }
}

fn has_wide_mark(octets: &[u8]) -> bool
    ensures { result ≡ has_wide_mark octets.now }
{
    begins_with(b"\xff\xfe", octets) || begins_with(b"\xfe\xff", octets)
}

fn holds_wide_words(octets: &[u8]) -> bool
    ensures { result ≡ holds_wide_words octets.now }
{
    holds(b"-\0-\0-\0-\0-\0B\0E\0G\0I\0N\0", octets)
        || holds(b"\0-\0-\0-\0-\0-\0B\0E\0G\0I\0N", octets)
}

fn is_utf16(octets: &[u8]) -> bool
    ensures { result ≡ is_utf16 octets.now }
{
    has_wide_mark(octets) || holds_wide_words(octets)
}

/// What a file of these octets is. A file that begins as certificates in DER do is `Der`, whatever
/// is in it.
pub fn source_of(octets: &[u8]) -> Source
    ensures { source_view result ≡ source_of octets.now }
{
    if begins_long(octets) {
        Source::Der
    } else if holds(b"-----BEGIN", octets) {
        Source::Pem
    } else if begins_sequence(octets) {
        Source::Der
    } else if is_utf16(octets) {
        Source::Utf16
    } else if octets.is_empty() {
        Source::Nothing
    } else {
        Source::Other
    }
}

/// A text without the byte order mark of UTF-8 at its front, if it has one.
pub fn without_mark(octets: &[u8]) -> &[u8]
    ensures { result.now ≡ without_mark octets.now }
{
    if begins_with(b"\xef\xbb\xbf", octets) {
        &octets[3..]
    } else {
        octets
    }
}

fn is_equal(label: &[u8], name: &[u8]) -> bool
    ensures { result ≡ bytes_eq label.now name.now }
{
    label == name
}

/// Whether a label is one of these two.
fn is_either(label: &[u8], one: &[u8], two: &[u8]) -> bool
    ensures { result ≡ is_either label.now one.now two.now }
{
    is_equal(label, one) || is_equal(label, two)
}

fn is_item_label(label: &[u8]) -> bool
    ensures { result ≡ is_item_label label.now }
{
    is_either(label, b"CERTIFICATE", b"X509 CRL")
        || is_either(label, b"X509 CERTIFICATE", b"X.509 CERTIFICATE")
}

fn is_trusted_label(label: &[u8]) -> bool
    ensures { result ≡ is_trusted_label label.now }
{
    is_equal(label, b"TRUSTED CERTIFICATE")
}

fn is_signed_label(label: &[u8]) -> bool
    ensures { result ≡ is_signed_label label.now }
{
    is_either(label, b"PKCS7", b"CMS") || is_equal(label, b"PKCS #7 SIGNED DATA")
}

fn is_key_label(label: &[u8]) -> bool
    ensures { result ≡ is_key_label label.now }
{
    is_either(label, b"PRIVATE KEY", b"ENCRYPTED PRIVATE KEY")
        || is_either(label, b"PUBLIC KEY", b"OPENSSH PRIVATE KEY")
}

fn is_old_key_label(label: &[u8]) -> bool
    ensures { result ≡ is_old_key_label label.now }
{
    is_either(label, b"RSA PRIVATE KEY", b"EC PRIVATE KEY")
        || is_either(label, b"DSA PRIVATE KEY", b"RSA PUBLIC KEY")
}

fn is_request_label(label: &[u8]) -> bool
    ensures { result ≡ is_request_label label.now }
{
    is_either(label, b"CERTIFICATE REQUEST", b"NEW CERTIFICATE REQUEST")
        || is_either(
            label,
            b"ATTRIBUTE CERTIFICATE",
            b"X509 ATTRIBUTE CERTIFICATE",
        )
}

fn is_parameter_label(label: &[u8]) -> bool
    ensures { result ≡ is_parameter_label label.now }
{
    is_either(label, b"EC PARAMETERS", b"DSA PARAMETERS")
        || is_either(label, b"DH PARAMETERS", b"X9.42 DH PARAMETERS")
}

fn is_any_key_label(label: &[u8]) -> bool
    ensures { result ≡ is_any_key_label label.now }
{
    is_key_label(label) || is_old_key_label(label)
}

fn is_other_label(label: &[u8]) -> bool
    ensures { result ≡ is_other_label label.now }
{
    is_request_label(label) || is_parameter_label(label)
}

fn is_known_label(label: &[u8]) -> bool
    ensures { result ≡ is_known_label label.now }
{
    is_any_key_label(label) || is_other_label(label)
}

/// What a label says that its block holds.
pub fn label_kind(label: &[u8]) -> LabelKind
    ensures { kind_view result ≡ label_kind label.now }
{
    if is_item_label(label) {
        LabelKind::OneItem
    } else if is_trusted_label(label) {
        LabelKind::Trusted
    } else if is_signed_label(label) {
        LabelKind::SignedData
    } else if is_known_label(label) {
        LabelKind::Known
    } else {
        LabelKind::Unknown
    }
}
