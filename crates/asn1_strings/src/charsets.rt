//! The character sets, and the string types of them (X.680, 41 and table 8).

ghost use Rattle.std.specs.Prelude.{◌≡◌, IsUtf8};
ghost use Rattle.std.proofs.Common.{lit<};
ghost use Rattle.asn1_strings.specs.Charsets.{is_numeric, is_printable, is_below_80, is_visible};
ghost use Rattle.asn1_strings.specs.CharsetLaws.{numeric_below_80, printable_below_80, below_80, visible_below_80};
ghost use Rattle.asn1_strings.specs.ReaderLaws.{utf8_told};
ghost use Rattle.std.specs.Str.{is_utf8};

use crate::character_string::{CharacterString, OctetCharset, TestValidCharset};
use asn1_core::{Class, Error, Tag};
use asn1_traits::Tagged;

/// UTF8String, tag 12: any characters.
pub type Utf8String<'a> = CharacterString<'a, Utf8>;

/// NumericString, tag 18: digits and space.
pub type NumericString<'a> = CharacterString<'a, Numeric>;

/// PrintableString, tag 19: letters, digits, space and ' ( ) + , - . / : = ?.
pub type PrintableString<'a> = CharacterString<'a, Printable>;

/// IA5String, tag 22: octets below hex 80.
pub type Ia5String<'a> = CharacterString<'a, Ia5>;

/// VisibleString, tag 26: octets from hex 20 to 7e.
pub type VisibleString<'a> = CharacterString<'a, Visible>;

/// TeletexString, tag 20: octets below hex 80.
pub type TeletexString<'a> = CharacterString<'a, Teletex>;

/// VideotexString, tag 21: octets below hex 80.
pub type VideotexString<'a> = CharacterString<'a, Videotex>;

/// GraphicString, tag 25: octets below hex 80.
pub type GraphicString<'a> = CharacterString<'a, Graphic>;

/// GeneralString, tag 27: octets below hex 80.
pub type GeneralString<'a> = CharacterString<'a, General>;

/// ObjectDescriptor, tag 7: octets below hex 80.
pub type ObjectDescriptor<'a> = CharacterString<'a, Descriptor>;

/// The characters of a UTF8String: any.
#[derive(Clone, Copy, Debug, PartialEq, Eq, Drop)]
pub struct Utf8;

impl Tagged for Utf8 {
    const TAG: Tag = Tag::Utf8String;

    ghost tag_number = { 12 };

    fn own_class() -> Class {
        Class::Universal
    }

    fn own_tag() -> Tag {
        Self::TAG
    }
}

impl TestValidCharset for Utf8 {
    ghost is_text = { IsUtf8 };

    ghost passes = { is_utf8 };

    ghost low = { lit< tt };

    ghost telling = { utf8_told };

    ghost utf8 = { λ _ text. text };

    fn test_valid_charset(octets: &[u8]) -> Result<(), Error> {
        match str::from_utf8(octets) {
            Ok(_) => Ok(()),
            Err(_) => Err(Error::StringInvalidCharset),
        }
    }
}

/// The characters of a NumericString: digits and space.
#[derive(Clone, Copy, Debug, PartialEq, Eq, Drop)]
pub struct Numeric;

impl Tagged for Numeric {
    const TAG: Tag = Tag::NumericString;

    ghost tag_number = { 18 };

    fn own_class() -> Class {
        Class::Universal
    }

    fn own_tag() -> Tag {
        Self::TAG
    }
}

impl OctetCharset for Numeric {
    ghost has_octet = { is_numeric };

    ghost low_tag = { lit< tt };

    ghost ascii = { numeric_below_80 };

    fn has(octet: u8) -> bool {
        octet.is_ascii_digit() || octet == b' '
    }
}

/// The characters of a PrintableString: letters, digits, space and ' ( ) + , - . / : = ?.
#[derive(Clone, Copy, Debug, PartialEq, Eq, Drop)]
pub struct Printable;

impl Tagged for Printable {
    const TAG: Tag = Tag::PrintableString;

    ghost tag_number = { 19 };

    fn own_class() -> Class {
        Class::Universal
    }

    fn own_tag() -> Tag {
        Self::TAG
    }
}

impl OctetCharset for Printable {
    ghost has_octet = { is_printable };

    ghost low_tag = { lit< tt };

    ghost ascii = { printable_below_80 };

    fn has(octet: u8) -> bool {
        octet.is_ascii_alphanumeric()
            || octet == b' '
            || (octet >= b'\'' && octet <= b')')
            || (octet >= b'+' && octet <= b'/')
            || octet == b':'
            || octet == b'='
            || octet == b'?'
    }
}

/// The characters of an IA5String: octets below hex 80.
#[derive(Clone, Copy, Debug, PartialEq, Eq, Drop)]
pub struct Ia5;

impl Tagged for Ia5 {
    const TAG: Tag = Tag::Ia5String;

    ghost tag_number = { 22 };

    fn own_class() -> Class {
        Class::Universal
    }

    fn own_tag() -> Tag {
        Self::TAG
    }
}

impl OctetCharset for Ia5 {
    ghost has_octet = { is_below_80 };

    ghost low_tag = { lit< tt };

    ghost ascii = { below_80 };

    fn has(octet: u8) -> bool {
        is_below_80(octet)
    }
}

/// The characters of a VisibleString: octets from hex 20 to 7e.
#[derive(Clone, Copy, Debug, PartialEq, Eq, Drop)]
pub struct Visible;

impl Tagged for Visible {
    const TAG: Tag = Tag::VisibleString;

    ghost tag_number = { 26 };

    fn own_class() -> Class {
        Class::Universal
    }

    fn own_tag() -> Tag {
        Self::TAG
    }
}

impl OctetCharset for Visible {
    ghost has_octet = { is_visible };

    ghost low_tag = { lit< tt };

    ghost ascii = { visible_below_80 };

    fn has(octet: u8) -> bool {
        octet >= 0x20 && octet <= 0x7e
    }
}

/// The characters of a TeletexString that are accepted: octets below hex 80.
#[derive(Clone, Copy, Debug, PartialEq, Eq, Drop)]
pub struct Teletex;

impl Tagged for Teletex {
    const TAG: Tag = Tag::TeletexString;

    ghost tag_number = { 20 };

    fn own_class() -> Class {
        Class::Universal
    }

    fn own_tag() -> Tag {
        Self::TAG
    }
}

impl OctetCharset for Teletex {
    ghost has_octet = { is_below_80 };

    ghost low_tag = { lit< tt };

    ghost ascii = { below_80 };

    fn has(octet: u8) -> bool {
        is_below_80(octet)
    }
}

/// The characters of a VideotexString that are accepted: octets below hex 80.
#[derive(Clone, Copy, Debug, PartialEq, Eq, Drop)]
pub struct Videotex;

impl Tagged for Videotex {
    const TAG: Tag = Tag::VideotexString;

    ghost tag_number = { 21 };

    fn own_class() -> Class {
        Class::Universal
    }

    fn own_tag() -> Tag {
        Self::TAG
    }
}

impl OctetCharset for Videotex {
    ghost has_octet = { is_below_80 };

    ghost low_tag = { lit< tt };

    ghost ascii = { below_80 };

    fn has(octet: u8) -> bool {
        is_below_80(octet)
    }
}

/// The characters of a GraphicString that are accepted: octets below hex 80.
#[derive(Clone, Copy, Debug, PartialEq, Eq, Drop)]
pub struct Graphic;

impl Tagged for Graphic {
    const TAG: Tag = Tag::GraphicString;

    ghost tag_number = { 25 };

    fn own_class() -> Class {
        Class::Universal
    }

    fn own_tag() -> Tag {
        Self::TAG
    }
}

impl OctetCharset for Graphic {
    ghost has_octet = { is_below_80 };

    ghost low_tag = { lit< tt };

    ghost ascii = { below_80 };

    fn has(octet: u8) -> bool {
        is_below_80(octet)
    }
}

/// The characters of a GeneralString that are accepted: octets below hex 80.
#[derive(Clone, Copy, Debug, PartialEq, Eq, Drop)]
pub struct General;

impl Tagged for General {
    const TAG: Tag = Tag::GeneralString;

    ghost tag_number = { 27 };

    fn own_class() -> Class {
        Class::Universal
    }

    fn own_tag() -> Tag {
        Self::TAG
    }
}

impl OctetCharset for General {
    ghost has_octet = { is_below_80 };

    ghost low_tag = { lit< tt };

    ghost ascii = { below_80 };

    fn has(octet: u8) -> bool {
        is_below_80(octet)
    }
}

/// The characters of an ObjectDescriptor that are accepted: octets below hex 80.
#[derive(Clone, Copy, Debug, PartialEq, Eq, Drop)]
pub struct Descriptor;

impl Tagged for Descriptor {
    const TAG: Tag = Tag::ObjectDescriptor;

    ghost tag_number = { 7 };

    fn own_class() -> Class {
        Class::Universal
    }

    fn own_tag() -> Tag {
        Self::TAG
    }
}

impl OctetCharset for Descriptor {
    ghost has_octet = { is_below_80 };

    ghost low_tag = { lit< tt };

    ghost ascii = { below_80 };

    fn has(octet: u8) -> bool {
        is_below_80(octet)
    }
}

// Whether the octet is below 80 hex.
fn is_below_80(octet: u8) -> bool
    ensures { result ≡ is_below_80 octet }
{
    octet < 0x80
}
