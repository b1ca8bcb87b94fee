//! `BmpString` and `UniversalString`.

ghost use Rattle.std.specs.Prelude.{◌≡◌, length};
ghost use Rattle.std.proofs.Common.{lit<};
ghost use Rattle.asn1_strings.specs.Wide.{utf16_octets, utf32_octets, BeginsWithChar, BeginsWithNone};
ghost use Rattle.asn1_strings.specs.WideLaws.{utf16_some, utf16_one, utf32_some, utf32_one};

use crate::wide::{CharOctets, WideForm, WideString};
use asn1_core::{Class, Tag};
use asn1_traits::Tagged;

/// BMPString, tag 30: UTF-16, the high octet first.
pub type BmpString = WideString<Utf16>;

/// UniversalString, tag 28: four octets for a character, the high octet first.
pub type UniversalString = WideString<Utf32>;

/// The form of a BMPString: UTF-16, the high octet first; characters above hex ffff take a pair of
/// surrogates.
#[derive(Clone, Copy, Debug, PartialEq, Eq, Drop)]
pub struct Utf16;

impl Tagged for Utf16 {
    const TAG: Tag = Tag::BmpString;

    ghost tag_number = { 30 };

    fn own_class() -> Class {
        Class::Universal
    }

    fn own_tag() -> Tag {
        Self::TAG
    }
}

impl WideForm for Utf16 {
    ghost char_octets = { utf16_octets };

    ghost low = { lit< tt };

    ghost some_octet = { utf16_some };

    ghost one_char = { utf16_one };

    fn octets_of_char(character: char) -> CharOctets {
        let mut units = [0u16; 2];
        match *character.encode_utf16(&mut units) {
            [unit] => CharOctets::Two(unit.to_be_bytes()),
            [high, low] => {
                let [a, b] = high.to_be_bytes();
                let [c, d] = low.to_be_bytes();
                CharOctets::Four([a, b, c, d])
            }
            _ => unreachable!(),
        }
    }

    fn first_char<'a>(octets: &'a [u8]) -> Option<(char, &'a [u8])> {
        let [a, b, rest @ ..] = octets else {
            return None;
        };
        let unit = u32::from(u16::from_be_bytes([*a, *b]));
        if unit < 0xd800 || unit >= 0xe000 {
            return match char::from_u32(unit) {
                Some(character) => Some((character, rest)),
                None => None,
            };
        }
        if unit >= 0xdc00 {
            return None;
        }
        let [c, d, after @ ..] = rest else {
            return None;
        };
        let low = u32::from(u16::from_be_bytes([*c, *d]));
        if low < 0xdc00 || low >= 0xe000 {
            return None;
        }
        match char::from_u32(0x1_0000 + (unit - 0xd800) * 0x400 + (low - 0xdc00)) {
            Some(character) => Some((character, after)),
            None => None,
        }
    }
}

/// The form of a UniversalString: four octets for a character, the high octet first.
#[derive(Clone, Copy, Debug, PartialEq, Eq, Drop)]
pub struct Utf32;

impl Tagged for Utf32 {
    const TAG: Tag = Tag::UniversalString;

    ghost tag_number = { 28 };

    fn own_class() -> Class {
        Class::Universal
    }

    fn own_tag() -> Tag {
        Self::TAG
    }
}

impl WideForm for Utf32 {
    ghost char_octets = { utf32_octets };

    ghost low = { lit< tt };

    ghost some_octet = { utf32_some };

    ghost one_char = { utf32_one };

    fn octets_of_char(character: char) -> CharOctets {
        CharOctets::Four(u32::from(character).to_be_bytes())
    }

    fn first_char<'a>(octets: &'a [u8]) -> Option<(char, &'a [u8])> {
        let [a, b, c, d, rest @ ..] = octets else {
            return None;
        };
        match char::from_u32(u32::from_be_bytes([*a, *b, *c, *d])) {
            Some(character) => Some((character, rest)),
            None => None,
        }
    }
}
