//! Laws of the string types.

ghost use Rattle.std.specs.Prelude.{◌≡◌, ◌↔◌, Ok, ℕ, List, [], ◌∷◌, IsTrue, IsUtf8};
ghost use Rattle.std.specs.List.{flat_map};
ghost use Rattle.std.specs.Str.{all_scalars, encode_utf8_all};
ghost use Rattle.asn1_strings.specs.Wide.{utf16_octets, utf32_octets, wide_octets};
ghost use Rattle.asn1_strings.specs.Readers.{text_at};

use crate::character_string::TestValidCharset;
use crate::wide::WideForm;

/// The functions of the test of a character set and of the reader of strings find text of the type,
/// and nothing else.
pub fn text_function<C: TestValidCharset>()
    ensures { (content text : List ℕ) → (text_at C.passes content ≡ Ok text) ↔ ((text ≡ content) × C.is_text content) }
{}

/// The octets of a text of these characters are the characters' octets, one after another.
pub fn octets_of_characters<F: WideForm>()
    ensures { (characters : List ℕ) → IsTrue (all_scalars characters)
        → wide_octets F.char_octets (encode_utf8_all characters) ≡ flat_map F.char_octets characters }
{}

/// Two texts of equal octets are equal.
pub fn one_text<F: WideForm>()
    ensures { (text other : List ℕ) → IsUtf8 text → IsUtf8 other
        → wide_octets F.char_octets text ≡ wide_octets F.char_octets other → text ≡ other }
{}

/// Worked characters: A, the first one above the surrogates, the last of two octets, U+1F600 and
/// the last one of all.
pub fn worked_characters()
    ensures letter { (utf16_octets 0x41 ≡ 0x00 ∷ 0x41 ∷ []) × (utf32_octets 0x41 ≡ 0x00 ∷ 0x00 ∷ 0x00 ∷ 0x41 ∷ []) }
    ensures private { (utf16_octets 0xe000 ≡ 0xe0 ∷ 0x00 ∷ []) × (utf32_octets 0xe000 ≡ 0x00 ∷ 0x00 ∷ 0xe0 ∷ 0x00 ∷ []) }
    ensures short { utf16_octets 0xffff ≡ 0xff ∷ 0xff ∷ [] }
    ensures pair { (utf16_octets 0x1f600 ≡ 0xd8 ∷ 0x3d ∷ 0xde ∷ 0x00 ∷ []) × (utf32_octets 0x1f600 ≡ 0x00 ∷ 0x01 ∷ 0xf6 ∷ 0x00 ∷ []) }
    ensures last { (utf16_octets 0x10ffff ≡ 0xdb ∷ 0xff ∷ 0xdf ∷ 0xff ∷ []) × (utf32_octets 0x10ffff ≡ 0x00 ∷ 0x10 ∷ 0xff ∷ 0xff ∷ []) }
{}
