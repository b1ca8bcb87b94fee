//! Premises of the laws of strings of wide characters (`asn1_strings`).

ghost use Rattle.std.specs.Prelude.{◌≡◌, IsTrue, IsUtf8, [], ◌∷◌};
ghost use Rattle.std.specs.Str.{all_scalars};
ghost use Rattle.asn1_strings.specs.Wide.{wide_octets};

use asn1_strings::WideForm;
use asn1_strings::wide_forms::Utf16;

/// The characters A and U+1F600.
pub fn example_of_characters()
    ensures { IsTrue (all_scalars (0x41 ∷ 0x1f600 ∷ [])) }
{}

/// The text A, by UTF-16.
pub fn example_of_one_text()
    ensures { IsUtf8 (0x41 ∷ []) × (wide_octets ⟦<Utf16 as WideForm>⟧.char_octets (0x41 ∷ []) ≡ wide_octets ⟦<Utf16 as WideForm>⟧.char_octets (0x41 ∷ [])) }
{}
