//! Premises of the laws of headers and elements (`asn1_core`).

ghost use Rattle.std.specs.Prelude.{◌≡◌, ◌≤◌, ◌<◌, [], ◌∷◌, ◌++◌};
ghost use Rattle.std.specs.Int.Digits.{number_from_digits, AllBelowBase};
ghost use Rattle.asn1_core.specs.Elements.{IsElement, element_octets};
ghost use Rattle.asn1_core.specs.Lenient.{IsBerHead, SpellsBerHeader, SpellsHeader};
ghost use Rattle.asn1_core.specs.Strict.{IsHead, strict_header};
ghost use Rattle.laws_asn1.specs.Worked.{after, indefinite_head, indefinite_octets, long_octets, null_element, sequence_head};

/// A strict header, `30 03`, and an octet after it.
pub fn example_of_one_header()
    ensures { IsHead sequence_head × (strict_header sequence_head ++ after ≡ strict_header sequence_head ++ after) }
{}

/// A NULL, `05 00`, and an octet after it.
pub fn example_of_one_element()
    ensures { IsElement null_element × (element_octets null_element ++ after ≡ element_octets null_element ++ after) }
{}

/// The digits of 300 in base 256, `01 2c`, a number above 127.
pub fn example_of_long_length()
    ensures { (2 ≤ 256) × (0 < 1) × AllBelowBase 256 (1 ∷ 44 ∷ []) × (128 ≤ number_from_digits 256 (1 ∷ 44 ∷ [])) }
{}

/// A header whose length is longer than need be, `30 81 03`, and an octet after it.
pub fn example_of_one_lenient_header()
    ensures { IsHead sequence_head × SpellsHeader long_octets sequence_head × (long_octets ++ after ≡ long_octets ++ after) }
{}

/// A header of indefinite length, `30 80`, and an octet after it.
pub fn example_of_one_ber_header()
    ensures { IsBerHead indefinite_head × SpellsBerHeader indefinite_octets indefinite_head
        × (indefinite_octets ++ after ≡ indefinite_octets ++ after) }
{}
