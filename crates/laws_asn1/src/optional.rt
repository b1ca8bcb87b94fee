//! Premises of the laws of optional values under a tag (`asn1_tagged`).

ghost use Rattle.std.specs.Prelude.{◌≢◌, ℕ, [], ◌∷◌};
ghost use Rattle.asn1_traits.specs.Options.{BeginsWithBerTag, BeginsWithTag};
ghost use Rattle.laws_asn1.specs.Worked.{cut_header};

/// A header of the tag number 1, `a1 00`; and one of indefinite length.
pub fn example_of_a_wanted_tag()
    ensures der { BeginsWithTag (0xa1 ∷ 0x00 ∷ []) 1 }
    ensures ber { BeginsWithBerTag (0xa1 ∷ 0x80 ∷ 0x00 ∷ 0x00 ∷ []) 1 }
{}

/// One octet, `a1`, which no header begins.
pub fn example_of_no_tag()
    ensures der { (cut_header ≢ []) × ((n : ℕ) → BeginsWithTag cut_header n → ⊥) }
    ensures ber { (cut_header ≢ []) × ((n : ℕ) → BeginsWithBerTag cut_header n → ⊥) }
{}
