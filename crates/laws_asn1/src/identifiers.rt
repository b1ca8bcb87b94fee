//! Premises of the laws of object identifiers (`asn1_oid`).

ghost use Rattle.std.specs.Prelude.{◌≡◌, ℕ, List, [], ◌∷◌};
ghost use Rattle.std.specs.Int.Digits.{AllBelowBase};
ghost use Rattle.asn1_oid.specs.Identifier.{content_octets, Spells};
ghost use Rattle.laws_asn1.specs.Worked.{components, identifier_octets, padded_octets};

/// 1.2.840, whose content octets are `2a 86 48`.
pub fn example_of_one_spelling()
    ensures { Spells components identifier_octets × AllBelowBase 256 identifier_octets }
{}

/// The subidentifiers 42 and 840.
pub fn example_of_one_content()
    ensures { content_octets (42 ∷ 840 ∷ []) ≡ content_octets (42 ∷ 840 ∷ []) }
{}

/// `2a 80 01`, whose second subidentifier begins with 80, is spelled by no components.
pub fn example_of_other_text()
    ensures { (components : List ℕ) → Spells components padded_octets → ⊥ }
{}
