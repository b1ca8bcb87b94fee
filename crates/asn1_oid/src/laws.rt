//! Laws of identifiers, for proofs.
ghost use Rattle.std.specs.Prelude.{◌≡◌, ◌↔◌, ℕ, List};
ghost use Rattle.std.specs.Int.Digits.{AllBelowBase};
ghost use Rattle.asn1_oid.specs.Identifier.{content_octets, IsOidContent, IsContentByOctets, IsFront, Spells};
ghost use Rattle.asn1_oid.specs.Text.{dotted, spaced_hex, oid_text};

/// Octets spell at most one list of components, and a list of components has one spelling.
pub fn one_spelling()
    ensures components { (first second octets : List ℕ) → Spells first octets → Spells second octets
        → first ≡ second }
    ensures octets { (components first second : List ℕ) → Spells components first → Spells components second
        → first ≡ second }
{}

/// Different lists of subidentifiers have different octets, and all of these are octets.
pub fn one_content()
    ensures subidentifiers { (first second : List ℕ) → content_octets first ≡ content_octets second
        → first ≡ second }
    ensures octets { (subidentifiers : List ℕ) → AllBelowBase 256 (content_octets subidentifiers) }
{}

/// The octets that components spell are strict.
pub fn spelled_is_strict()
    ensures { (components octets : List ℕ) → Spells components octets → IsOidContent octets }
{}

/// When a content is strict, by its octets.
pub fn content_by_octets()
    ensures { (octets : List ℕ) → AllBelowBase 256 octets → (IsOidContent octets ↔ IsContentByOctets octets) }
{}

/// One content begins with another exactly if its subidentifiers begin with the other's.
pub fn one_front()
    ensures { (whole front : List ℕ) → IsFront (content_octets front) (content_octets whole) ↔ IsFront front whole }
{}

/// The text of octets that spell components, and of all others.
pub fn text_of_octets()
    ensures components { (components octets : List ℕ) → Spells components octets
        → oid_text octets ≡ dotted components }
    ensures others { (octets : List ℕ) → ((components : List ℕ) → Spells components octets → ⊥)
        → oid_text octets ≡ spaced_hex octets }
{}
