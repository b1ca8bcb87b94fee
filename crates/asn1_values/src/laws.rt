//! Laws of values, for proofs.
ghost use Rattle.std.specs.Prelude.{◌≡◌, ◌↔◌, ◌<◌, ◌^◌, ◌==◌, not, ℕ, ℤ, pos, List, [], ◌∷◌, Ok, IsTrue};
ghost use Rattle.std.specs.Int.Digits.{AllBelowBase};
ghost use Rattle.asn1_traits.specs.Booleans.{BooleanMeans};
ghost use Rattle.asn1_traits.specs.Integers.{IsShortest, IsSigned, SpellsInteger, integer_octets, twos_complement};
ghost use Rattle.asn1_values.specs.Bits.{BitsMean, IsStrictBitContent};
ghost use Rattle.asn1_values.specs.Contents.{HoldsSome};
ghost use Rattle.asn1_values.specs.Readers.{bits_at, check_bits, some_octets, number_at, natural_at, unsigned_at, signed_at};

/// A content of one octet means what `bool` reads of it.
pub fn octet_means_bool()
    ensures { (octet : ℕ) → BooleanMeans (octet ∷ []) (not (octet == 0)) }
{}

/// The octets that DER allows for a number are its only ones: those that are written of it.
pub fn one_spelling()
    ensures spelled { (content : List ℕ) → AllBelowBase 256 content → IsShortest content
        → content ≡ integer_octets (twos_complement content) }
    ensures once { (left right : List ℕ) → AllBelowBase 256 left → AllBelowBase 256 right → IsShortest left → IsShortest right
        → twos_complement left ≡ twos_complement right → left ≡ right }
{}

/// The functions of the reader of bit strings and of its check by DER find what a content means,
/// and nothing else.
pub fn bit_functions()
    ensures ber { (content : List ℕ) (unused : ℕ) (octets : List ℕ) → (bits_at content ≡ Ok (unused, octets)) ↔ BitsMean content unused octets }
    ensures der { (content : List ℕ) → (check_bits content ≡ Ok tt) ↔ IsStrictBitContent content }
{}

/// The functions of the reader of integers and of the conversions find what a content means, and
/// nothing else.
pub fn integer_functions()
    ensures held { (content held : List ℕ) → (some_octets content ≡ Ok held) ↔ HoldsSome content held }
    ensures whole { (content : List ℕ) (z : ℤ) → (number_at content ≡ Ok z) ↔ SpellsInteger content z }
    ensures natural { (content : List ℕ) (n : ℕ) → (natural_at content ≡ Ok n) ↔ SpellsInteger content (pos n) }
    ensures unsigned { (bits : ℕ) (content : List ℕ) (n : ℕ) → (unsigned_at bits content ≡ Ok n) ↔ (SpellsInteger content (pos n) × (n < 2 ^ bits)) }
    ensures signed { (bits : ℕ) (content : List ℕ) (z : ℤ) → (signed_at bits content ≡ Ok z) ↔ (SpellsInteger content z × IsSigned bits z) }
{}
