//! Laws of headers and elements. Each is a function that does nothing: its contract is the law.

ghost use Rattle.std.specs.Prelude.{◌≡◌, ◌+◌, ◌<◌, ◌≤◌, ℕ, List, [], ◌∷◌, ◌++◌, length};
ghost use Rattle.std.specs.Int.Digits.{digits_of, number_from_digits, AllBelowBase};
ghost use Rattle.asn1_core.specs.Strict.{Head, IsHead, strict_length, strict_header};
ghost use Rattle.asn1_core.specs.Elements.{Element, IsElement, element_octets};
ghost use Rattle.asn1_core.specs.Lenient.{SpellsHeader, BerHead, IsBerHead, SpellsBerHeader, ber_head_of_head};

/// Two strict headers at the front of one input are equal, and so are the rests (X.690, 10.1).
pub fn one_header()
    ensures { (h k : Head) (xs ys : List ℕ) → IsHead h → IsHead k
        → strict_header h ++ xs ≡ strict_header k ++ ys → (h ≡ k) × (xs ≡ ys) }
{}

/// Two strict elements at the front of one input are equal, and so are the rests.
pub fn one_element()
    ensures { (e f : Element) (xs ys : List ℕ) → IsElement e → IsElement f
        → element_octets e ++ xs ≡ element_octets f ++ ys → (e ≡ f) × (xs ≡ ys) }
{}

/// Digits whose first isn't 0 are the fewest digits of the number that they make.
pub fn fewest_digits()
    ensures { (b d : ℕ) (ds : List ℕ) → 2 ≤ b → 0 < d → AllBelowBase b (d ∷ ds)
        → digits_of b (number_from_digits b (d ∷ ds)) ≡ d ∷ ds }
{}

/// A count and that many octets, the first not 0, are the strict length of a number from 128 on
/// (X.690, 8.1.3.5).
pub fn long_length()
    ensures { (d : ℕ) (ds : List ℕ) → 0 < d → AllBelowBase 256 (d ∷ ds)
        → 128 ≤ number_from_digits 256 (d ∷ ds)
        → strict_length (number_from_digits 256 (d ∷ ds)) ≡ (128 + length (d ∷ ds)) ∷ d ∷ ds }
{}

/// A strict header is also a lenient one, and each number in it is an octet.
pub fn strict_is_lenient()
    ensures spells { (h : Head) → IsHead h → SpellsHeader (strict_header h) h }
    ensures octets { (h : Head) → IsHead h → AllBelowBase 256 (strict_header h) }
{}

/// Two headers of definite length, in any of their forms, at the front of one input are equal, and
/// so are the rests.
pub fn one_lenient_header()
    ensures { (f g xs ys : List ℕ) (h k : Head) → IsHead h → IsHead k → SpellsHeader f h → SpellsHeader g k
        → f ++ xs ≡ g ++ ys → (h ≡ k) × (f ≡ g) × (xs ≡ ys) }
{}

/// Two BER headers at the front of one input are equal, and so are the rests.
pub fn one_ber_header()
    ensures { (f g xs ys : List ℕ) (h k : BerHead) → IsBerHead h → IsBerHead k → SpellsBerHeader f h → SpellsBerHeader g k
        → f ++ xs ≡ g ++ ys → (h ≡ k) × (f ≡ g) × (xs ≡ ys) }
{}

/// A header of definite length is also a BER header, of equal class, constructed bit, tag number
/// and length.
pub fn lenient_is_ber()
    ensures spells { (octets : List ℕ) (h : Head) → SpellsHeader octets h → SpellsBerHeader octets (ber_head_of_head h) }
    ensures range { (h : Head) → IsHead h → IsBerHead (ber_head_of_head h) }
{}
