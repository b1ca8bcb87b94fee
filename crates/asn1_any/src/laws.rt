//! Laws of elements at the front of octets. Each is a function that does nothing: its contract is
//! the law.

ghost use Rattle.std.specs.Prelude.{◌≡◌, ℕ, List, [], ◌∷◌, ◌++◌, Some, None};
ghost use Rattle.std.specs.Int.Digits.{AllBelowBase};
ghost use Rattle.asn1_core.specs.Elements.{Element, IsElement, element_octets};
ghost use Rattle.asn1_any.specs.DerElements.{SpellsElement, BeginsWithElement, HasElement};
ghost use Rattle.asn1_any.specs.BerElements.{BerElement, definite_element, BeginsWithBerElement};
ghost use Rattle.asn1_any.specs.Cutting.{Piece, IsPiece, IsCutting};
ghost use Rattle.asn1_any.specs.Reading.{any_der, any_ber};

/// Two elements of definite length at the front of one input are equal, and so are the rests.
pub fn one_definite_element()
    ensures { (octets xs ys : List ℕ) (e f : Element) → BeginsWithElement octets e xs
        → BeginsWithElement octets f ys → (e ≡ f) × (xs ≡ ys) }
{}

/// Two BER elements at the front of one input are equal, and so are the rests.
pub fn one_ber_element()
    ensures { (levels : ℕ) (octets xs ys : List ℕ) (e f : BerElement) → BeginsWithBerElement levels octets e xs
        → BeginsWithBerElement levels octets f ys → (e ≡ f) × (xs ≡ ys) }
{}

/// The strict octets of an element are one of its spellings (X.690, 10.1), and are read back before
/// any rest, by either reader.
pub fn strict_is_definite()
    ensures spells { (e : Element) → IsElement e → SpellsElement (element_octets e) e }
    ensures der { (e : Element) (rest : List ℕ) → IsElement e → any_der (element_octets e ++ rest) ≡ Some (e, rest) }
    ensures ber { (e : Element) (rest : List ℕ) → IsElement e → any_ber (element_octets e ++ rest) ≡ Some (e, rest) }
{}

/// An element of definite length is also a BER element.
pub fn definite_is_ber()
    ensures { (levels : ℕ) (octets rest : List ℕ) (e : Element) → BeginsWithElement octets e rest
        → BeginsWithBerElement levels octets (definite_element e) rest }
{}

/// An element at the front of an input is also at the front of that input with more octets after
/// it.
pub fn more_octets()
    ensures definite { (octets rest more : List ℕ) (e : Element) → BeginsWithElement octets e rest
        → BeginsWithElement (octets ++ more) e (rest ++ more) }
    ensures ber { (levels : ℕ) (octets rest more : List ℕ) (e : BerElement) → BeginsWithBerElement levels octets e rest
        → BeginsWithBerElement levels (octets ++ more) e (rest ++ more) }
{}

/// Two cuttings of one content are equal.
pub fn one_cutting()
    ensures { (content : List ℕ) (pieces others : List Piece) (tail last : List ℕ) → IsCutting content pieces tail
        → IsCutting content others last → (pieces ≡ others) × (tail ≡ last) }
{}

/// A content is cut piece by piece: if there is no piece, no element is at its front; else its
/// first piece is the element at its front, and the others are the cutting of the octets after
/// that.
pub fn cutting_by_piece()
    ensures none { (content tail : List ℕ) → IsCutting content [] tail → (content ≡ tail) × ¬ HasElement content }
    ensures first { (content : List ℕ) (piece : Piece) (pieces : List Piece) (tail : List ℕ) → IsCutting content (piece ∷ pieces) tail
        → (rest : List ℕ) × (content ≡ piece.octets ++ rest) × BeginsWithElement content piece.element rest × IsCutting rest pieces tail }
    ensures more { (content rest : List ℕ) (piece : Piece) (pieces : List Piece) (tail : List ℕ) → IsPiece piece
        → content ≡ piece.octets ++ rest → IsCutting rest pieces tail → IsCutting content (piece ∷ pieces) tail }
{}

/// The reader of elements reads the first piece of a cutting, and leaves the cutting of the octets
/// after it; it reads nothing at the tail of a cutting, nor of octets that no element begins.
pub fn cutting_by_reader()
    ensures first { (content : List ℕ) (piece : Piece) (pieces : List Piece) (tail : List ℕ) → IsCutting content (piece ∷ pieces) tail
        → (rest : List ℕ) × (any_der content ≡ Some (piece.element, rest)) × (content ≡ piece.octets ++ rest) × IsCutting rest pieces tail }
    ensures none { (content tail : List ℕ) → AllBelowBase 256 content → IsCutting content [] tail → any_der content ≡ None }
    ensures tail { (content : List ℕ) (pieces : List Piece) (tail : List ℕ) → AllBelowBase 256 tail → IsCutting content pieces tail → any_der tail ≡ None }
{}
