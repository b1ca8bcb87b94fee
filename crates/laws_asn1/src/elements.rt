//! Premises of the laws of elements and cuttings (`asn1_any`).

ghost use Rattle.std.specs.Prelude.{◌≡◌, [], ◌∷◌, ◌++◌};
ghost use Rattle.std.specs.Int.Digits.{AllBelowBase};
ghost use Rattle.asn1_any.specs.BerElements.{BeginsWithBerElement};
ghost use Rattle.asn1_any.specs.Cutting.{IsCutting, IsPiece};
ghost use Rattle.asn1_any.specs.DerElements.{BeginsWithElement};
ghost use Rattle.laws_asn1.specs.Worked.{after, indefinite_element, indefinite_whole, long_null, long_piece, null_element};

/// A NULL with its length in the long form, `05 81 00`, and an octet after it.
pub fn example_of_one_definite_element()
    ensures { BeginsWithElement (long_null ++ after) null_element after }
{}

/// A SEQUENCE of indefinite length that holds a NULL, `30 80 05 00 00 00`, and an octet after it.
pub fn example_of_one_ber_element()
    ensures { BeginsWithBerElement 1 (indefinite_whole ++ after) indefinite_element after }
{}

/// A content of one element, with one octet of a second after it.
pub fn example_of_one_cutting()
    ensures { IsPiece long_piece × IsCutting (long_null ++ (0x05 ∷ [])) (long_piece ∷ []) (0x05 ∷ []) × AllBelowBase 256 (0x05 ∷ []) }
{}

/// One octet of an element, which is no piece; and a piece before it.
pub fn example_of_no_piece()
    ensures none { AllBelowBase 256 (0x05 ∷ []) × IsCutting (0x05 ∷ []) [] (0x05 ∷ []) }
    ensures more { IsPiece long_piece × ((long_null ++ (0x05 ∷ [])) ≡ long_piece.octets ++ (0x05 ∷ [])) }
{}
