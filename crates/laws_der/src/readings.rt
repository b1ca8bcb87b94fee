//! Premises of the laws of BER objects (`ber_tree`) and of readers by tag number (`der_parser`).

ghost use Rattle.std.specs.Prelude.{◌≡◌, ◌≤◌, [], ◌∷◌, ◌++◌};
ghost use Rattle.ber_tree.specs.Object.{IsBerObject, IsBerTree};
ghost use Rattle.der_parser.specs.Typed.{ReadsDer};
ghost use Rattle.der_tree.specs.Tree.{octets};
ghost use Rattle.laws_der.specs.Worked.{list_tree};

/// The SEQUENCE, as a BER object of two levels and as a BER tree, with an octet after it.
pub fn example_of_one_ber_tree()
    ensures { (2 ≤ 50) × IsBerObject 2 list_tree × IsBerTree 2 list_tree
        × (octets list_tree ++ (0xff ∷ []) ≡ octets list_tree ++ (0xff ∷ [])) }
{}

/// The SEQUENCE, found by its tag number 16.
pub fn example_of_one_object()
    ensures { ReadsDer 16 (octets list_tree ++ (0xff ∷ [])) list_tree (0xff ∷ []) }
{}
