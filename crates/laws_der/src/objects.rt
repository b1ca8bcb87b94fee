//! Premises of the laws of objects: a SEQUENCE of one INTEGER, `30 03 02 01 05`.

ghost use Rattle.std.specs.Prelude.{◌≡◌, ◌≤◌, [], ◌∷◌, ◌++◌};
ghost use Rattle.der_tree.specs.Access.{element_at};
ghost use Rattle.der_tree.specs.Shape.{IsContent, IsObject};
ghost use Rattle.der_tree.specs.Tree.{octets};
ghost use Rattle.laws_der.specs.Worked.{five_content, five_element, list_tree};

/// The tree, as one of two levels and of 50, and an octet after it.
pub fn example_of_one_tree()
    ensures { (2 ≤ 50) × IsObject 2 list_tree × IsObject 50 list_tree × (octets list_tree ++ (0xff ∷ []) ≡ octets list_tree ++ (0xff ∷ []))
        × ((element_at list_tree).class ≡ 0) }
{}

/// The content of the INTEGER.
pub fn example_of_one_content()
    ensures { IsContent 1 five_element five_content }
{}
