//! Premises of the laws of shapes: a SEQUENCE of one INTEGER, an empty SET and an object identifier.

ghost use Rattle.std.specs.Prelude.{◌≡◌, true, false, Some, [], ◌∷◌, ◌++◌};
ghost use Rattle.asn1_core.specs.Elements.{element_octets, IsElement};
ghost use Rattle.der_tree.specs.Access.{first_at, oid_at, plain_at, sequence_at, set_at, universal};
ghost use Rattle.der_tree.specs.Shape.{AreObjects, IsObject};
ghost use Rattle.der_tree.specs.Table.{integer, tag_of};
ghost use Rattle.der_tree.specs.Tree.{all_octets, octets};
ghost use Rattle.laws_der.specs.Worked.{five_element, five_octets, five_tree, list_tree, no_trees, oid_tree, one_tree, set_tree};

/// The SEQUENCE.
pub fn example_of_shape_of_sequence()
    ensures found { IsObject 2 list_tree × (sequence_at list_tree ≡ Some one_tree) }
    ensures only { IsElement (universal true 16 five_octets) × (octets list_tree ≡ element_octets (universal true 16 five_octets)) }
{}

/// The SET.
pub fn example_of_shape_of_set()
    ensures found { IsObject 1 set_tree × (set_at set_tree ≡ Some no_trees) }
    ensures only { IsElement (universal true 17 []) × (octets set_tree ≡ element_octets (universal true 17 [])) }
{}

/// The object identifier 1.2.3.
pub fn example_of_shape_of_oid()
    ensures found { IsObject 1 oid_tree × (oid_at oid_tree ≡ Some (0x2a ∷ 0x03 ∷ [])) }
    ensures only { IsElement (universal false 6 (0x2a ∷ 0x03 ∷ [])) × (octets oid_tree ≡ element_octets (universal false 6 (0x2a ∷ 0x03 ∷ []))) }
{}

/// The INTEGER, alone.
pub fn example_of_shape_of_plain()
    ensures found { IsObject 1 five_tree × (plain_at integer five_tree ≡ Some (0x05 ∷ [])) }
    ensures only { IsElement (universal false (tag_of integer) (0x05 ∷ []))
        × (octets five_tree ≡ element_octets (universal false (tag_of integer) (0x05 ∷ []))) }
    ensures element { IsElement five_element × (octets five_tree ≡ element_octets five_element) }
{}

/// The parts of the SEQUENCE.
pub fn example_of_shape_of_first()
    ensures found { AreObjects 1 one_tree × (first_at one_tree ≡ Some (five_tree, no_trees)) }
    ensures only { IsElement five_element × (all_octets one_tree ≡ element_octets five_element ++ []) }
{}
