//! Laws of objects and of their trees. Each is a function that does nothing: its contract is the law.

ghost use Rattle.std.specs.Prelude.{◌≡◌, ◌≤◌, ◌-◌, ℕ, true, false, List, ◌++◌, Some, ◌↔◌};
ghost use Rattle.asn1_core.specs.Elements.{Element, IsElement, element_octets};
ghost use Rattle.asn1_oid.specs.Identifier.{IsOidContent};
ghost use Rattle.der_tree.specs.Access.{universal, sequence_at, set_at, oid_at, plain_at, element_at, first_at};
ghost use Rattle.der_tree.specs.Encode.{encoded};
ghost use Rattle.der_tree.specs.Object.{IsCut, IsDerObject};
ghost use Rattle.der_tree.specs.Shape.{IsObject, IsContent, AreObjects, HasTree};
ghost use Rattle.der_tree.specs.Table.{Kind, tag_of, Allows};
ghost use Rattle.der_tree.specs.Tree.{Tree, Content, Trees, octets, all_octets};

/// A DER object of at most k levels, by cases on its octets alone, is what has a tree of at most k levels.
pub fn levels_and_trees()
    ensures { (k : ℕ) (s : List ℕ) → IsDerObject k s ↔ HasTree k s }
{}

/// Two trees of objects whose octets begin one list are one, and so are the rests.
pub fn one_tree()
    ensures { (k j : ℕ) (t u : Tree) (xs ys : List ℕ) → IsObject k t → IsObject j u
        → octets t ++ xs ≡ octets u ++ ys → (t ≡ u) × (xs ≡ ys) }
{}

/// An element holds one content, whatever the levels.
pub fn one_content()
    ensures { (k j : ℕ) (e : Element) (c d : Content) → IsContent k e c → IsContent j e d → c ≡ d }
{}

/// A tree of at most k levels is one of at most any more.
pub fn more_levels()
    ensures { (t : Tree) (k j : ℕ) → k ≤ j → IsObject k t → IsObject j t }
{}

/// What is written of the tree of an object are its octets.
pub fn written_again()
    ensures { (t : Tree) (k : ℕ) → IsObject k t → encoded t ≡ octets t }
{}

/// A tree shows a sequence exactly if its octets are a universal constructed element of tag 16
/// (X.690, 8.9).
pub fn shape_of_sequence()
    ensures found { (k : ℕ) (t : Tree) (ts : Trees) → IsObject k t → sequence_at t ≡ Some ts
        → IsCut (octets t) (universal true 16 (all_octets ts)) × AreObjects (k - 1) ts }
    ensures only { (k : ℕ) (t : Tree) (s : List ℕ) → IsObject k t → IsElement (universal true 16 s)
        → octets t ≡ element_octets (universal true 16 s)
        → (ts : Trees) × (sequence_at t ≡ Some ts) × (all_octets ts ≡ s) × AreObjects (k - 1) ts }
{}

/// A tree shows a set exactly if its octets are a universal constructed element of tag 17 (X.690,
/// 8.11).
pub fn shape_of_set()
    ensures found { (k : ℕ) (t : Tree) (ts : Trees) → IsObject k t → set_at t ≡ Some ts
        → IsCut (octets t) (universal true 17 (all_octets ts)) × AreObjects (k - 1) ts }
    ensures only { (k : ℕ) (t : Tree) (s : List ℕ) → IsObject k t → IsElement (universal true 17 s)
        → octets t ≡ element_octets (universal true 17 s)
        → (ts : Trees) × (set_at t ≡ Some ts) × (all_octets ts ≡ s) × AreObjects (k - 1) ts }
{}

/// A tree shows an object identifier exactly if its octets are a universal primitive element of tag
/// 6 (X.690, 8.19).
pub fn shape_of_oid()
    ensures found { (k : ℕ) (t : Tree) (s : List ℕ) → IsObject k t → oid_at t ≡ Some s
        → IsCut (octets t) (universal false 6 s) × IsOidContent s }
    ensures only { (k : ℕ) (t : Tree) (s : List ℕ) → IsObject k t → IsElement (universal false 6 s)
        → octets t ≡ element_octets (universal false 6 s) → (oid_at t ≡ Some s) × IsOidContent s }
{}

/// A tree shows octets of a kind exactly if its octets are a universal primitive element of the
/// kind's tag.
pub fn shape_of_plain()
    ensures found { (k : ℕ) (t : Tree) (j : Kind) (s : List ℕ) → IsObject k t → plain_at j t ≡ Some s
        → IsCut (octets t) (universal false (tag_of j) s) × Allows j s }
    ensures only { (k : ℕ) (t : Tree) (j : Kind) (s : List ℕ) → IsObject k t
        → IsElement (universal false (tag_of j) s) → octets t ≡ element_octets (universal false (tag_of j) s)
        → (plain_at j t ≡ Some s) × Allows j s }
{}

/// Each tree shows an element, whatever it holds: that of its octets.
pub fn shape_of_element()
    ensures found { (k : ℕ) (t : Tree) → IsObject k t → IsCut (octets t) (element_at t) }
    ensures only { (k : ℕ) (t : Tree) (e : Element) → IsObject k t → IsElement e
        → octets t ≡ element_octets e → element_at t ≡ e }
{}

/// Parts whose octets begin with an element begin with the object of that element.
pub fn shape_of_first()
    ensures found { (k : ℕ) (ts : Trees) (t : Tree) (us : Trees) → AreObjects k ts → first_at ts ≡ Some (t, us)
        → IsObject k t × AreObjects k us × (all_octets ts ≡ octets t ++ all_octets us) }
    ensures only { (k : ℕ) (ts : Trees) (e : Element) (r : List ℕ) → AreObjects k ts → IsElement e
        → all_octets ts ≡ element_octets e ++ r
        → (t : Tree) × (us : Trees) × (first_at ts ≡ Some (t, us)) × IsObject k t
        × (octets t ≡ element_octets e) × AreObjects k us × (all_octets us ≡ r) }
{}
