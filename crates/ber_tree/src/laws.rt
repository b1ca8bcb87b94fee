//! Laws of BER objects and of their trees. Each is a function that does nothing: its contract is
//! the law.

ghost use Rattle.std.specs.Prelude.{◌≡◌, ◌≤◌, ℕ, List, ◌++◌};
ghost use Rattle.der_tree.specs.Shape.{IsObject};
ghost use Rattle.der_tree.specs.Tree.{Tree, octets};
ghost use Rattle.ber_tree.specs.Object.{IsBerObject, IsBerTree};

/// Two trees of BER objects whose octets begin one input are equal, and so are the rests.
pub fn one_ber_tree()
    ensures { (k j : ℕ) (t u : Tree) (xs ys : List ℕ) → IsBerTree k t → IsBerTree j u
        → octets t ++ xs ≡ octets u ++ ys → (t ≡ u) × (xs ≡ ys) }
{}

/// A tree of at most k levels is one of at most any greater number.
pub fn more_ber_levels()
    ensures { (t : Tree) (k j : ℕ) → k ≤ j → IsBerObject k t → IsBerObject j t }
{}

/// A tree of a DER object is also one of a BER object.
pub fn strict_is_ber()
    ensures { (t : Tree) (k : ℕ) → IsObject k t → IsBerObject k t }
{}
