//! Laws of typed readers. Each is a function that does nothing: its contract is the law.

ghost use Rattle.std.specs.Prelude.{◌≡◌, ℕ, List, ◌++◌};
ghost use Rattle.der_parser.specs.Typed.{ReadsDer};
ghost use Rattle.der_tree.specs.Access.{element_at};
ghost use Rattle.der_tree.specs.Shape.{IsObject};
ghost use Rattle.der_tree.specs.Tree.{Tree, octets};

/// Two objects of one tag number that are read from one input are equal, and so are the rests.
pub fn one_object()
    ensures { (n : ℕ) (octets xs ys : List ℕ) (t u : Tree) → ReadsDer n octets t xs → ReadsDer n octets u ys
        → (t ≡ u) × (xs ≡ ys) }
{}

/// A tree of at most 50 levels, as `parse_der` returns it, is also read by the typed reader of its
/// tag number, if its class is universal.
pub fn strict_object()
    ensures { (t : Tree) (rest : List ℕ) → IsObject 50 t → (element_at t).class ≡ 0
        → ReadsDer (element_at t).tag (octets t ++ rest) t rest }
{}
