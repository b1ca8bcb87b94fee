//! Laws of framing, each the contract of a function that does nothing.
ghost use Rattle.std.specs.Prelude.{◌≡◌, ℕ, false, List, [], ◌++◌};
ghost use Rattle.std.specs.List.{concat};
ghost use Rattle.cert_framing.specs.declared.ending.End.{End};
ghost use Rattle.cert_framing.specs.Framing.{IsItem, IsFraming};
ghost use Rattle.cert_framing.specs.Held.{Held, StandsFor, TakesPieces};

/// A stream has one framing.
pub fn one_framing()
    ensures { (limit : ℕ) (stream : List ℕ) (items others : List (List ℕ)) (end last : End)
        → IsFraming limit stream items end → IsFraming limit stream others last → (items ≡ others) × (end ≡ last) }
{}

/// Two items at the front of one input are equal, and so are the rests: no item begins another.
pub fn one_item()
    ensures { (limit : ℕ) (item other rest after : List ℕ) → IsItem limit item → IsItem limit other
        → item ++ rest ≡ other ++ after → (item ≡ other) × (rest ≡ after) }
{}

/// Two bundles of one limit that represent one stream have equal items and octets.
pub fn one_bundle()
    ensures { (stream : List ℕ) (held other : Held) → held.limit ≡ other.limit
        → StandsFor held stream → StandsFor other stream → held ≡ other }
{}

/// However a stream is cut into pieces, empty ones too, the bundles that took them have equal items
/// and octets, so they finish alike.
pub fn any_cutting()
    ensures { (pieces others : List (List ℕ)) (start other_start last other_last : Held)
        → start.limit ≡ other_start.limit → StandsFor start [] → StandsFor other_start []
        → TakesPieces start pieces last → TakesPieces other_start others other_last
        → concat pieces ≡ concat others → last ≡ other_last }
{}

/// A bundle that met no fault represents at most one stream.
pub fn one_stream()
    ensures { (held : Held) (stream other : List ℕ) → held.has_fault ≡ false
        → StandsFor held stream → StandsFor held other → stream ≡ other }
{}
