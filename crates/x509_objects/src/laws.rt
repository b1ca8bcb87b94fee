//! Laws of the tables. Each is a function without an effect; its contract is the law.

ghost use Rattle.std.specs.Prelude.{◌≡◌, ◌↔◌, ℕ, List, Some};
ghost use Rattle.x509_objects.specs.Table.{Entry, known, known_entry, abbreviations, abbreviation_of, IsRow};

/// The registry of `oid_registry` has exactly the rows of its table, which names each identifier
/// once.
pub fn known_identifiers()
    ensures { (id : List ℕ) (e : Entry) → (known_entry id ≡ Some e) ↔ IsRow id e known }
{}

/// The abbreviations are exactly those of the rows of their table, which names each attribute type
/// once.
pub fn abbreviated_types()
    ensures { (id text : List ℕ) → (abbreviation_of id ≡ Some text) ↔ IsRow id text abbreviations }
{}
