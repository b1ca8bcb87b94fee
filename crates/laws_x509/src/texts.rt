//! Premises of the laws of algorithms (`x509_algorithms`) and of the texts of names (`x509_names`).

ghost use Rattle.std.specs.Prelude.{◌≡◌, ℕ, List, [], None, Some};
ghost use Rattle.std.specs.Int.Digits.{AllBelowBase};
ghost use Rattle.asn1_core.specs.Elements.{Element};
ghost use Rattle.x509_algorithms.specs.Examples.{no_pss};
ghost use Rattle.x509_algorithms.specs.Signatures.{IsSignature};
ghost use Rattle.x509_algorithms.specs.Values as values;
ghost use Rattle.x509_objects.specs.Registry.{entry_of};
ghost use Rattle.x509_objects.specs.Table.{known_entry};
ghost use Rattle.laws_x509.specs.Algorithms.{pss};
ghost use Rattle.laws_x509.specs.Registry.{known_registry};

use std::alloc::Global;

/// RSASSA-PSS, with parameters that say nothing.
pub fn example_of_one_signature()
    ensures { ((e : Element) → pss.parameters ≡ Some e → AllBelowBase 256 e.content) × IsSignature pss (values.rsassa_pss no_pss) }
{}

/// The registry of the known identifiers, which has none of no octets.
pub fn example_of_a_registry(alloc: Global)
    ensures { ((id : List ℕ) → entry_of (known_registry alloc) id ≡ known_entry id) × (entry_of (known_registry alloc) [] ≡ None) }
{}
