//! Laws of the texts of names. Each is a function without an effect; its contract is the law.

ghost use Rattle.std.specs.Prelude.{◌≡◌, ℕ, List, codes};
ghost use Rattle.x509_names.specs.Fields.{Name};
ghost use Rattle.x509_names.specs.NameTexts.{known_label, name_text, shown_name};
ghost use Rattle.x509_names.specs.TextExamples as examples;
ghost use Rattle.x509_objects.specs.Registry.{entry_of, abbreviated};
ghost use Rattle.x509_objects.specs.Table.{known_entry};
ghost use Rattle.x509_objects.specs.declared.registry.OidRegistry.{OidRegistry};

/// Worked names and the texts that they have.
pub fn worked_texts()
    ensures row { shown_name examples.row ≡ codes "C=FR, ST=Some-State, O=Internet Widgits Pty Ltd, CN=Test1 + CN=Test2" }
    ensures wide { shown_name examples.wide ≡ codes "CN=Az" }
    ensures hex { shown_name examples.octets ≡ codes "OID(1.2.3)=0AFF" }
    ensures empty { shown_name examples.empty_sets ≡ codes "CN=Az, , CN=Az" }
    ensures fault { shown_name examples.fault ≡ codes "<X509Error: Invalid X.509 name>" }
{}

/// `to_string_with_registry` with the registry of `oid_registry` gives the text that `Display`
/// writes.
pub fn known_registry()
    ensures { (r : OidRegistry) → ((id : List ℕ) → entry_of r id ≡ known_entry id) → (n : Name)
        → name_text (abbreviated r) n ≡ name_text known_label n }
{}
