//! Laws and examples. Each is a function that does nothing: its contract is the law.

ghost use Rattle.std.specs.Prelude.{◌≡◌, ◌↔◌, ℕ, Bool, List, [], ◌∷◌};
ghost use Rattle.host_names.specs.Asked.{Asked, name, address};
ghost use Rattle.host_names.specs.Examples.{a_b, w_a_b, star_a_b};
ghost use Rattle.cert_graph.specs.Graph.{IsValidPath};
ghost use Rattle.cert_graph.specs.Entries.{IsAt};
ghost use Rattle.cert_model.specs.Fields.{CivilTime};
ghost use Rattle.cert_judge.specs.Classed.{AreClassed};
ghost use Rattle.cert_judge.specs.Items.{rules_at};
ghost use Rattle.cert_judge.specs.ItemGraph.{graph_of_items};
ghost use Rattle.cert_judge.specs.Revoking.{Item};
ghost use Rattle.cert_judge.specs.Vouching.{processing_too};
ghost use Rattle.cert_judge.specs.Judging.{IsUsable};
ghost use Rattle.cert_judge.specs.Examples.{in_june};
ghost use Rattle.cert_model.specs.Extended.{name_constraints};
ghost use Rattle.cert_purpose.specs.Purposes.{extended_key_usage};
ghost use Rattle.cert_purpose.specs.Examples.{for_servers};
ghost use Rattle.cert_purpose.specs.Restricting.{restricted_by, PermitsThose};
ghost use Rattle.cert_serving.specs.Demanding.{Demanded, Meets, PermitsOf, IsProcessedFor, ProcessesFor, IsServingPath};
ghost use Rattle.cert_serving.specs.Refusing.{are_permitted, are_processed};
ghost use Rattle.cert_serving.specs.GeneralNames.{general_names_octets};
ghost use Rattle.cert_serving.specs.Serving.{subject_alt_name, Serves};
ghost use Rattle.cert_serving.specs.Examples.{alternative, dns, ip, naming, four, four_written, four_in_sixteen, star_value, four_value, of_purpose, of_host, critical};

use crate::permits::Permits;
use cert_judge::Vouch;

/// Of hosts: a star stands for one label, never for none; an address is served by its own octets
/// alone, never by a name or by an address of another length; no extension and two serve none.
pub fn examples_of_hosts()
    ensures star_octets { general_names_octets (dns star_a_b ∷ []) ≡ star_value }
    ensures address_octets { general_names_octets (ip four ∷ []) ≡ four_value }
    ensures star { Serves (name w_a_b) (naming (dns star_a_b)) }
    ensures never_none { ¬ Serves (name a_b) (naming (dns star_a_b)) }
    ensures own { Serves (address four) (naming (ip four)) }
    ensures written { ¬ Serves (address four) (naming (dns four_written)) }
    ensures within { ¬ Serves (address four) (naming (ip four_in_sixteen)) }
    ensures address_of_name { ¬ Serves (name four_written) (naming (ip four)) }
    ensures none { (host : Asked) → ¬ Serves host [] }
    ensures two { (host : Asked) → ¬ Serves host (alternative star_value ∷ alternative star_value ∷ []) }
{}

/// Of what is processed: a critical extKeyUsage is usable if a purpose is demanded, and not
/// if a host alone is; a critical subjectAltName is usable if a host is demanded, in the
/// target and not in an issuer, and not if a purpose alone is.
pub fn examples_of_processing()
    ensures purpose { IsUsable (IsProcessedFor of_purpose (2 ∷ [])) in_june (critical extended_key_usage for_servers) }
    ensures no_purpose { ¬ IsUsable (IsProcessedFor of_host (1 ∷ [])) in_june (critical extended_key_usage for_servers) }
    ensures target { IsUsable (IsProcessedFor of_host (1 ∷ [])) in_june (critical subject_alt_name star_value) }
    ensures issuer { ¬ IsUsable (IsProcessedFor of_host (2 ∷ [])) in_june (critical subject_alt_name star_value) }
    ensures no_host { ¬ IsUsable (IsProcessedFor of_purpose (1 ∷ [])) in_june (critical subject_alt_name star_value) }
    ensures another { ¬ IsUsable (IsProcessedFor of_purpose (1 ∷ [])) in_june (critical name_constraints star_value) }
{}

/// What `Permits::new` makes permits, of the certificates among the items, those that meet the
/// demands, and each list.
pub fn permits_those(_permits: &Permits<'_>)
    ensures { (d : Demanded) (octets : List (List ℕ)) (items : List Item) → PermitsOf d octets (are_permitted _permits.now) → AreClassed octets items
        → PermitsThose (are_permitted _permits.now) (λ x c. Meets d x.octets c.extensions) items }
{}

/// With what `Permits::new` makes, the valid paths of the restricted relation from the target are
/// those of the whole one all of whose certificates allow the purpose, from a target that serves
/// the host. Both process what the demands look at.
pub fn serving_paths_by<V: Vouch>(_vouch: &V, _permits: &Permits<'_>)
    ensures { (moment : CivilTime) (demand : Bool) (d : Demanded) (octets : List (List ℕ)) (items anchors : List Item) (target : ℕ) (ps : List ℕ) (a : ℕ)
        → PermitsOf d octets (are_permitted _permits.now) → ProcessesFor d (are_processed _permits.now) → AreClassed octets items → IsAt items target (λ x. x.octets ≡ d.target)
        → IsValidPath (graph_of_items (rules_at moment demand (restricted_by (are_permitted _permits.now) (are_processed _permits.now) (V.vouches_for _vouch.now))) items anchors) target ps a
        ↔ IsServingPath (rules_at moment demand (processing_too (IsProcessedFor d) (V.vouches_for _vouch.now))) d items anchors target ps a }
{}
