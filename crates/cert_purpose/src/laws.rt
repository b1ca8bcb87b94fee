//! Laws and examples. Each is a function that does nothing: its contract is the law.

ghost use Rattle.std.specs.Prelude.{◌≡◌, ℕ, Bool, false, List, IsTrue, [], ◌∷◌};
ghost use Rattle.cert_graph.specs.Graph.{IsValidPath};
ghost use Rattle.cert_model.specs.Fields.{CivilTime};
ghost use Rattle.cert_judge.specs.Examples.{in_june, anchor_named, certificate_item, told_apart, vouching_for_both};
ghost use Rattle.cert_judge.specs.Items.{rules_at};
ghost use Rattle.cert_judge.specs.ItemGraph.{graph_of_items};
ghost use Rattle.cert_judge.specs.LawsOfItems.{rules_from};
ghost use Rattle.cert_judge.specs.Revoking.{Item};
ghost use Rattle.cert_judge.specs.Vouching.{nothing, vouching_alone};
ghost use Rattle.cert_purpose.specs.Purposes.{purposes_octets, Allows};
ghost use Rattle.cert_purpose.specs.Restricting.{restricted_by, VouchAlike, HaveSameTrueAnswers};
ghost use Rattle.cert_purpose.specs.Examples.{server_auth, for_servers, usage, vouching_beyond};

/// Of purposes: how one is written, no extension, and two.
pub fn examples_of_purposes()
    ensures octets { purposes_octets (server_auth ∷ []) ≡ for_servers }
    ensures no_extension { Allows server_auth [] }
    ensures two { Allows server_auth (usage for_servers ∷ usage for_servers ∷ []) → ⊥ }
{}

/// Two tests that vouch alike for the certificates and lists among the items have equal true
/// answers. They process no extension. `example_of_alikes` meets the premise.
pub fn same_true_answers()
    ensures { (moment : CivilTime) (demand : Bool) (vouches others : List ℕ → List ℕ → Bool) (items : List Item)
        → VouchAlike (rules_from moment demand vouches) (rules_from moment demand others) items → HaveSameTrueAnswers (rules_from moment demand vouches) (rules_from moment demand others) items }
{}

/// Of vouching alike: two certificates, and two tests of which the second vouches for an item
/// beside them too.
pub fn example_of_alikes()
    ensures premise { VouchAlike (rules_from in_june false (vouching_for_both 1 2)) (rules_from in_june false vouching_beyond) told_apart }
    ensures before { (key : List ℕ) → IsTrue (vouching_for_both 1 2 key (9 ∷ [])) → ⊥ }
    ensures beyond { (key : List ℕ) → IsTrue (vouching_beyond key (9 ∷ [])) }
{}

/// A worked case of restricting: a path is kept if its certificates are permitted, and lost if its
/// issuer isn't.
pub fn example_of_restricting()
    ensures stays { IsValidPath (graph_of_items (rules_at in_june false (restricted_by (λ item. item ≡ 9 ∷ [] → ⊥) nothing (vouching_alone (λ key item. IsTrue (vouching_for_both 1 2 key item))))) told_apart (certificate_item (anchor_named 0x63) ∷ [])) 0 (0 ∷ 1 ∷ []) 0 }
    ensures goes { IsValidPath (graph_of_items (rules_at in_june false (restricted_by (λ item. item ≡ 2 ∷ [] → ⊥) nothing (vouching_alone (λ key item. IsTrue (vouching_for_both 1 2 key item))))) told_apart (certificate_item (anchor_named 0x63) ∷ [])) 0 (0 ∷ 1 ∷ []) 0 → ⊥ }
{}
