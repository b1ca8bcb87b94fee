//! Laws of reports. Each is a function that does nothing: its contract is the law.

ghost use Rattle.std.specs.Prelude.{◌≡◌, ◌↔◌, ℕ, Bool, false, List, [], ◌∷◌, ◌++◌, map, replicate, codes, Contains};
ghost use Rattle.std.specs.Fmt.{decimal};
ghost use Rattle.cert_graph.specs.Adequate.{IsAdequate, at_row};
ghost use Rattle.cert_graph.specs.Graph.{IsValidPath};
ghost use Rattle.cert_graph.specs.declared.answer.Answer.{Answer};
ghost use Rattle.cert_graph.specs.declared.answer.Answer.TheVariants.{NoPath};
ghost use Rattle.cert_graph.specs.declared.answer.Table.{Table};
ghost use Rattle.cert_graph.specs.declared.reach.Reach.TheVariants.{No, UpTo};
ghost use Rattle.cert_judge.specs.Examples.{certificate_item, limited_above, vouching_for_all};
ghost use Rattle.cert_judge.specs.ItemGraph.{graph_of_items};
ghost use Rattle.cert_judge.specs.LawsOfItems.{rules_from};
ghost use Rattle.cert_judge.specs.Revoking.{Item};
ghost use Rattle.cert_model.specs.Fields.{CivilTime, Certificate, Extension};
ghost use Rattle.cert_purpose.specs.Examples.{usage};
ghost use Rattle.cert_purpose.specs.Purposes.{purposes_octets};
ghost use Rattle.cert_serving.specs.Demanding.{Meets};
ghost use Rattle.certpath_inputs.specs.Demands.{demanded};
ghost use Rattle.certpath_inputs.specs.declared.demand.Demand.{Demand};
ghost use Rattle.certpath_why.specs.Bounds.{reach_by, IsBound};
ghost use Rattle.certpath_why.specs.Demanded.{AreDemandLines};
ghost use Rattle.certpath_why.specs.Examples.{others, for_others, of_others, of_a_b, for_server, for_w_a_b};
ghost use Rattle.certpath_why.specs.Hosts.{AreHostsWords};
ghost use Rattle.certpath_why.specs.Laws.{IsUncountedPath, IsFreePath, AreShort};
ghost use Rattle.certpath_why.specs.Lines.{at_words};
ghost use Rattle.certpath_why.specs.Listed.{shown_part, listed};
ghost use Rattle.certpath_why.specs.Reached.{IsReached};
ghost use Rattle.certpath_why.specs.Uses.{AreUsesWords};

/// Each certificate of a list that would be a path but for path lengths is reached from the target,
/// so it has its lines.
pub fn certificates_of_a_path_are_reached()
    ensures { (moment : CivilTime) (demand : Bool) (vouches : List ℕ → List ℕ → Bool) (items anchors : List Item) (target : ℕ) (ps : List ℕ) (anchor v : ℕ)
        → IsUncountedPath (rules_from moment demand vouches) items anchors target ps anchor → Contains ps v → IsReached items target v }
{}

/// By an adequate answer that there is no path, a path length prevents a path at one of the
/// certificates of each list that would be a path but for path lengths: it has the line of its
/// bound.
pub fn path_length_stands_in_the_way()
    ensures { (moment : CivilTime) (demand : Bool) (vouches : List ℕ → List ℕ → Bool) (items anchors : List Item) (target : ℕ) (table : Table) (ps : List ℕ) (anchor : ℕ)
        → let r = rules_from moment demand vouches in IsAdequate (graph_of_items r items anchors) target (NoPath table) → IsUncountedPath r items anchors target ps anchor
        → (v : ℕ) × Contains ps v × IsBound r items target (reach_by (NoPath table)) v }
{}

/// By an adequate answer a path exists exactly if some certificates would be a path but for path
/// lengths, and a path length prevents a path at none of them.
pub fn path_exactly_where_nothing_stands_in_the_way()
    ensures { (moment : CivilTime) (demand : Bool) (vouches : List ℕ → List ℕ → Bool) (items anchors : List Item) (target : ℕ) (answer : Answer)
        → let r = rules_from moment demand vouches in IsAdequate (graph_of_items r items anchors) target answer
        → ((ps : List ℕ) × (anchor : ℕ) × IsFreePath r items anchors target (reach_by answer) ps anchor) ↔ ((ps : List ℕ) × (anchor : ℕ) × IsValidPath (graph_of_items r items anchors) target ps anchor) }
{}

/// An example of a bound: an authority that allows no other below it holds another one back,
/// and not the target, which doesn't count.
pub fn example_of_a_bound()
    ensures bound { IsBound (vouching_for_all false) (map certificate_item limited_above) 0 (at_row (No ∷ No ∷ UpTo 0 ∷ [])) 2 }
    ensures target { IsBound (vouching_for_all false) (map certificate_item limited_above) 1 (at_row (No ∷ No ∷ UpTo 0 ∷ [])) 2 → ⊥ }
{}

/// A certificate has no line of what is demanded exactly if it meets it.
pub fn no_line_exactly_where_demands_are_met()
    ensures { (demand : Demand) (target : List ℕ) (v : ℕ) (x : Item) (c : Certificate)
        → AreDemandLines demand target v x c [] ↔ Meets (demanded demand target) x.octets c.extensions }
{}

/// The words of such a line are a function of the extensions.
pub fn words_of_extensions()
    ensures uses { (es : List Extension) (one other : List ℕ) → AreShort es → AreUsesWords es one → AreUsesWords es other → one ≡ other }
    ensures hosts { (es : List Extension) (one other : List ℕ) → AreShort es → AreHostsWords es one → AreHostsWords es other → one ≡ other }
{}

/// Of demands: a certificate that is for other purposes, two extKeyUsage and an empty one; a target
/// that names another host, an issuer, which isn't asked for one, and no subjectAltName; names of
/// which some are left out, a name that is cut off, and one with a comma.
pub fn examples_of_demands()
    ensures octets { purposes_octets others ≡ for_others }
    ensures purpose { (target : List ℕ) (x : Item) → AreDemandLines for_server target 1 x of_others (at_words 1 ++ codes " isn't for serverAuth: it is for clientAuth, emailProtection\n") }
    ensures two { AreUsesWords (usage for_others ∷ usage for_others ∷ []) (codes "it has more than one extKeyUsage") }
    ensures empty { AreUsesWords (usage (0x30 ∷ 0x00 ∷ []) ∷ []) (codes "its extKeyUsage isn't well written") }
    ensures host { (x : Item) → AreDemandLines for_w_a_b x.octets 0 x of_a_b (at_words 0 ++ codes " doesn't serve w.A.b: it names a.b\n") }
    ensures issuer { (target : List ℕ) (x : Item) → (x.octets ≡ target → ⊥) → AreDemandLines for_w_a_b target 1 x of_a_b [] }
    ensures no_name { AreHostsWords [] (codes "it names no host") }
    ensures many { listed (λ n. n) (replicate 22 (codes "a")) ≡ codes "a, a, a, a, a, a, a, a, a, a, a, a, a, a, a, a, a, a, a, a and " ++ (decimal 2 ++ codes " more") }
    ensures cut { shown_part (replicate 254 97) ≡ replicate 253 97 ++ codes "..." }
    ensures comma { listed (λ n. n) (codes "a, b" ∷ codes "c" ∷ []) ≡ codes "a\\2C b, c" }
{}
