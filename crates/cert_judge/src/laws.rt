//! Laws of judging. Each is a function that does nothing: its contract is the law.

ghost use Rattle.std.specs.Prelude.{◌≡◌, ◌↔◌, ℕ, Bool, Option, List, All, IsTrue, Some, map, false, true, [], ◌∷◌, ◌++◌};
ghost use Rattle.cert_graph.specs.declared.reach.Reach.TheVariants.{UpTo};
ghost use Rattle.cert_graph.specs.Reach.{reach_of};
ghost use Rattle.cert_graph.specs.Graph.{IsValidPath, IsFirstPath, HasNoPath};
ghost use Rattle.cert_graph.specs.Adequate.{IsAdequate, IsTrueAnswer};
ghost use Rattle.cert_graph.specs.LawsOfNodes.{SayTheSame};
ghost use Rattle.cert_graph.specs.declared.answer.Answer.{Answer};
ghost use Rattle.cert_model.specs.Fields.{CivilTime, Certificate};
ghost use Rattle.cert_model.specs.Octets.{name_octets, key_octets, list_octets};
ghost use Rattle.cert_model.specs.Extended.{SomeUnder, basic_constraints};
ghost use Rattle.cert_model.specs.Examples.{key, new_year, plain, issued_by_b, authority_b, revoking};
ghost use Rattle.cert_judge.specs.Judging.{HasPathLen, IsUsable, IsFitIssuer};
ghost use Rattle.cert_judge.specs.Further.{any_identifier, no_identifier};
ghost use Rattle.cert_judge.specs.Limits.{path_limit};
ghost use Rattle.cert_judge.specs.Revoking.{Item, IsSatisfied};
ghost use Rattle.cert_judge.specs.LawsOfItems.{rules_from, VouchesForMore, Keeps, HasPathsOf, HasPathOf, IsValidAt};
ghost use Rattle.cert_model.specs.Class.{certificate, other};
ghost use Rattle.cert_judge.specs.ItemGraph.{graph_of_items};
ghost use Rattle.cert_judge.specs.Examples.{in_june, too_early, too_late, extended_by, extension, unconstrained, default_written, extended_key_usage, authority_with_usage, encipherment, signing, anchor_named, revoking_two, certificate_item, list_item, vouching_for_all, vouching_but_for, vouching_for, vouching_for_both, told_apart, told_backwards, exchanged, limited_above, one_rollover, one_rollover_rules, two_rollovers, two_rollover_rules, equal_issuers};

/// What a fit issuer allows is its path length constraint (RFC 5280, 4.2.1.9), whichever extensions
/// the caller processes.
pub fn limit_is_path_length()
    ensures { (moment : CivilTime) (c : Certificate) (n : Option ℕ) → IsFitIssuer any_identifier moment c → SomeUnder basic_constraints (HasPathLen n) c.extensions → path_limit c ≡ reach_of n }
{}

/// Worked cases of moments: the first and the last second of a validity.
pub fn examples_of_moments()
    ensures first { IsUsable no_identifier (new_year 2025) plain }
    ensures last { IsUsable no_identifier (new_year 2026) plain }
    ensures before { IsUsable no_identifier too_early plain → ⊥ }
    ensures behind { IsUsable no_identifier too_late plain → ⊥ }
{}

/// Worked cases of extensions: one that is judged may be critical and another not, unless the
/// caller processes it; none may be there twice, a default may not be written.
pub fn examples_of_extensions()
    ensures plain { IsUsable no_identifier in_june (extended_by (extension basic_constraints false unconstrained ∷ [])) }
    ensures critical { IsUsable no_identifier in_june (extended_by (extension basic_constraints true unconstrained ∷ [])) }
    ensures unknown { IsUsable no_identifier in_june (extended_by (extension extended_key_usage true unconstrained ∷ [])) → ⊥ }
    ensures processed { IsUsable (λ identifier. identifier ≡ extended_key_usage) in_june (extended_by (extension extended_key_usage true unconstrained ∷ [])) }
    ensures twice { IsUsable no_identifier in_june (extended_by (extension basic_constraints false unconstrained ∷ extension basic_constraints false unconstrained ∷ [])) → ⊥ }
    ensures default { IsUsable no_identifier in_june (extended_by (extension basic_constraints false default_written ∷ [])) → ⊥ }
{}

/// Worked cases of issuers: an authority of path length 0; with a key usage, exactly if it has
/// keyCertSign.
pub fn examples_of_issuers()
    ensures authority { IsFitIssuer no_identifier in_june authority_b }
    ensures limit { path_limit authority_b ≡ UpTo 0 }
    ensures path_length { SomeUnder basic_constraints (HasPathLen (Some 0)) authority_b.extensions }
    ensures signing { IsFitIssuer no_identifier in_june (authority_with_usage signing) }
    ensures encipherment { IsFitIssuer no_identifier in_june (authority_with_usage encipherment) → ⊥ }
{}

/// Worked cases of lists: one that is vouched for revokes what it names and nothing else; if lists
/// are demanded, one must be used.
pub fn examples_of_lists()
    ensures revoked { IsSatisfied (vouching_for_all false) (certificate_item plain ∷ list_item revoking ∷ []) (name_octets []) (key_octets key) (1 ∷ []) → ⊥ }
    ensures unvouched { IsSatisfied (vouching_but_for (list_octets revoking)) (certificate_item plain ∷ list_item revoking ∷ []) (name_octets []) (key_octets key) (1 ∷ []) }
    ensures none { IsSatisfied (vouching_for_all true) (certificate_item plain ∷ []) (name_octets []) (key_octets key) (1 ∷ []) → ⊥ }
    ensures another { IsSatisfied (vouching_for_all true) (certificate_item plain ∷ list_item revoking_two ∷ []) (name_octets []) (key_octets key) (1 ∷ []) }
{}

/// A worked path: a certificate of b, b of c with path length 0, and the anchor c: the target is
/// not counted.
pub fn example_of_a_path()
    ensures { IsValidPath (graph_of_items (vouching_for_all false) (certificate_item issued_by_b ∷ certificate_item authority_b ∷ []) (certificate_item (anchor_named 0x63) ∷ [])) 0 (0 ∷ 1 ∷ []) 0 }
{}

/// Worked paths over keys that changed: self-issued certificates aren't counted, others are.
pub fn examples_of_rollovers()
    ensures once { IsValidPath (graph_of_items one_rollover_rules (map certificate_item one_rollover) (certificate_item (anchor_named 0x63) ∷ [])) 0 (0 ∷ 1 ∷ 2 ∷ []) 0 }
    ensures twice { IsValidPath (graph_of_items two_rollover_rules (map certificate_item two_rollovers) (certificate_item (anchor_named 0x64) ∷ [])) 0 (0 ∷ 3 ∷ 4 ∷ 5 ∷ 6 ∷ []) 0 }
    ensures beside { (a : ℕ) → IsValidPath (graph_of_items two_rollover_rules (map certificate_item two_rollovers) (certificate_item (anchor_named 0x64) ∷ [])) 0 (0 ∷ 1 ∷ 2 ∷ 6 ∷ []) a → ⊥ }
{}

/// A worked path among equal issuers and equal anchors: the first of each.
pub fn example_of_equals()
    ensures { IsFirstPath (graph_of_items (vouching_for_all false) (map certificate_item equal_issuers) (certificate_item (anchor_named 0x63) ∷ certificate_item (anchor_named 0x63) ∷ [])) 0 (0 ∷ 1 ∷ []) 0 }
{}

/// A worked case of no path: an authority of path length 0 above another.
pub fn example_of_no_path()
    ensures { HasNoPath (graph_of_items (vouching_for_all false) (map certificate_item limited_above) (certificate_item (anchor_named 0x64) ∷ [])) 0 }
{}

/// A worked case of vouching for more: of a certificate and its issuer's, the second alone was
/// vouched for, then both are, and there is a path.
pub fn example_of_more()
    ensures premise { VouchesForMore (rules_from in_june false (vouching_for 2)) (rules_from in_june false (vouching_for_both 1 2)) told_apart }
    ensures before { (key : List ℕ) → IsTrue (vouching_for 2 key (1 ∷ [])) → ⊥ }
    ensures more { (key : List ℕ) → IsTrue (vouching_for_both 1 2 key (1 ∷ [])) }
    ensures path { IsValidPath (graph_of_items (rules_from in_june false (vouching_for_both 1 2)) told_apart (certificate_item (anchor_named 0x63) ∷ [])) 0 (0 ∷ 1 ∷ []) 0 }
{}

/// A worked case of other places: two certificates change places, and change back.
pub fn example_of_places()
    ensures there { Keeps exchanged told_apart told_backwards }
    ensures back { Keeps exchanged told_backwards told_apart }
    ensures target { exchanged (exchanged 0) ≡ 0 }
{}

/// Rules that vouch for more certificates, and for equal lists, never lose a path.
/// `example_of_more` meets the premise.
pub fn vouching_for_more()
    ensures { (moment : CivilTime) (demand : Bool) (vouches more : List ℕ → List ℕ → Bool) (items anchors : List Item)
        → VouchesForMore (rules_from moment demand vouches) (rules_from moment demand more) items → HasPathsOf (λ v. v) (rules_from moment demand vouches) (rules_from moment demand more) items items anchors }
{}

/// A further certificate after the last item never loses a path.
pub fn further_certificate()
    ensures { (moment : CivilTime) (demand : Bool) (vouches : List ℕ → List ℕ → Bool) (items anchors : List Item) (x : Item) (c : Certificate)
        → x.class ≡ certificate c → let r = rules_from moment demand vouches in HasPathsOf (λ v. v) r r items (items ++ x ∷ []) anchors }
{}

/// Items that keep each certificate, at a place of its own or another's, and keep the lists, keep
/// the paths.
pub fn other_places()
    ensures { (moment : CivilTime) (demand : Bool) (vouches : List ℕ → List ℕ → Bool) (items others anchors : List Item) (f : ℕ → ℕ)
        → Keeps f items others → let r = rules_from moment demand vouches in HasPathsOf f r r items others anchors }
{}

/// Of a valid path each certificate is valid at the moment, ends included; nothing is said of the
/// anchor.
pub fn valid_at_the_moment()
    ensures { (moment : CivilTime) (demand : Bool) (vouches : List ℕ → List ℕ → Bool) (items anchors : List Item) (target : ℕ) (ps : List ℕ) (a : ℕ)
        → IsValidPath (graph_of_items (rules_from moment demand vouches) items anchors) target ps a → All (IsValidAt items moment) ps }
{}

/// Reordering changes neither whether there is a path nor how many certificates it takes, the
/// target following its item: items go to other places and back.
pub fn reordered()
    ensures { (moment : CivilTime) (demand : Bool) (vouches : List ℕ → List ℕ → Bool) (items others anchors : List Item) (f g : ℕ → ℕ) (target : ℕ)
        → Keeps f items others → Keeps g others items → g (f target) ≡ target → (n : ℕ)
        → let r = rules_from moment demand vouches in HasPathOf r items anchors target n ↔ HasPathOf r others anchors (f target) n }
{}

/// Another item in the place of one, neither of them a certificate or a list, changes no true
/// answer; nor does another item in the place of one among the anchors, neither of them a
/// certificate.
pub fn exchanged_other()
    ensures bundle { (moment : CivilTime) (demand : Bool) (vouches : List ℕ → List ℕ → Bool) (front back anchors : List Item) (x y : Item) (target : ℕ) (answer : Answer)
        → x.class ≡ other → y.class ≡ other
        → let r = rules_from moment demand vouches in IsTrueAnswer (graph_of_items r (front ++ x ∷ back) anchors) target answer ↔ IsTrueAnswer (graph_of_items r (front ++ y ∷ back) anchors) target answer }
    ensures anchors { (moment : CivilTime) (demand : Bool) (vouches : List ℕ → List ℕ → Bool) (items front back : List Item) (x y : Item) (target : ℕ) (answer : Answer)
        → ((c : Certificate) → x.class ≡ certificate c → ⊥) → ((c : Certificate) → y.class ≡ certificate c → ⊥)
        → let r = rules_from moment demand vouches in IsTrueAnswer (graph_of_items r items (front ++ x ∷ back)) target answer ↔ IsTrueAnswer (graph_of_items r items (front ++ y ∷ back)) target answer }
{}

/// An adequate answer is true.
pub fn adequate_is_true()
    ensures { (moment : CivilTime) (demand : Bool) (vouches : List ℕ → List ℕ → Bool) (items anchors : List Item) (target : ℕ) (answer : Answer)
        → let r = rules_from moment demand vouches in IsAdequate (graph_of_items r items anchors) target answer → IsTrueAnswer (graph_of_items r items anchors) target answer }
{}

/// Two true answers on a target agree: they name one path to one anchor, or both say that there is
/// none, or both that the target is no certificate.
pub fn one_true_answer()
    ensures { (moment : CivilTime) (demand : Bool) (vouches : List ℕ → List ℕ → Bool) (items anchors : List Item) (target : ℕ) (answer another : Answer)
        → let r = rules_from moment demand vouches in IsTrueAnswer (graph_of_items r items anchors) target answer → IsTrueAnswer (graph_of_items r items anchors) target another → SayTheSame answer another }
{}
