//! Laws of single lines: names by the grammar, and what follows if a report has no line. Each is
//! a function that does nothing: its contract is the law.

ghost use Rattle.std.specs.Prelude.{◌≡◌, ◌↔◌, ◌⊎◌, ◌++◌, ℕ, Bool, nat_eq, List, [], ◌∷◌, false, None, codes};
ghost use Rattle.std.specs.Int.Digits.{AllBelowBase};
ghost use Rattle.cert_graph.specs.Adequate.{IsAdequate};
ghost use Rattle.cert_graph.specs.Graph.{IsValidPath};
ghost use Rattle.cert_graph.specs.declared.answer.Answer.{Answer};
ghost use Rattle.cert_judge.specs.Examples.{anchor_named, certificate_item, in_june, numbered, too_late, vouching_for_all, vouching_for_both};
ghost use Rattle.cert_judge.specs.ItemGraph.{graph_of_items};
ghost use Rattle.cert_judge.specs.Items.{rules_at};
ghost use Rattle.cert_judge.specs.Judging.{IsUsable, MayIssue};
ghost use Rattle.cert_judge.specs.LawsOfItems.{rules_from};
ghost use Rattle.cert_judge.specs.Revoking.{Item};
ghost use Rattle.cert_model.specs.Class.{certificate};
ghost use Rattle.cert_model.specs.Examples.{authority_b, issued_by_b, plain};
ghost use Rattle.cert_model.specs.Fields.{Certificate, CivilTime};
ghost use Rattle.cert_model.specs.Octets.{name_octets};
ghost use Rattle.cert_reasons.specs.declared.links.Unlinked.{Unlinked};
ghost use Rattle.x509_names.specs.Examples as examples;
ghost use Rattle.x509_names.specs.Fields.{Name};
ghost use Rattle.x509_names.specs.NameTexts.{known_label, name_text};
ghost use Rattle.certpath_why.specs.Bounds.{reach_by};
ghost use Rattle.certpath_why.specs.Laws.{IsUncountedPath};
ghost use Rattle.certpath_why.specs.LawsOfLines.{IsDecided, IsFreePathByLines, IsPathByLines, IsWholeName};
ghost use Rattle.certpath_why.specs.Lines.{at_words};
ghost use Rattle.certpath_why.specs.Reached.{HasSubject};
ghost use Rattle.certpath_why.specs.Texts.{shown_name, text_or_octets};
ghost use Rattle.certpath_why.specs.Why.{FailsTo, FailsToAnchor, IsLinkedTo, IsLinkedToAnchor, AreNoIssuerLines, AreUnusableLines};

use cert_judge::Vouch;

/// A name in a line, by the grammar: the text of the name that the octets are to their last one.
/// Octets that are no such name, as where a set without attributes ends it, are in hexadecimal.
pub fn shown_names()
    ensures name { (octets : List ℕ) (name : Name) → AllBelowBase 256 octets → IsWholeName octets name
        → shown_name octets ≡ text_or_octets octets (name_text known_label name) }
    ensures other { (octets : List ℕ) → AllBelowBase 256 octets → ((name : Name) → IsWholeName octets name → ⊥) → shown_name octets ≡ text_or_octets octets None }
{}

/// Names that are shown: one of one attribute, an empty one, one that ends before an empty set, and
/// NULL, which is no name.
pub fn examples_of_shown_names()
    ensures name { AllBelowBase 256 examples.name_octets × IsWholeName examples.name_octets examples.name }
    ensures name_shown { shown_name examples.name_octets ≡ codes "CN=b" }
    ensures empty { AllBelowBase 256 examples.empty_octets × IsWholeName examples.empty_octets examples.empty_name }
    ensures empty_shown { shown_name examples.empty_octets ≡ codes "(empty)" }
    ensures stopped { AllBelowBase 256 examples.stopped_octets × ((name : Name) → IsWholeName examples.stopped_octets name → ⊥) }
    ensures stopped_shown { shown_name examples.stopped_octets ≡ codes "#30023100" }
    ensures null { AllBelowBase 256 (0x05 ∷ 0x00 ∷ []) × ((name : Name) → IsWholeName (0x05 ∷ 0x00 ∷ []) name → ⊥) }
    ensures null_shown { shown_name (0x05 ∷ 0x00 ∷ []) ≡ codes "#0500" }
{}

/// A certificate has no line of why it isn't usable exactly if it is usable.
pub fn no_line_exactly_where_usable()
    ensures { (moment : CivilTime) (demand : Bool) (vouches : List ℕ → List ℕ → Bool) (v : ℕ) (x : Item) (c : Certificate) (text : List ℕ)
        → let r = rules_from moment demand vouches in AreUnusableLines r v x c text → (text ≡ []) ↔ IsUsable (r.Processes x.octets) r.moment c }
{}

/// A certificate has no line of why it may not issue others exactly if it may, or is the target.
pub fn no_line_exactly_where_it_may_issue()
    ensures { (target v : ℕ) (c : Certificate) (text : List ℕ) → AreNoIssuerLines (nat_eq v target) v c text → (text ≡ []) ↔ ((v ≡ target) ⊎ MayIssue c.extensions) }
{}

/// A certificate is linked to one of its issuer's name exactly if no reason is against it, and
/// so to an anchor of that name.
pub fn linked_exactly_where_no_reason_is()
    ensures item { (moment : CivilTime) (demand : Bool) (vouches : List ℕ → List ℕ → Bool) (items : List Item) (x : Item) (c : Certificate) (w : ℕ)
        → x.class ≡ certificate c → HasSubject items (name_octets c.issuer) w
        → let r = rules_from moment demand vouches in IsLinkedTo r items x w ↔ ((reason : Unlinked) → FailsTo r items x c reason w → ⊥) }
    ensures anchor { (moment : CivilTime) (demand : Bool) (vouches : List ℕ → List ℕ → Bool) (items anchors : List Item) (x : Item) (c : Certificate) (a : ℕ)
        → x.class ≡ certificate c → HasSubject anchors (name_octets c.issuer) a
        → let r = rules_from moment demand vouches in IsLinkedToAnchor r items anchors x a ↔ ((reason : Unlinked) → FailsToAnchor r items anchors x c reason a → ⊥) }
{}

/// Certificates are a path but for path lengths exactly if no line speaks against them. By an
/// adequate answer a path exists exactly if none of such certificates has the line of a bound.
pub fn path_exactly_where_no_line_is()
    ensures lines { (moment : CivilTime) (demand : Bool) (vouches : List ℕ → List ℕ → Bool) (items anchors : List Item) (target : ℕ) (ps : List ℕ) (anchor : ℕ)
        → let r = rules_from moment demand vouches in IsPathByLines r items anchors target ps anchor ↔ IsUncountedPath r items anchors target ps anchor }
    ensures exactly { (moment : CivilTime) (demand : Bool) (vouches : List ℕ → List ℕ → Bool) (items anchors : List Item) (target : ℕ) (answer : Answer)
        → let r = rules_from moment demand vouches in IsAdequate (graph_of_items r items anchors) target answer
        → ((ps : List ℕ) × (anchor : ℕ) × IsFreePathByLines r items anchors target (reach_by answer) ps anchor) ↔ ((ps : List ℕ) × (anchor : ℕ) × IsValidPath (graph_of_items r items anchors) target ps anchor) }
{}

/// Rules by a test of what is vouched for are decided: each question that they ask has an answer.
pub fn tests_decide()
    ensures { (moment : CivilTime) (demand : Bool) (vouches : List ℕ → List ℕ → Bool) → IsDecided (rules_from moment demand vouches) }
{}

/// Lines of a usable certificate, of one that expired, and of one that is no authority, as an
/// issuer and as the target; and a path: a certificate of b, and b's own under the anchor c.
pub fn examples_of_lines()
    ensures usable { AreUnusableLines (rules_from in_june false (vouching_for_both 1 2)) 0 (numbered 1 issued_by_b) issued_by_b [] }
    ensures expired { AreUnusableLines (rules_from too_late false (vouching_for_both 1 2)) 3 (certificate_item plain) plain (at_words 3 ++ codes " not usable: expired 2026-01-01T00:00:00\n") }
    ensures issuer { AreNoIssuerLines (nat_eq 1 0) 1 plain (at_words 1 ++ codes " no issuer: no authority\n") }
    ensures target { AreNoIssuerLines (nat_eq 0 0) 0 plain [] }
    ensures path { IsPathByLines (vouching_for_all false) (certificate_item issued_by_b ∷ certificate_item authority_b ∷ []) (certificate_item (anchor_named 0x63) ∷ []) 0 (0 ∷ 1 ∷ []) 0 }
{}

/// Lines, links and paths for whatever vouches, in the words of the calls' contracts. What it is
/// asked has to have an answer, as what a test is asked has.
pub fn lines_by<V: Vouch>(_vouch: &V)
    ensures usable { (moment : CivilTime) (demand : Bool) (v : ℕ) (x : Item) (c : Certificate) (text : List ℕ)
        → let r = rules_at moment demand (V.vouches_for _vouch.now) in IsDecided r → AreUnusableLines r v x c text → (text ≡ []) ↔ IsUsable (r.Processes x.octets) r.moment c }
    ensures item { (moment : CivilTime) (demand : Bool) (items : List Item) (x : Item) (c : Certificate) (w : ℕ)
        → let r = rules_at moment demand (V.vouches_for _vouch.now) in IsDecided r → x.class ≡ certificate c → HasSubject items (name_octets c.issuer) w
        → IsLinkedTo r items x w ↔ ((reason : Unlinked) → FailsTo r items x c reason w → ⊥) }
    ensures anchor { (moment : CivilTime) (demand : Bool) (items anchors : List Item) (x : Item) (c : Certificate) (a : ℕ)
        → let r = rules_at moment demand (V.vouches_for _vouch.now) in IsDecided r → x.class ≡ certificate c → HasSubject anchors (name_octets c.issuer) a
        → IsLinkedToAnchor r items anchors x a ↔ ((reason : Unlinked) → FailsToAnchor r items anchors x c reason a → ⊥) }
    ensures lines { (moment : CivilTime) (demand : Bool) (items anchors : List Item) (target : ℕ) (ps : List ℕ) (anchor : ℕ)
        → let r = rules_at moment demand (V.vouches_for _vouch.now) in IsDecided r → IsPathByLines r items anchors target ps anchor ↔ IsUncountedPath r items anchors target ps anchor }
    ensures exactly { (moment : CivilTime) (demand : Bool) (items anchors : List Item) (target : ℕ) (answer : Answer)
        → let r = rules_at moment demand (V.vouches_for _vouch.now) in IsDecided r → IsAdequate (graph_of_items r items anchors) target answer
        → ((ps : List ℕ) × (anchor : ℕ) × IsFreePathByLines r items anchors target (reach_by answer) ps anchor) ↔ ((ps : List ℕ) × (anchor : ℕ) × IsValidPath (graph_of_items r items anchors) target ps anchor) }
{}
