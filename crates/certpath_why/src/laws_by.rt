//! Laws of reports for whatever vouches, in the words of the calls' contracts. Each is a function
//! that does nothing: its contract is the law. `laws::example_of_a_bound` has an example.

ghost use Rattle.std.specs.Prelude.{◌≡◌, ◌↔◌, ℕ, Bool, List, Contains};
ghost use Rattle.cert_graph.specs.Adequate.{IsAdequate};
ghost use Rattle.cert_graph.specs.Graph.{IsValidPath};
ghost use Rattle.cert_graph.specs.declared.answer.Answer.{Answer};
ghost use Rattle.cert_graph.specs.declared.answer.Answer.TheVariants.{NoPath};
ghost use Rattle.cert_graph.specs.declared.answer.Table.{Table};
ghost use Rattle.cert_judge.specs.ItemGraph.{graph_of_items};
ghost use Rattle.cert_judge.specs.Items.{rules_at};
ghost use Rattle.cert_judge.specs.Revoking.{Item};
ghost use Rattle.cert_model.specs.Class.{certificate};
ghost use Rattle.cert_model.specs.Fields.{Certificate, CivilTime};
ghost use Rattle.cert_model.specs.Octets.{name_octets};
ghost use Rattle.cert_reasons.specs.declared.links.Unlinked.{Unlinked};
ghost use Rattle.certpath_why.specs.Bounds.{reach_by, IsBound};
ghost use Rattle.certpath_why.specs.Laws.{IsUncountedPath, IsFreePath};
ghost use Rattle.certpath_why.specs.Reached.{HasSubject, IsReached};
ghost use Rattle.certpath_why.specs.Why.{FailsTo, IsLinkedTo};

use cert_judge::Vouch;

/// Lists of certificates that would be paths but for path lengths: each of their certificates is
/// reached from the target, so it has its lines. By an adequate answer that there is no path, one
/// of them has the line of its bound; and a path exists exactly if such a list has none.
pub fn bounds_by<V: Vouch>(_vouch: &V)
    ensures reached { (moment : CivilTime) (demand : Bool) (items anchors : List Item) (target : ℕ) (ps : List ℕ) (anchor v : ℕ)
        → IsUncountedPath (rules_at moment demand (V.vouches_for _vouch.now)) items anchors target ps anchor → Contains ps v → IsReached items target v }
    ensures held { (moment : CivilTime) (demand : Bool) (items anchors : List Item) (target : ℕ) (table : Table) (ps : List ℕ) (anchor : ℕ)
        → let r = rules_at moment demand (V.vouches_for _vouch.now) in IsAdequate (graph_of_items r items anchors) target (NoPath table) → IsUncountedPath r items anchors target ps anchor
        → (v : ℕ) × Contains ps v × IsBound r items target (reach_by (NoPath table)) v }
    ensures exactly { (moment : CivilTime) (demand : Bool) (items anchors : List Item) (target : ℕ) (answer : Answer)
        → let r = rules_at moment demand (V.vouches_for _vouch.now) in IsAdequate (graph_of_items r items anchors) target answer
        → ((ps : List ℕ) × (anchor : ℕ) × IsFreePath r items anchors target (reach_by answer) ps anchor) ↔ ((ps : List ℕ) × (anchor : ℕ) × IsValidPath (graph_of_items r items anchors) target ps anchor) }
{}

/// Certificates of the issuer's name: no reason is against the link to one that a certificate is
/// linked to, and to whom it isn't linked, some reason is. So each has its position in the line
/// `linked`, or else in a line of a reason.
pub fn links_by<V: Vouch>(_vouch: &V)
    ensures linked { (moment : CivilTime) (demand : Bool) (items : List Item) (x : Item) (c : Certificate) (w : ℕ) (reason : Unlinked) → x.class ≡ certificate c
        → let r = rules_at moment demand (V.vouches_for _vouch.now) in IsLinkedTo r items x w → FailsTo r items x c reason w → ⊥ }
    ensures unlinked { (moment : CivilTime) (demand : Bool) (items : List Item) (x : Item) (c : Certificate) (w : ℕ) → x.class ≡ certificate c
        → let r = rules_at moment demand (V.vouches_for _vouch.now) in HasSubject items (name_octets c.issuer) w
        → ((reason : Unlinked) → FailsTo r items x c reason w → ⊥) → (IsLinkedTo r items x w → ⊥) → ⊥ }
{}
