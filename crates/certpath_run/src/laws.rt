//! Laws of reports. Each is a function that does nothing: its contract is the law.

ghost use Rattle.std.specs.Prelude.{◌↔◌, ℕ, Bool, List};
ghost use Rattle.cert_graph.specs.declared.answer.Answer.TheVariants.{NoPath};
ghost use Rattle.cert_graph.specs.declared.answer.Table.{Table};
ghost use Rattle.cert_judge.specs.ItemGraph.{graph_of_items};
ghost use Rattle.cert_judge.specs.Items.{rules_at};
ghost use Rattle.cert_judge.specs.Revoking.{Item};
ghost use Rattle.cert_model.specs.Fields.{CivilTime};
ghost use Rattle.certpath_find.specs.Answered.{IsFound};
ghost use Rattle.certpath_run.specs.Reaching.{IsHeldBackByPaths};
ghost use Rattle.certpath_why.specs.Bounds.{reach_by, IsHeldBack};

use cert_judge::Vouch;

/// What `certpath why` says of path lengths is so by paths alone (RFC 5280, 6.1.4, l and m): by the
/// rows of an answer that was found, a certificate is held back from an issuer exactly if it is
/// linked to it and counts, leads to no anchor itself, and the issuer leads to one only with
/// nothing counted below it.
pub fn held_back_by_paths<V: Vouch, S: Vouch>(_vouch: &V, _search: &S)
    ensures { (moment : CivilTime) (demand : Bool) (items anchors : List Item) (target : ℕ) (table : Table) → let r = rules_at moment demand (V.vouches_for _vouch.now) in let search = rules_at moment demand (S.vouches_for _search.now) in
        IsFound (graph_of_items search items anchors) target (NoPath table) → (w v : ℕ) → IsHeldBack r items (reach_by (NoPath table)) w v ↔ IsHeldBackByPaths r search items anchors w v }
{}
