//! Laws of path lengths (`cert_judge`): the limits of the graph of items are those of the grammar of basicConstraints
//! (RFC 5280, 4.2.1.9). So the byte places that `path_limit` reads needn't be believed.

ghost use Rattle.std.specs.Prelude.{◌≡◌, ◌↔◌, ℕ, Bool, List, Option, Some, false, [], ◌∷◌};
ghost use Rattle.cert_graph.specs.declared.answer.Answer.{Answer};
ghost use Rattle.cert_graph.specs.declared.inventory.Inventory.{Inventory};
ghost use Rattle.cert_graph.specs.declared.reach.Reach.{Reach};
ghost use Rattle.cert_graph.specs.declared.reach.Reach.TheVariants.{No, Any};
ghost use Rattle.cert_graph.specs.Adequate.{IsAdequate, IsTrueAnswer};
ghost use Rattle.cert_graph.specs.Graph.{IsValidPath, IsFirstPath, HasNoPath};
ghost use Rattle.cert_graph.specs.Inventory.{IsAdequateInventory, IsTrueInventory};
ghost use Rattle.cert_model.specs.Fields.{CivilTime};
ghost use Rattle.cert_judge.specs.Examples.{in_june};
ghost use Rattle.cert_judge.specs.ItemGraph.{graph_of_items};
ghost use Rattle.cert_judge.specs.Items.{rules_at};
ghost use Rattle.cert_judge.specs.Revoking.{Item};
ghost use Rattle.laws_judge.specs.PathLengths.{AreLimits, HasPathLenAt, with_limits};
ghost use Rattle.laws_judge.specs.Worked.{by_hand, two_items, under_c};

use crate::vouching::FirstTwo;
use cert_judge::Vouch;

/// A position of the graph of items is fit exactly if the grammar gives its item a path length
/// constraint, or says that there is none. It says one thing alone, and the graph's own limit is
/// what that lets through.
pub fn path_lengths_by<V: Vouch>(_vouch: &V)
    ensures fit { (moment : CivilTime) (demand : Bool) (items anchors : List Item) (v : ℕ)
        → let r = rules_at moment demand (V.vouches_for _vouch.now) in (graph_of_items r items anchors).Fit v ↔ ((n : Option ℕ) × HasPathLenAt r items v n) }
    ensures one { (moment : CivilTime) (demand : Bool) (items : List Item) (v : ℕ) (n m : Option ℕ)
        → let r = rules_at moment demand (V.vouches_for _vouch.now) in HasPathLenAt r items v n → HasPathLenAt r items v m → n ≡ m }
    ensures own { (moment : CivilTime) (demand : Bool) (items anchors : List Item)
        → let r = rules_at moment demand (V.vouches_for _vouch.now) in AreLimits r items (graph_of_items r items anchors).limit }
{}

/// Limits that are by the grammar at each fit issuer, and any at other positions: the graph with
/// these has the valid paths, the first paths, the answers and the inventories of the graph of
/// items.
pub fn limits_by_grammar_by<V: Vouch>(_vouch: &V)
    ensures valid { (moment : CivilTime) (demand : Bool) (items anchors : List Item) (limit : ℕ → Reach)
        → let r = rules_at moment demand (V.vouches_for _vouch.now) in AreLimits r items limit → (target : ℕ) (ps : List ℕ) (a : ℕ)
        → IsValidPath (with_limits limit (graph_of_items r items anchors)) target ps a ↔ IsValidPath (graph_of_items r items anchors) target ps a }
    ensures first { (moment : CivilTime) (demand : Bool) (items anchors : List Item) (limit : ℕ → Reach)
        → let r = rules_at moment demand (V.vouches_for _vouch.now) in AreLimits r items limit → (target : ℕ) (ps : List ℕ) (a : ℕ)
        → IsFirstPath (with_limits limit (graph_of_items r items anchors)) target ps a ↔ IsFirstPath (graph_of_items r items anchors) target ps a }
    ensures none { (moment : CivilTime) (demand : Bool) (items anchors : List Item) (limit : ℕ → Reach)
        → let r = rules_at moment demand (V.vouches_for _vouch.now) in AreLimits r items limit → (target : ℕ)
        → HasNoPath (with_limits limit (graph_of_items r items anchors)) target ↔ HasNoPath (graph_of_items r items anchors) target }
    ensures answers { (moment : CivilTime) (demand : Bool) (items anchors : List Item) (limit : ℕ → Reach)
        → let r = rules_at moment demand (V.vouches_for _vouch.now) in AreLimits r items limit → (target : ℕ) (answer : Answer)
        → (IsAdequate (with_limits limit (graph_of_items r items anchors)) target answer ↔ IsAdequate (graph_of_items r items anchors) target answer)
        × (IsTrueAnswer (with_limits limit (graph_of_items r items anchors)) target answer ↔ IsTrueAnswer (graph_of_items r items anchors) target answer) }
    ensures inventories { (moment : CivilTime) (demand : Bool) (items anchors : List Item) (limit : ℕ → Reach)
        → let r = rules_at moment demand (V.vouches_for _vouch.now) in AreLimits r items limit → (inventory : Inventory)
        → (IsAdequateInventory (with_limits limit (graph_of_items r items anchors)) inventory ↔ IsAdequateInventory (graph_of_items r items anchors) inventory)
        × (IsTrueInventory (with_limits limit (graph_of_items r items anchors)) inventory ↔ IsTrueInventory (graph_of_items r items anchors) inventory) }
{}

/// A certificate of b, and b's own, which has path length 0, with limits written by hand. At the
/// first, which is no fit issuer, the limit isn't the graph's own; the path is valid all the same.
/// Limits that are all `Any` don't meet the premise.
pub fn example_of_limits_by(_vouch: &FirstTwo)
    ensures has_zero { HasPathLenAt (rules_at in_june false (⟦<FirstTwo as Vouch>⟧.vouches_for _vouch.now)) two_items 1 (Some 0) }
    ensures limits { AreLimits (rules_at in_june false (⟦<FirstTwo as Vouch>⟧.vouches_for _vouch.now)) two_items by_hand }
    ensures other { (by_hand 0 ≡ No) × ((graph_of_items (rules_at in_june false (⟦<FirstTwo as Vouch>⟧.vouches_for _vouch.now)) two_items under_c).limit 0 ≡ Any) }
    ensures path { IsValidPath (with_limits by_hand (graph_of_items (rules_at in_june false (⟦<FirstTwo as Vouch>⟧.vouches_for _vouch.now)) two_items under_c)) 0 (0 ∷ 1 ∷ []) 0 }
    ensures unlimited { AreLimits (rules_at in_june false (⟦<FirstTwo as Vouch>⟧.vouches_for _vouch.now)) two_items (λ v. Any) → ⊥ }
{}
