//! Laws of answers on octets. Each is a function that does nothing: its contract is the law.

ghost use Rattle.std.specs.Prelude.{◌≡◌, ◌↔◌, ◌<◌, ℕ, Bool, List, IsTrue, length};
ghost use Rattle.std.specs.List.{HoldsAt};
ghost use Rattle.cert_graph.specs.declared.answer.Answer.{Answer};
ghost use Rattle.cert_graph.specs.declared.inventory.Inventory.{Inventory};
ghost use Rattle.cert_graph.specs.Adequate.{IsAdequate, IsTrueAnswer};
ghost use Rattle.cert_graph.specs.Inventory.{IsAdequateInventory, IsTrueInventory};
ghost use Rattle.cert_graph.specs.LawsOfInventories.{IsVerdictOf};
ghost use Rattle.cert_judge.specs.Classed.{AreClassed};
ghost use Rattle.cert_judge.specs.Items.{rules_by};
ghost use Rattle.cert_judge.specs.Revoking.{Item};
ghost use Rattle.certpath_find.specs.Answered.{HoldsOfItems};

use cert_judge::{Policy, Vouch};

/// Octets have one class each: all readers, by either road, read equal items.
pub fn one_classing()
    ensures { (octets : List (List ℕ)) (items others : List Item) → AreClassed octets items → AreClassed octets others → items ≡ others }
{}

/// `certcheck::check` says yes to each adequate answer, so to each of `find`'s: the premises are
/// the clauses `exact` of the one and `adequate` of the other.
pub fn check_says_yes<V: Vouch>(_vouch: &V, _policy: &Policy)
    ensures { (items anchors : List (List ℕ)) (target : ℕ) (answer : Answer) (said : Bool)
        → HoldsOfItems (rules_by _policy.now.moment _policy.now.demand_lists (V.vouches_for _vouch.now)) items anchors (λ g. IsTrue said ↔ IsAdequate g target answer)
        → HoldsOfItems (rules_by _policy.now.moment _policy.now.demand_lists (V.vouches_for _vouch.now)) items anchors (λ g. IsAdequate g target answer)
        → IsTrue said }
{}

/// `certcheck::check_all` says yes to each adequate inventory, so to each of `find_all`'s: the
/// premises are the clauses `exact` of the one and `adequate` of the other.
pub fn check_all_says_yes<V: Vouch>(_vouch: &V, _policy: &Policy)
    ensures { (items anchors : List (List ℕ)) (inventory : Inventory) (said : Bool)
        → HoldsOfItems (rules_by _policy.now.moment _policy.now.demand_lists (V.vouches_for _vouch.now)) items anchors (λ g. IsTrue said ↔ IsAdequateInventory g inventory)
        → HoldsOfItems (rules_by _policy.now.moment _policy.now.demand_lists (V.vouches_for _vouch.now)) items anchors (λ g. IsAdequateInventory g inventory)
        → IsTrue said }
{}

/// The verdict of a true inventory on an item says what each true answer on it says: so `find_all`
/// says of each item what `find` says. The premises are the clauses `holds` of the two.
pub fn inventory_says_what_find_says<V: Vouch>(_vouch: &V, _policy: &Policy)
    ensures { (items anchors : List (List ℕ)) (inventory : Inventory) (target : ℕ) (answer : Answer) → target < length items
        → HoldsOfItems (rules_by _policy.now.moment _policy.now.demand_lists (V.vouches_for _vouch.now)) items anchors (λ g. IsTrueInventory g inventory)
        → HoldsOfItems (rules_by _policy.now.moment _policy.now.demand_lists (V.vouches_for _vouch.now)) items anchors (λ g. IsTrueAnswer g target answer)
        → HoldsAt (IsVerdictOf answer) inventory.verdicts.items target }
{}
