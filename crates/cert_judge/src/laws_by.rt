//! Laws of judging in the words of `find` and `check`: by what a value vouches for. Each is a
//! function that does nothing: its contract is the law. `laws` has them by tests of what is vouched
//! for, and examples that meet their premises.

ghost use Rattle.std.specs.Prelude.{◌≡◌, ◌↔◌, ◌⊎◌, ℕ, Bool, true, List, All, [], ◌∷◌, ◌++◌};
ghost use Rattle.cert_graph.specs.Graph.{IsValidPath};
ghost use Rattle.cert_graph.specs.Adequate.{IsAdequate, IsTrueAnswer};
ghost use Rattle.cert_graph.specs.Inventory.{IsAdequateInventory, IsTrueInventory};
ghost use Rattle.cert_graph.specs.LawsOfInventories.{SayTheSameOfAll};
ghost use Rattle.cert_graph.specs.LawsOfNodes.{SayTheSame};
ghost use Rattle.cert_graph.specs.declared.answer.Answer.{Answer};
ghost use Rattle.cert_graph.specs.declared.inventory.Inventory.{Inventory};
ghost use Rattle.cert_model.specs.Class.{certificate, other};
ghost use Rattle.cert_model.specs.Extended.{basic_constraints, key_usage};
ghost use Rattle.cert_model.specs.Fields.{CivilTime, Extension, Certificate};
ghost use Rattle.cert_judge.specs.ItemGraph.{graph_of_items};
ghost use Rattle.cert_judge.specs.Further.{any_identifier};
ghost use Rattle.cert_judge.specs.Judging.{IsProcessed, IsUsable};
ghost use Rattle.cert_judge.specs.Items.{rules_at};
ghost use Rattle.cert_judge.specs.LawsOfItems.{VouchesForMore, Keeps, HasPathsOf, HasPathOf, IsValidAt};
ghost use Rattle.cert_judge.specs.Revoking.{Item};

use crate::Vouch;

/// If a value processes no extension of an item, a critical one there has to be basicConstraints
/// or keyUsage (RFC 5280, 6.1.4, o).
pub fn processed_by_nobody_else<V: Vouch>(_vouch: &V)
    ensures { (item : List ℕ) → ((identifier : List ℕ) → (V.vouches_for _vouch.now).Processes item identifier → ⊥)
        → (e : Extension) → IsProcessed ((V.vouches_for _vouch.now).Processes item) e ↔ (e.critical ≡ true → (e.identifier ≡ basic_constraints) ⊎ (e.identifier ≡ key_usage)) }
{}

/// Whether a certificate is usable depends on what is processed in its further critical extensions
/// alone: it is usable exactly if it would be when the caller processes each extension, and each is
/// processed.
pub fn usable_by<V: Vouch>(_vouch: &V)
    ensures { (moment : CivilTime) (item : List ℕ) (c : Certificate) → let P = (V.vouches_for _vouch.now).Processes item in
        IsUsable P moment c ↔ (IsUsable any_identifier moment c × All (IsProcessed P) c.extensions) }
{}

/// An adequate answer is true.
pub fn adequate_is_true_by<V: Vouch>(_vouch: &V)
    ensures { (moment : CivilTime) (demand : Bool) (items anchors : List Item) (target : ℕ) (answer : Answer)
        → let g = graph_of_items (rules_at moment demand (V.vouches_for _vouch.now)) items anchors in IsAdequate g target answer → IsTrueAnswer g target answer }
{}

/// Two true answers on a target agree.
pub fn one_true_answer_by<V: Vouch>(_vouch: &V)
    ensures { (moment : CivilTime) (demand : Bool) (items anchors : List Item) (target : ℕ) (answer another : Answer)
        → let g = graph_of_items (rules_at moment demand (V.vouches_for _vouch.now)) items anchors in IsTrueAnswer g target answer → IsTrueAnswer g target another → SayTheSame answer another }
{}

/// An adequate inventory of items is true.
pub fn adequate_inventory_is_true_by<V: Vouch>(_vouch: &V)
    ensures { (moment : CivilTime) (demand : Bool) (items anchors : List Item) (inventory : Inventory)
        → let g = graph_of_items (rules_at moment demand (V.vouches_for _vouch.now)) items anchors in IsAdequateInventory g inventory → IsTrueInventory g inventory }
{}

/// Two true inventories of items agree at each position: both name one path to one anchor, or say
/// that there is none, or that the item is no certificate.
pub fn one_true_inventory_by<V: Vouch>(_vouch: &V)
    ensures { (moment : CivilTime) (demand : Bool) (items anchors : List Item) (inventory another : Inventory)
        → let g = graph_of_items (rules_at moment demand (V.vouches_for _vouch.now)) items anchors in IsTrueInventory g inventory → IsTrueInventory g another → SayTheSameOfAll inventory another }
{}

/// A value that vouches for more certificates, and for equal lists, and processes more, never loses
/// a path.
pub fn vouching_for_more_by<V: Vouch, W: Vouch>(_vouch: &V, _more: &W)
    ensures { (moment : CivilTime) (demand : Bool) (items anchors : List Item)
        → let r = rules_at moment demand (V.vouches_for _vouch.now) in let s = rules_at moment demand (W.vouches_for _more.now) in
        VouchesForMore r s items → HasPathsOf (λ v. v) r s items items anchors }
{}

/// A further certificate after the last item never loses a path.
pub fn further_certificate_by<V: Vouch>(_vouch: &V)
    ensures { (moment : CivilTime) (demand : Bool) (items anchors : List Item) (x : Item) (c : Certificate)
        → x.class ≡ certificate c → let r = rules_at moment demand (V.vouches_for _vouch.now) in HasPathsOf (λ v. v) r r items (items ++ x ∷ []) anchors }
{}

/// Items that keep each certificate, at a place of its own or another's, and keep the lists, keep
/// the paths.
pub fn other_places_by<V: Vouch>(_vouch: &V)
    ensures { (moment : CivilTime) (demand : Bool) (items others anchors : List Item) (f : ℕ → ℕ)
        → Keeps f items others → let r = rules_at moment demand (V.vouches_for _vouch.now) in HasPathsOf f r r items others anchors }
{}

/// Of a valid path each certificate is valid at the moment, ends included; nothing is said of the
/// anchor.
pub fn valid_at_the_moment_by<V: Vouch>(_vouch: &V)
    ensures { (moment : CivilTime) (demand : Bool) (items anchors : List Item) (target : ℕ) (ps : List ℕ) (a : ℕ)
        → IsValidPath (graph_of_items (rules_at moment demand (V.vouches_for _vouch.now)) items anchors) target ps a → All (IsValidAt items moment) ps }
{}

/// Reordering changes neither whether there is a path nor how many certificates it takes, the
/// target following its item.
pub fn reordered_by<V: Vouch>(_vouch: &V)
    ensures { (moment : CivilTime) (demand : Bool) (items others anchors : List Item) (f g : ℕ → ℕ) (target : ℕ)
        → Keeps f items others → Keeps g others items → g (f target) ≡ target → (n : ℕ)
        → let r = rules_at moment demand (V.vouches_for _vouch.now) in HasPathOf r items anchors target n ↔ HasPathOf r others anchors (f target) n }
{}

/// Another item in the place of one, neither of them a certificate or a list, changes no true
/// answer; nor does another item in the place of one among the anchors, neither of them a
/// certificate.
pub fn exchanged_other_by<V: Vouch>(_vouch: &V)
    ensures bundle { (moment : CivilTime) (demand : Bool) (front back anchors : List Item) (x y : Item) (target : ℕ) (answer : Answer)
        → x.class ≡ other → y.class ≡ other
        → let r = rules_at moment demand (V.vouches_for _vouch.now) in IsTrueAnswer (graph_of_items r (front ++ x ∷ back) anchors) target answer ↔ IsTrueAnswer (graph_of_items r (front ++ y ∷ back) anchors) target answer }
    ensures anchors { (moment : CivilTime) (demand : Bool) (items front back : List Item) (x y : Item) (target : ℕ) (answer : Answer)
        → ((c : Certificate) → x.class ≡ certificate c → ⊥) → ((c : Certificate) → y.class ≡ certificate c → ⊥)
        → let r = rules_at moment demand (V.vouches_for _vouch.now) in IsTrueAnswer (graph_of_items r items (front ++ x ∷ back)) target answer ↔ IsTrueAnswer (graph_of_items r items (front ++ y ∷ back)) target answer }
{}
