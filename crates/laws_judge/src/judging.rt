//! Premises of the laws of judging (`cert_judge`): a certificate of b, b's own under c, and the anchor c.

ghost use Rattle.std.specs.Prelude.{◌≡◌, ℕ, List, Some, false, [], ◌∷◌};
ghost use Rattle.cert_graph.specs.Adequate.{IsAdequate, IsTrueAnswer};
ghost use Rattle.cert_graph.specs.Graph.{IsValidPath};
ghost use Rattle.cert_model.specs.Class.{certificate, list, other};
ghost use Rattle.cert_model.specs.Examples.{authority_b};
ghost use Rattle.cert_model.specs.Extended.{SomeUnder, basic_constraints};
ghost use Rattle.cert_model.specs.Fields.{Certificate};
ghost use Rattle.cert_judge.specs.Examples.{in_june, numbered, told_apart, told_backwards, vouching_for_both};
ghost use Rattle.cert_judge.specs.Further.{any_identifier};
ghost use Rattle.cert_judge.specs.ItemGraph.{graph_of_items};
ghost use Rattle.cert_judge.specs.Items.{rules_at};
ghost use Rattle.cert_judge.specs.Judging.{HasPathLen, IsFitIssuer};
ghost use Rattle.cert_judge.specs.LawsOfItems.{rules_from, VouchesForMore};
ghost use Rattle.laws_judge.specs.Worked.{by_changes, by_row, numbered_list, numbered_other, under_c};

use crate::vouching::{Anything, FirstTwo};
use cert_judge::Vouch;
use std::alloc::Global;

/// An authority of path length 0 is a fit issuer.
pub fn example_of_a_limit()
    ensures { IsFitIssuer any_identifier in_june authority_b × SomeUnder basic_constraints (HasPathLen (Some 0)) authority_b.extensions }
{}

/// A certificate of a further item, after two with a path.
pub fn example_of_a_further_certificate()
    ensures { ((numbered 3 authority_b).class ≡ certificate authority_b)
        × IsValidPath (graph_of_items (rules_from in_june false (vouching_for_both 1 2)) told_apart under_c) 0 (0 ∷ 1 ∷ []) 0 }
{}

/// Two items that are neither certificates nor lists; and among anchors one of these and a list.
pub fn example_of_others()
    ensures bundle { ((numbered_other 3).class ≡ other) × ((numbered_other 4).class ≡ other) }
    ensures anchors { ((c : Certificate) → (numbered_other 3).class ≡ certificate c → ⊥) × ((c : Certificate) → (numbered_list 4).class ≡ certificate c → ⊥) }
{}

/// An adequate answer: the path of the certificate after its issuer's.
pub fn example_of_an_adequate_answer(alloc: Global)
    ensures { IsAdequate (graph_of_items (rules_from in_june false (vouching_for_both 1 2)) told_backwards under_c) 1 (by_row alloc) }
{}

/// Two true answers, whose tables differ.
pub fn example_of_true_answers(alloc: Global)
    ensures { IsTrueAnswer (graph_of_items (rules_from in_june false (vouching_for_both 1 2)) told_backwards under_c) 1 (by_row alloc)
        × IsTrueAnswer (graph_of_items (rules_from in_june false (vouching_for_both 1 2)) told_backwards under_c) 1 (by_changes alloc) }
{}

/// A value that processes no extension of an item.
pub fn example_of_nobody_else(_vouch: &FirstTwo)
    ensures { (identifier : List ℕ) → (⟦<FirstTwo as Vouch>⟧.vouches_for _vouch.now).Processes (1 ∷ []) identifier → ⊥ }
{}

/// An adequate answer by what a value vouches for, and two true ones.
pub fn example_of_answers_by(alloc: Global, _vouch: &FirstTwo)
    ensures adequate { IsAdequate (graph_of_items (rules_at in_june false (⟦<FirstTwo as Vouch>⟧.vouches_for _vouch.now)) told_backwards under_c) 1 (by_row alloc) }
    ensures holds { IsTrueAnswer (graph_of_items (rules_at in_june false (⟦<FirstTwo as Vouch>⟧.vouches_for _vouch.now)) told_backwards under_c) 1 (by_row alloc)
        × IsTrueAnswer (graph_of_items (rules_at in_june false (⟦<FirstTwo as Vouch>⟧.vouches_for _vouch.now)) told_backwards under_c) 1 (by_changes alloc) }
{}

/// A value that vouches for two items, by which there is a path, and one that vouches for everything.
pub fn example_of_more_by(_vouch: &FirstTwo, _more: &Anything)
    ensures more { VouchesForMore (rules_at in_june false (⟦<FirstTwo as Vouch>⟧.vouches_for _vouch.now)) (rules_at in_june false (⟦<Anything as Vouch>⟧.vouches_for _more.now)) told_apart }
    ensures path { IsValidPath (graph_of_items (rules_at in_june false (⟦<FirstTwo as Vouch>⟧.vouches_for _vouch.now)) told_apart under_c) 0 (0 ∷ 1 ∷ []) 0 }
{}
