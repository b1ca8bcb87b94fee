//! Premises of the laws of single lines (`certpath_why`): a certificate of b, b's own under c, and
//! the anchor c.

ghost use Rattle.std.specs.Prelude.{◌≡◌, false, []};
ghost use Rattle.cert_graph.specs.Adequate.{IsAdequate};
ghost use Rattle.cert_judge.specs.Examples.{in_june, numbered};
ghost use Rattle.cert_judge.specs.ItemGraph.{graph_of_items};
ghost use Rattle.cert_judge.specs.Items.{rules_at};
ghost use Rattle.cert_model.specs.Class.{certificate};
ghost use Rattle.cert_model.specs.Examples.{authority_b, issued_by_b};
ghost use Rattle.cert_model.specs.Octets.{name_octets};
ghost use Rattle.certpath_why.specs.LawsOfLines.{IsDecided};
ghost use Rattle.certpath_why.specs.Reached.{HasSubject};
ghost use Rattle.certpath_why.specs.Why.{AreUnusableLines};
ghost use Rattle.laws_judge.specs.Worked.{by_row, under_c};
ghost use Rattle.laws_paths.specs.Worked.{issuer_first, issuer_last};

use cert_judge::Vouch;
use laws_judge::vouching::FirstTwo;
use std::alloc::Global;

/// A value that vouches for two items: what it is asked has an answer. By it a certificate of b has
/// no line `not usable`. Its issuer is b's own, whose issuer is the anchor: that path is an adequate
/// answer.
pub fn example_of_lines_by(alloc: Global, _vouch: &FirstTwo)
    ensures usable { IsDecided (rules_at in_june false (⟦<FirstTwo as Vouch>⟧.vouches_for _vouch.now))
        × AreUnusableLines (rules_at in_june false (⟦<FirstTwo as Vouch>⟧.vouches_for _vouch.now)) 0 (numbered 1 issued_by_b) issued_by_b [] }
    ensures item { IsDecided (rules_at in_june false (⟦<FirstTwo as Vouch>⟧.vouches_for _vouch.now))
        × ((numbered 1 issued_by_b).class ≡ certificate issued_by_b) × HasSubject issuer_last (name_octets issued_by_b.issuer) 1 }
    ensures anchor { IsDecided (rules_at in_june false (⟦<FirstTwo as Vouch>⟧.vouches_for _vouch.now))
        × ((numbered 2 authority_b).class ≡ certificate authority_b) × HasSubject under_c (name_octets authority_b.issuer) 0 }
    ensures lines { IsDecided (rules_at in_june false (⟦<FirstTwo as Vouch>⟧.vouches_for _vouch.now)) }
    ensures exactly { IsDecided (rules_at in_june false (⟦<FirstTwo as Vouch>⟧.vouches_for _vouch.now))
        × IsAdequate (graph_of_items (rules_at in_june false (⟦<FirstTwo as Vouch>⟧.vouches_for _vouch.now)) issuer_first under_c) 1 (by_row alloc) }
{}
