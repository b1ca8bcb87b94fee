//! Premises of the laws of reports (`certpath_why`): a certificate of b, b's own under c, and the anchor c.

ghost use Rattle.std.specs.Prelude.{◌≡◌, Contains, codes, false, map, [], ◌∷◌};
ghost use Rattle.cert_graph.specs.Adequate.{IsAdequate};
ghost use Rattle.cert_graph.specs.declared.answer.Answer.TheVariants.{NoPath};
ghost use Rattle.cert_judge.specs.Examples.{certificate_item, in_june, limited_above, numbered, told_apart, vouching_for_both};
ghost use Rattle.cert_judge.specs.ItemGraph.{graph_of_items};
ghost use Rattle.cert_judge.specs.Items.{rules_at};
ghost use Rattle.cert_judge.specs.LawsOfItems.{rules_from};
ghost use Rattle.cert_model.specs.Class.{certificate};
ghost use Rattle.cert_model.specs.Examples.{issued_by_b};
ghost use Rattle.cert_model.specs.Octets.{name_octets};
ghost use Rattle.cert_purpose.specs.Examples.{usage};
ghost use Rattle.cert_reasons.specs.declared.links.Unlinked.{Unlinked};
ghost use Rattle.cert_serving.specs.Examples.{alternative, star_value};
ghost use Rattle.certpath_why.specs.Examples.{for_others};
ghost use Rattle.certpath_why.specs.Hosts.{AreHostsWords};
ghost use Rattle.certpath_why.specs.Laws.{AreShort, IsUncountedPath};
ghost use Rattle.certpath_why.specs.Reached.{HasSubject};
ghost use Rattle.certpath_why.specs.Uses.{AreUsesWords};
ghost use Rattle.certpath_why.specs.Why.{FailsTo, IsLinkedTo};
ghost use Rattle.laws_judge.specs.Worked.{always, under_c};
ghost use Rattle.laws_paths.specs.Worked.{no_row, two_positions, under_d};

use cert_judge::Vouch;
use laws_judge::vouching::{Anything, FirstTwo};
use std::alloc::Global;

/// The issuer is among the certificates of a path.
pub fn example_of_a_reached_certificate(_vouch: &FirstTwo)
    ensures tests { IsUncountedPath (rules_from in_june false (vouching_for_both 1 2)) told_apart under_c 0 two_positions 0 × Contains two_positions 1 }
    ensures values { IsUncountedPath (rules_at in_june false (⟦<FirstTwo as Vouch>⟧.vouches_for _vouch.now)) told_apart under_c 0 two_positions 0 × Contains two_positions 1 }
{}

/// A path length that stands in the way: no path by an adequate answer, and one without path lengths.
pub fn example_of_a_bound(alloc: Global, _vouch: &Anything)
    ensures tests { IsAdequate (graph_of_items (rules_from in_june false always) (map certificate_item limited_above) under_d) 0 (NoPath (no_row alloc))
        × IsUncountedPath (rules_from in_june false always) (map certificate_item limited_above) under_d 0 (0 ∷ 1 ∷ 2 ∷ []) 0 }
    ensures values { IsAdequate (graph_of_items (rules_at in_june false (⟦<Anything as Vouch>⟧.vouches_for _vouch.now)) (map certificate_item limited_above) under_d) 0 (NoPath (no_row alloc))
        × IsUncountedPath (rules_at in_june false (⟦<Anything as Vouch>⟧.vouches_for _vouch.now)) (map certificate_item limited_above) under_d 0 (0 ∷ 1 ∷ 2 ∷ []) 0 }
{}

/// A certificate that is linked to its issuer, so no reason is against the link.
pub fn example_of_links(_vouch: &FirstTwo)
    ensures linked { ((numbered 1 issued_by_b).class ≡ certificate issued_by_b) × IsLinkedTo (rules_at in_june false (⟦<FirstTwo as Vouch>⟧.vouches_for _vouch.now)) told_apart (numbered 1 issued_by_b) 1 }
    ensures unlinked { ((numbered 1 issued_by_b).class ≡ certificate issued_by_b) × HasSubject told_apart (name_octets issued_by_b.issuer) 1
        × ((reason : Unlinked) → FailsTo (rules_at in_june false (⟦<FirstTwo as Vouch>⟧.vouches_for _vouch.now)) told_apart (numbered 1 issued_by_b) issued_by_b reason 1 → ⊥) }
{}

/// Two extKeyUsage, and two subjectAltName: more than one.
pub fn example_of_words()
    ensures uses { AreShort (usage for_others ∷ usage for_others ∷ []) × AreUsesWords (usage for_others ∷ usage for_others ∷ []) (codes "it has more than one extKeyUsage") }
    ensures hosts { AreShort (alternative star_value ∷ alternative star_value ∷ []) × AreHostsWords (alternative star_value ∷ alternative star_value ∷ []) (codes "it has more than one subjectAltName") }
{}

/// An issuer, whose octets aren't the target's.
pub fn example_of_an_issuer()
    ensures { (numbered 2 issued_by_b).octets ≡ (1 ∷ []) → ⊥ }
{}
