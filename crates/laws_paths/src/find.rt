//! Premises of the laws of answers on octets (`certpath_find`, `certpath_run`): a certificate of b, b's own under c, and c's under
//! the anchor d. The path length of c's allows no authority below it.

ghost use Rattle.std.specs.Prelude.{◌↔◌, ◌<◌, IsTrue, false, length, map, true};
ghost use Rattle.cert_graph.specs.Adequate.{IsAdequate, IsTrueAnswer};
ghost use Rattle.cert_graph.specs.Inventory.{IsAdequateInventory, IsTrueInventory};
ghost use Rattle.cert_graph.specs.declared.answer.Answer.TheVariants.{NoPath};
ghost use Rattle.cert_judge.specs.Examples.{certificate_item, in_june, limited_above};
ghost use Rattle.cert_judge.specs.ItemGraph.{graph_of_items};
ghost use Rattle.cert_judge.specs.Items.{rules_at, rules_by};
ghost use Rattle.certpath_run.specs.Answered.{HoldsOfItems, IsFound};
ghost use Rattle.certpath_why.specs.Bounds.{IsHeldBack, reach_by};
ghost use Rattle.laws_paths.specs.Found.{all_found, anchor_octets, by_june, limited_octets, none_found, path_found};
ghost use Rattle.laws_paths.specs.Worked.{no_row, under_d};

use cert_judge::Vouch;
use laws_judge::vouching::Anything;
use std::alloc::Global;

/// A checker that says yes to an answer that is adequate: to no path, and to a path.
pub fn example_of_checks(alloc: Global, _vouch: &Anything)
    ensures none { HoldsOfItems (rules_by by_june.now.moment by_june.now.demand_lists (⟦<Anything as Vouch>⟧.vouches_for _vouch.now)) limited_octets anchor_octets (λ g. IsTrue true ↔ IsAdequate g 0 (none_found alloc))
        × HoldsOfItems (rules_by by_june.now.moment by_june.now.demand_lists (⟦<Anything as Vouch>⟧.vouches_for _vouch.now)) limited_octets anchor_octets (λ g. IsAdequate g 0 (none_found alloc)) }
    ensures path { HoldsOfItems (rules_by by_june.now.moment by_june.now.demand_lists (⟦<Anything as Vouch>⟧.vouches_for _vouch.now)) limited_octets anchor_octets (λ g. IsTrue true ↔ IsAdequate g 1 (path_found alloc))
        × HoldsOfItems (rules_by by_june.now.moment by_june.now.demand_lists (⟦<Anything as Vouch>⟧.vouches_for _vouch.now)) limited_octets anchor_octets (λ g. IsAdequate g 1 (path_found alloc)) }
{}

/// A checker that says yes to an adequate inventory: no path, a path of two certificates and one of one.
pub fn example_of_a_check_of_all(alloc: Global, _vouch: &Anything)
    ensures { HoldsOfItems (rules_by by_june.now.moment by_june.now.demand_lists (⟦<Anything as Vouch>⟧.vouches_for _vouch.now)) limited_octets anchor_octets (λ g. IsTrue true ↔ IsAdequateInventory g (all_found alloc))
        × HoldsOfItems (rules_by by_june.now.moment by_june.now.demand_lists (⟦<Anything as Vouch>⟧.vouches_for _vouch.now)) limited_octets anchor_octets (λ g. IsAdequateInventory g (all_found alloc)) }
{}

/// A true inventory, and true answers on two of its items.
pub fn example_of_verdicts(alloc: Global, _vouch: &Anything)
    ensures none { (0 < length limited_octets)
        × HoldsOfItems (rules_by by_june.now.moment by_june.now.demand_lists (⟦<Anything as Vouch>⟧.vouches_for _vouch.now)) limited_octets anchor_octets (λ g. IsTrueInventory g (all_found alloc))
        × HoldsOfItems (rules_by by_june.now.moment by_june.now.demand_lists (⟦<Anything as Vouch>⟧.vouches_for _vouch.now)) limited_octets anchor_octets (λ g. IsTrueAnswer g 0 (none_found alloc)) }
    ensures path { (1 < length limited_octets)
        × HoldsOfItems (rules_by by_june.now.moment by_june.now.demand_lists (⟦<Anything as Vouch>⟧.vouches_for _vouch.now)) limited_octets anchor_octets (λ g. IsTrueInventory g (all_found alloc))
        × HoldsOfItems (rules_by by_june.now.moment by_june.now.demand_lists (⟦<Anything as Vouch>⟧.vouches_for _vouch.now)) limited_octets anchor_octets (λ g. IsTrueAnswer g 1 (path_found alloc)) }
{}

/// No path is found from the first certificate, and the path length of the third holds the second back.
pub fn example_of_an_answer_found(alloc: Global, _search: &Anything)
    ensures found { IsFound (graph_of_items (rules_at in_june false (⟦<Anything as Vouch>⟧.vouches_for _search.now)) (map certificate_item limited_above) under_d) 0 (NoPath (no_row alloc)) }
    ensures held_back { IsHeldBack (rules_at in_june false (⟦<Anything as Vouch>⟧.vouches_for _search.now)) (map certificate_item limited_above) (reach_by (NoPath (no_row alloc))) 1 2 }
{}

/// An inventory of these certificates that is adequate, and true.
pub fn example_of_an_inventory_of_items(alloc: Global, _vouch: &Anything)
    ensures adequate { IsAdequateInventory (graph_of_items (rules_at in_june false (⟦<Anything as Vouch>⟧.vouches_for _vouch.now)) (map certificate_item limited_above) under_d) (all_found alloc) }
    ensures both { IsTrueInventory (graph_of_items (rules_at in_june false (⟦<Anything as Vouch>⟧.vouches_for _vouch.now)) (map certificate_item limited_above) under_d) (all_found alloc)
        × IsTrueInventory (graph_of_items (rules_at in_june false (⟦<Anything as Vouch>⟧.vouches_for _vouch.now)) (map certificate_item limited_above) under_d) (all_found alloc) }
{}
