//! Premises of the laws of answers and inventories over nodes (`cert_graph`): an issuer under an anchor, a certificate under it,
//! one under nobody, and an item that is no certificate.

ghost use Rattle.std.specs.Prelude.{◌<◌, length, [], ◌∷◌};
ghost use Rattle.cert_graph.specs.Adequate.{IsAdequate, IsTrueAnswer};
ghost use Rattle.cert_graph.specs.Graph.{IsFirstPath};
ghost use Rattle.cert_graph.specs.Inventory.{IsAdequateInventory, IsTrueInventory};
ghost use Rattle.cert_graph.specs.LawsOfNodes.{HasFurther};
ghost use Rattle.cert_graph.specs.Nodes.{graph_of};
ghost use Rattle.laws_graph.specs.Four.{bare_inventory, by_changes, by_row, five, four, whole_inventory};

use std::alloc::Global;

/// An adequate answer: the path of the certificate, with its table.
pub fn example_of_an_adequate_answer(alloc: Global)
    ensures { IsAdequate (graph_of (four alloc)) 1 (by_changes alloc) }
{}

/// Two true answers on the certificate, whose tables differ.
pub fn example_of_true_answers(alloc: Global)
    ensures { IsTrueAnswer (graph_of (four alloc)) 1 (by_changes alloc) × IsTrueAnswer (graph_of (four alloc)) 1 (by_row alloc) }
{}

/// The first path of the certificate: itself and its issuer, to the anchor.
pub fn example_of_a_first_path(alloc: Global)
    ensures { IsFirstPath (graph_of (four alloc)) 1 (1 ∷ 0 ∷ []) 0 }
{}

/// A second certificate under the issuer, after the last item.
pub fn example_of_further_nodes(alloc: Global)
    ensures { HasFurther (four alloc) (five alloc) }
{}

/// An adequate inventory: of four verdicts, by two rows.
pub fn example_of_an_adequate_inventory(alloc: Global)
    ensures { IsAdequateInventory (graph_of (four alloc)) (whole_inventory alloc) }
{}

/// Two true inventories, one of which has no rows.
pub fn example_of_true_inventories(alloc: Global)
    ensures { IsTrueInventory (graph_of (four alloc)) (whole_inventory alloc) × IsTrueInventory (graph_of (four alloc)) (bare_inventory alloc) }
{}

/// A true inventory, and a true answer on the second item.
pub fn example_of_an_answer_in_an_inventory(alloc: Global)
    ensures { IsTrueInventory (graph_of (four alloc)) (whole_inventory alloc) × (1 < length (four alloc).items.items)
        × IsTrueAnswer (graph_of (four alloc)) 1 (by_row alloc) }
{}
