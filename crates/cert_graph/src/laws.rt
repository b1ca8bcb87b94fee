//! Laws of answers and paths, proved for all nodes.

ghost use Rattle.cert_graph.specs.Examples.{ExampleOfAnInventory};
ghost use Rattle.cert_graph.specs.LawsOfInventories.{LawAdequateInventoryIsTrue, LawAgreeingInventories, LawOneTrueInventory, LawInventoryAnswers};
ghost use Rattle.cert_graph.specs.LawsOfNodes.{LawAdequateIsTrue, LawOneTrueAnswer, LawFirstNamesNoneTwice, LawCarriedPaths, LawFurtherNodes, LawReorderedNodes, LawAgreeingNodes};

/// An adequate answer is true.
pub fn law_adequate_is_true()
    ensures { LawAdequateIsTrue }
{}

/// Two true answers on a target agree: they name one path to one anchor, or both say that there is
/// none, or both that the target is no certificate.
pub fn law_one_true_answer()
    ensures { LawOneTrueAnswer }
{}

/// The first valid path names no position twice.
pub fn law_first_names_none_twice()
    ensures { LawFirstNamesNoneTwice }
{}

/// If each position may do elsewhere all that it may here, every path is one there too: existence
/// is kept, and the least length doesn't grow.
pub fn law_carried_paths()
    ensures { LawCarriedPaths }
{}

/// A further certificate after the last item never takes a path away, and never raises the least
/// length.
pub fn law_further_nodes()
    ensures { LawFurtherNodes }
{}

/// Another order of the items, the target following its item, changes neither whether a path exists
/// nor the least length.
pub fn law_reordered_nodes()
    ensures { LawReorderedNodes }
{}

/// Nodes that agree on each position have equal adequate and equal true answers.
pub fn law_agreeing_nodes()
    ensures { LawAgreeingNodes }
{}

/// An adequate inventory is true. `example_of_an_inventory` has one, over a graph.
pub fn law_adequate_inventory_is_true()
    ensures { LawAdequateInventoryIsTrue }
{}

/// Nodes that agree on each position have equal adequate inventories.
pub fn law_agreeing_inventories()
    ensures { LawAgreeingInventories }
{}

/// Two true inventories of equal nodes agree: verdict by verdict they name one path to one anchor,
/// or both say that there is none, or both that the item is no certificate.
pub fn law_one_true_inventory()
    ensures { LawOneTrueInventory }
{}

/// What a true inventory says of an item is what each true answer on that item says, so also what
/// the search for this one target finds.
pub fn law_inventory_answers()
    ensures { LawInventoryAnswers }
{}

/// An adequate inventory of four items: an issuer under the anchor, a certificate under it, one
/// under nobody, and an item that is no certificate. It is worked out by the prover, part by part.
pub fn example_of_an_inventory()
    ensures { ExampleOfAnInventory }
{}
