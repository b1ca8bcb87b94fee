//! Premises of the laws of nodes and inventories (`cert_graph`, `cert_search`).

ghost use Rattle.std.specs.Prelude.{◌≡◌, ℕ};
ghost use Rattle.cert_graph.specs.declared.nodes.Nodes.{Nodes};
ghost use Rattle.cert_graph.specs.Laws.{Agrees, Carries};
ghost use Rattle.cert_graph.specs.Nodes.{graph_of};
ghost use Rattle.laws_graph.specs.Worked.{stays};

/// All nodes agree with themselves.
pub fn example_of_agreeing_nodes()
    ensures { (nodes : Nodes) → Agrees (graph_of nodes) (graph_of nodes) }
{}

/// A map that leaves each position takes all nodes to themselves, and back.
pub fn example_of_carried_paths()
    ensures { (nodes : Nodes) (target : ℕ) → Carries stays (graph_of nodes) (graph_of nodes) × (stays (stays target) ≡ target) }
{}
