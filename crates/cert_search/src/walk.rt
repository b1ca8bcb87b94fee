//! The walk down the rows: at each step the least position that leads on, and then the least
//! anchor.

ghost use Rattle.std.specs.Prelude.{◌≡◌, ℕ, ◌+◌, length, map, replicate, IfOk};
ghost use Rattle.cert_graph.specs.declared.reach.Reach.TheVariants.{No};
ghost use Rattle.cert_graph.specs.Adequate.{row_of, IsAdequate, rows_by};
ghost use Rattle.cert_graph.specs.Lookup.{IsLookup};
ghost use Rattle.cert_graph.specs.Nodes.{graph_of};
ghost use Rattle.cert_search.specs.Exact.{HasExactRows};
ghost use Rattle.cert_search.specs.Inventory.{IsPathBy};
ghost use Rattle.cert_search.specs.Rows.{IsRun, Opens};

use cert_graph::{Answer, Change, Lookup, Nodes, Table, Verdict, lookup_of};
use std::alloc::{AllocError, Global};

/// The walk down the rows of some changes, of which the last is the first that reaches an issuer of
/// the target. It takes the least position at each step, and then the least anchor.
pub(crate) fn walk(
    alloc: Global,
    nodes: &Nodes,
    lookup: &Lookup,
    steps: &[Vec<Change>],
    target: usize,
) -> Result<Verdict, AllocError>
    requires lookup { IsLookup nodes.now (rows_by (replicate (length nodes.now.items.items) No) (map (λ s. s.items) steps.now)) lookup.now }
    requires run { IsRun (graph_of nodes.now) target (rows_by (replicate (length nodes.now.items.items) No) (map (λ s. s.items) steps.now)) }
    requires opened { (k : ℕ) × (k + 1 ≡ length steps.now) × Opens (graph_of nodes.now) target (row_of (rows_by (replicate (length nodes.now.items.items) No) (map (λ s. s.items) steps.now)) k) }
    requires alone { (a : ℕ) → (graph_of nodes.now).AnchorEdge target a → ⊥ }
    ensures { IfOk result (IsPathBy (graph_of nodes.now) (rows_by (replicate (length nodes.now.items.items) No) (map (λ s. s.items) steps.now)) target) }
{
    let mut positions = Vec::with_capacity(alloc, steps.len() + 1)?;
    positions.push(target)?;
    let mut last = target;
    let mut count = 0;
    let mut left = steps.len();
    while left > 0 {
        left -= 1;
        let Some(next) = lookup.least_next(left, last, count) else {
            unreachable!()
        };
        positions.push(next)?;
        if !nodes.is_self_issued(next) {
            count += 1;
        }
        last = next;
    }
    let Some(anchor) = lookup.least_anchor(nodes, last) else {
        unreachable!()
    };
    Ok(Verdict::FirstPath { positions, anchor })
}

/// The first path of a target by the rows of a search for it, with these rows as its table.
pub(crate) fn first_path(
    alloc: Global,
    nodes: &Nodes,
    target: usize,
    steps: Vec<Vec<Change>>,
) -> Result<Answer, AllocError>
    requires run { IsRun (graph_of nodes.now) target (rows_by (replicate (length nodes.now.items.items) No) (map (λ s. s.items) steps.items)) }
    requires opened { (k : ℕ) × (k + 1 ≡ length steps.items) × Opens (graph_of nodes.now) target (row_of (rows_by (replicate (length nodes.now.items.items) No) (map (λ s. s.items) steps.items)) k) }
    requires alone { (a : ℕ) → (graph_of nodes.now).AnchorEdge target a → ⊥ }
    ensures adequate { IfOk result (IsAdequate (graph_of nodes.now) target) }
    ensures exact { IfOk result (HasExactRows (graph_of nodes.now)) }
{
    let lookup = lookup_of(alloc, nodes, &steps)?;
    match walk(alloc, nodes, &lookup, &steps, target)? {
        Verdict::FirstPath { positions, anchor } => Ok(Answer::Path {
            positions,
            anchor,
            table: Table::Rows {
                width: nodes.items.len(),
                steps,
            },
        }),
        Verdict::Pathless => unreachable!(),
        Verdict::NoCertificate => unreachable!(),
    }
}
