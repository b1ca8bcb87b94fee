//! All rows of a search, for every target at once.

ghost use Rattle.std.specs.Prelude.{length, map, replicate, IfOk};
ghost use Rattle.cert_graph.specs.declared.reach.Reach.TheVariants.{No};
ghost use Rattle.cert_graph.specs.Adequate.{rows_by};
ghost use Rattle.cert_graph.specs.Nodes.{graph_of};
ghost use Rattle.cert_search.specs.Inventory.{AreAllRows};

use crate::places::noted;
use crate::rising::{begin, has_risen, rise};
use cert_graph::{Change, Nodes};
use std::alloc::{AllocError, Global};

/// Returns the rows raised from none, up to the first that is its own successor, each as its
/// changes from the row before it.
pub(crate) fn all_rows(alloc: Global, nodes: &Nodes) -> Result<Vec<Vec<Change>>, AllocError>
    ensures { IfOk result (λ steps. AreAllRows (graph_of nodes.now) (rows_by (replicate (length nodes.now.items.items) No) (map (λ s. s.items) steps.items))) }
{
    let mut places = None;
    let mut search = begin(alloc, nodes)?;
    let mut steps = Vec::new(alloc);
    'round: loop {
        let changes = rise(alloc, nodes, &places, &mut search)?;
        steps.push(changes)?;
        if !has_risen(&search) {
            return Ok(steps);
        }
        places = Some(noted(alloc, nodes, places)?);
    }
}
