//! Rounds until the target has a path, or the row is its own successor.

ghost use Rattle.std.specs.Prelude.{◌↔◌, IsTrue, IfOk};
ghost use Rattle.cert_graph.specs.Reach.{Takes};
ghost use Rattle.cert_graph.specs.Adequate.{at_row};
ghost use Rattle.cert_graph.specs.Nodes.{graph_of};
ghost use Rattle.cert_search.specs.Found.{IsFound};

use crate::places::noted;
use crate::rising::{begin, has_risen, rise};
use cert_graph::{Change, Nodes, Reach, reach_at};
use std::alloc::{AllocError, Global};

/// What the raising of rows comes to.
#[derive(Drop)]
pub(crate) enum Found {
    /// Rows, each as its changes against the row before it, the first against a row of `No`. The
    /// last is the first that gives the target a path.
    Opening(Vec<Vec<Change>>),

    /// A row that is its own successor, and gives the target no path.
    Standing(Vec<Reach>),
}

/// Whether a usable target is offered a path.
fn opens(usable: bool, offers: &[Reach], target: usize) -> bool
    ensures { IsTrue result ↔ (IsTrue usable × Takes (at_row offers.now target) 0) }
{
    usable && reach_at(offers, target).takes(0)
}

/// Rows raised from none, up to the first that gives the target a path or is its own successor.
///
/// One row is kept, and of each one where it differs from the one before it. The groups of each
/// item are noted only if a second round follows.
pub(crate) fn rows_to(alloc: Global, nodes: &Nodes, target: usize) -> Result<Found, AllocError>
    ensures { IfOk result (IsFound (graph_of nodes.now) target) }
{
    let usable = nodes.is_usable(target);
    let mut places = None;
    let mut search = begin(alloc, nodes)?;
    let mut steps = Vec::new(alloc);
    'round: loop {
        let changes = rise(alloc, nodes, &places, &mut search)?;
        if opens(usable, &search.offers, target) {
            steps.push(changes)?;
            return Ok(Found::Opening(steps));
        }
        if !has_risen(&search) {
            return Ok(Found::Standing(search.row));
        }
        steps.push(changes)?;
        places = Some(noted(alloc, nodes, places)?);
    }
}
