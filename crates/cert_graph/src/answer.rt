//! The answer on one target, and the table of rows that shows it.

ghost use Rattle.std.specs.Prelude.{◌≡◌};
ghost use Rattle.cert_graph.specs.Adequate.{at_row, row_of, rows_of};

use crate::changes::reach_by;
use crate::{Change, Reach, reach_at};

/// Rows of reaches, one entry per item, by position: the first for one issuer, each next one more.
#[derive(Debug, Drop)]
pub enum Table {
    /// One row.
    Row(Vec<Reach>),

    /// Rows of `width` entries, each as its changes from the one before, the first from all `No`.
    Rows {
        width: usize,
        steps: Vec<Vec<Change>>,
    },
}

/// What is answered on a target, with the table that shows it.
#[derive(Debug, Drop)]
pub enum Answer {
    /// The first valid path: the target's position, then its issuers', the last of them issued by
    /// the anchor at `anchor`. Positions count from 0. The table has one row fewer than the path.
    Path {
        positions: Vec<usize>,
        anchor: usize,
        table: Table,
    },

    /// The target is a certificate, and there is no valid path. The table has one row.
    NoPath {
        table: Table,
    },

    /// The target is no certificate.
    NoTarget,
}

impl Table {
    /// Returns what the first row holds at a position; `No` past its end, and if there is no row.
    pub fn first_reach(&self, position: usize) -> Reach
        ensures { result ≡ at_row (row_of (rows_of self.now) 0) position }
    {
        match self {
            Table::Row(row) => reach_at(row, position),
            Table::Rows { width, steps } => match steps.first() {
                Some(step) => reach_by(*width, step, position),
                None => Reach::No,
            },
        }
    }
}
