//! An inventory: a verdict on each item, with one table of rows for all of them.

use crate::Change;

/// What an inventory says of one item as a target.
#[derive(Debug, Drop)]
pub enum Verdict {
    /// The first valid path: the item's position, then its issuers' positions, and the position of
    /// the anchor among the anchors. All positions count from 0.
    FirstPath {
        positions: Vec<usize>,
        anchor: usize,
    },

    /// The item is a certificate, and there is no valid path from it.
    Pathless,

    /// The item is no certificate.
    NoCertificate,
}

/// A verdict on each item of a bundle as a target, with one table of rows for all of them.
#[derive(Debug, Drop)]
pub struct Inventory {
    /// The rows of the table, each as its changes from the row before it, the first from a row of
    /// `No`. The first row is for one issuer, each further one for one issuer more, the last for
    /// any number.
    pub steps: Vec<Vec<Change>>,

    /// One verdict for each item, by its position.
    pub verdicts: Vec<Verdict>,
}
