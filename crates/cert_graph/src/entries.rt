//! An item as the builder of a graph enters it.

use crate::Node;

/// One item as the builder of a graph enters it, with the groups by their numbers from 0.
#[derive(Drop)]
pub struct Entry {
    pub node: Node,

    /// The groups that it is in, any number of them: those of its own subject and key, and those
    /// among them that have its key identifier; none if it is no certificate.
    pub groups: Vec<usize>,

    /// The groups that it is linked to: those whose name is its issuer and whose key vouches for
    /// it.
    pub links: Vec<usize>,
}
