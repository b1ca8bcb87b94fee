//! What is judged of the item at a position; `false` or `No` past the last.

ghost use Rattle.std.specs.Prelude.{◌≡◌, ◌↔◌, length, IsTrue, List};
ghost use Rattle.cert_graph.specs.Adequate.{at_row};
ghost use Rattle.cert_graph.specs.Nodes.{graph_of};

use crate::{Nodes, Reach};

impl Nodes {
    /// Returns whether the item at a position is a certificate; `false` past the last.
    pub fn is_certificate(&self, position: usize) -> bool
        ensures { IsTrue result ↔ (graph_of self.now).IsCertificate position }
    {
        match self.items.get(position) {
            Some(node) => node.certificate,
            None => false,
        }
    }

    /// Returns whether the item at a position may be in a path; `false` past the last.
    pub fn is_usable(&self, position: usize) -> bool
        ensures { IsTrue result ↔ (graph_of self.now).Usable position }
    {
        match self.items.get(position) {
            Some(node) => node.usable,
            None => false,
        }
    }

    /// Returns whether the item at a position may issue certificates; `false` past the last.
    pub fn is_fit(&self, position: usize) -> bool
        ensures { IsTrue result ↔ (graph_of self.now).Fit position }
    {
        match self.items.get(position) {
            Some(node) => node.fit,
            None => false,
        }
    }

    /// Returns whether the item at a position is self-issued; `false` past the last.
    pub fn is_self_issued(&self, position: usize) -> bool
        ensures { result ≡ (graph_of self.now).self_issued position }
    {
        match self.items.get(position) {
            Some(node) => node.self_issued,
            None => false,
        }
    }

    /// Returns the reach that the path length constraint of the item at a position allows; `No`
    /// past the last.
    pub fn limit(&self, position: usize) -> Reach
        ensures { result ≡ (graph_of self.now).limit position }
    {
        match self.items.get(position) {
            Some(node) => Reach::of_limit(node.limit),
            None => Reach::No,
        }
    }
}

/// Returns what a row holds at a position; `No` past its end.
pub fn reach_at(row: &[Reach], position: usize) -> Reach
    ensures { result ≡ at_row row.now position }
{
    match row.get(position) {
        Some(reach) => *reach,
        None => Reach::No,
    }
}
