//! Links by position: who issued whom, by binary search in the groups' lists.

ghost use Rattle.std.specs.Prelude.{ℕ, ◌↔◌, ◌<◌, IsTrue, Contains};
ghost use Rattle.cert_graph.specs.Nodes.{HasLink, HasAnchorLink, graph_of};
ghost use Rattle.cert_graph.specs.Groups.{HasSomeAnchor, HasAnchorBelow};

use crate::ascending::has;
use crate::{Group, Nodes};

impl Group {
    /// Returns whether a certificate is linked to the group.
    pub fn has_issued(&self, certificate: usize) -> bool
        ensures { IsTrue result ↔ Contains self.now.issued.items certificate }
    {
        has(&self.issued, certificate)
    }

    pub(crate) fn has_member(&self, certificate: usize) -> bool
        ensures { IsTrue result ↔ Contains self.now.members.items certificate }
    {
        has(&self.members, certificate)
    }

    pub(crate) fn has_anchor(&self, anchor: usize) -> bool
        ensures { IsTrue result ↔ Contains self.now.anchors.items anchor }
    {
        has(&self.anchors, anchor)
    }

    fn has_link(&self, certificate: usize, issuer: usize) -> bool
        ensures { IsTrue result ↔ HasLink certificate issuer self.now }
    {
        if !self.has_issued(certificate) {
            return false;
        }
        self.has_member(issuer)
    }

    fn has_anchor_link(&self, certificate: usize, anchor: usize) -> bool
        ensures { IsTrue result ↔ HasAnchorLink certificate anchor self.now }
    {
        if !self.has_issued(certificate) {
            return false;
        }
        self.has_anchor(anchor)
    }

    #[tactic(auto, unfolding(crate::specs::Groups::HasSomeAnchor))]
    fn has_some_anchor(&self, certificate: usize) -> bool
        ensures { IsTrue result ↔ HasSomeAnchor certificate self.now }
    {
        if self.anchors.is_empty() {
            return false;
        }
        self.has_issued(certificate)
    }

    #[tactic(auto, unfolding(crate::specs::Groups::HasAnchorBelow))]
    fn has_anchor_below(&self, certificate: usize, bound: usize) -> bool
        ensures { IsTrue result ↔ HasAnchorBelow certificate bound self.now }
    {
        if !self.has_issued(certificate) {
            return false;
        }
        self.anchors.iter().any(|anchor| *anchor < bound)
    }
}

impl Nodes {
    /// Returns whether a certificate is linked to another, both by position.
    pub fn links(&self, certificate: usize, issuer: usize) -> bool
        ensures { IsTrue result ↔ (graph_of self.now).Edge certificate issuer }
    {
        self.groups
            .iter()
            .any(|group| group.has_link(certificate, issuer))
    }

    /// Returns whether a certificate is linked to an anchor, both by position.
    pub fn links_to_anchor(&self, certificate: usize, anchor: usize) -> bool
        ensures { IsTrue result ↔ (graph_of self.now).AnchorEdge certificate anchor }
    {
        self.groups
            .iter()
            .any(|group| group.has_anchor_link(certificate, anchor))
    }

    /// Returns whether a certificate is linked to some anchor.
    pub fn has_anchor(&self, certificate: usize) -> bool
        ensures { IsTrue result ↔ ((anchor : ℕ) × (graph_of self.now).AnchorEdge certificate anchor) }
    {
        self.groups
            .iter()
            .any(|group| group.has_some_anchor(certificate))
    }

    /// Returns whether a certificate is linked to some anchor below a position.
    pub fn has_anchor_below(&self, certificate: usize, bound: usize) -> bool
        ensures { IsTrue result ↔ ((anchor : ℕ) × (anchor < bound) × (graph_of self.now).AnchorEdge certificate anchor) }
    {
        self.groups
            .iter()
            .any(|group| group.has_anchor_below(certificate, bound))
    }
}
