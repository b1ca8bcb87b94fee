//! The graph: what is judged of each item, and the groups that link items and anchors.

ghost use Rattle.std.specs.Prelude.{◌<◌, length, IsTrue, All};
ghost use Rattle.std.specs.List.Sorted.{IsStrictlyIncreasing};

/// What is judged of one item. For an item that is no certificate each field is `false` and there
/// is no limit.
#[derive(Clone, Copy, Debug)]
pub struct Node {
    /// The item is a certificate.
    pub certificate: bool,

    /// It may be in a path at the moment (RFC 5280, 6.1.3).
    pub usable: bool,

    /// It may issue certificates at the moment (RFC 5280, 6.1.4).
    pub fit: bool,

    /// Its subject is its issuer (RFC 5280, 6.1).
    pub self_issued: bool,

    /// Its path length constraint, a number of certificates (RFC 5280, 4.2.1.9).
    pub limit: Option<u32>,

    ghost usable_is_certificate: { IsTrue usable → IsTrue certificate },

    ghost fit_is_usable: { IsTrue fit → IsTrue usable },
}

/// All certificates and anchors of one name and key, and all certificates that are linked to that
/// name and key: a certificate is linked to each group whose name is its issuer and whose key
/// vouches for it. If a link requires a key identifier too, the certificates of the name and key
/// that have it are a group of their own, so a certificate may be in several groups.
///
/// A link leads from each of `issued` to each of `members` and `anchors`. The three lists are kept
/// in place of these pairs, in strictly ascending order, so n equal self-issued certificates cost n
/// places twice, and never n times n.
#[derive(Drop)]
pub struct Group {
    /// Positions of the certificates whose subject and key are the group's.
    pub members: Vec<usize>,

    /// Positions, among the anchors, of those whose name and key are the group's.
    pub anchors: Vec<usize>,

    /// Positions of the certificates that are linked to the group's name and key.
    pub issued: Vec<usize>,

    pub ghost members_ascend: { IsStrictlyIncreasing members.items },

    pub ghost anchors_ascend: { IsStrictlyIncreasing anchors.items },

    pub ghost issued_ascend: { IsStrictlyIncreasing issued.items },
}

/// The items of a bundle, by position, and the groups that link them.
#[derive(Drop)]
pub struct Nodes {
    pub items: Vec<Node>,

    pub groups: Vec<Group>,

    pub ghost members_within: { All (λ g. All (λ v. v < length items.items) g.members.items) groups.items },

    pub ghost issued_within: { All (λ g. All (λ v. v < length items.items) g.issued.items) groups.items },
}
