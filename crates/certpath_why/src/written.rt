//! What was worked out for the lines of links, for further certificates.

use crate::cuts::Cut;
use crate::issuing::Issued;
use crate::used::Used;
use std::alloc::Global;
use std::collections::BTreeMap;

/// What was worked out for links to certificates, or to anchors.
#[derive(Drop)]
pub(crate) struct Kept<'a> {
    /// The ends of the lines of links, by the kinds of the certificates.
    pub(crate) tails: BTreeMap<Vec<usize>, Vec<String>>,
    /// Whose key identifiers differ from one that certificates name, by that and their issuer.
    pub(crate) differing: BTreeMap<Vec<usize>, Cut>,
    /// The ends of the lines of lists that revoke, by the numbers of their rows.
    pub(crate) revoked: BTreeMap<usize, Vec<String>>,
    /// Under whose names and keys the certificates were issued, by their kinds.
    pub(crate) issued: BTreeMap<Vec<usize>, Issued<'a>>,
    /// Under whose keys a list is used, by the first certificate of the issuer's name.
    pub(crate) used: BTreeMap<usize, Used>,
}

impl<'a> Kept<'a> {
    ghost use Rattle.certpath_why.specs.Written.{KeepsNone};

    fn new(alloc: Global) -> Kept<'a>
        ensures { KeepsNone result }
    {
        Kept {
            tails: BTreeMap::new(alloc),
            differing: BTreeMap::new(alloc),
            revoked: BTreeMap::new(alloc),
            issued: BTreeMap::new(alloc),
            used: BTreeMap::new(alloc),
        }
    }
}

/// What was worked out for all links.
#[derive(Drop)]
pub(crate) struct Written<'a> {
    /// For links to certificates.
    pub(crate) items: Kept<'a>,
    /// For links to anchors.
    pub(crate) anchors: Kept<'a>,
}

impl<'a> Written<'a> {
    ghost use Rattle.certpath_why.specs.Written.{HasNone};

    /// Nothing was worked out yet.
    pub(crate) fn new(alloc: Global) -> Written<'a>
        ensures { HasNone result }
    {
        Written {
            items: Kept::new(alloc),
            anchors: Kept::new(alloc),
        }
    }
}
