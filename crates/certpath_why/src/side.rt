//! The certificates of one issuer's name, among the items or among the anchors.

use crate::holders::Holders;
use crate::named::Issuers;
use cert_judge::ReadItem;

/// The items or the anchors, and of them the certificates of a name.
#[derive(Clone, Copy)]
pub(crate) struct Side<'q, 'a> {
    pub(crate) others: &'q [ReadItem<'a>],
    /// Whose keys vouch for which items, of all names.
    pub(crate) holders: &'q Holders<'a>,
    /// For each number of octets the first for which the keys of the same of these vouch.
    pub(crate) firsts: &'q [usize],
    pub(crate) name: &'a [u8],
    pub(crate) named: &'q Issuers<'a>,
    /// The position of one of the name, under which others keep what they work out for the name.
    pub(crate) first: usize,
}
