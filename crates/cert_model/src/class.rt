//! What an item is: a certificate, a revocation list, or something else.

use crate::fields::{CertFields, ListFields};

/// The class of an item, with the fields that write it. Their octets are windows of the item.
///
/// `IsClassOf` of `specs/Class.antt` says which class octets have. There is exactly one, so two
/// readers that keep to it never disagree.
#[derive(Debug, PartialEq, Eq, Drop)]
pub enum ItemClass<'a> {
    /// A certificate in its one spelling (RFC 5280, 4.1).
    Certificate(CertFields<'a>),
    /// A revocation list in its one spelling (RFC 5280, 5.1).
    List(ListFields<'a>),
    /// Any other octets.
    Other,
}
