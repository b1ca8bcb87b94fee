//! The certificates and revocation lists that a file holds, and what is left out of it, row by row:
//! PEM (RFC 7468), DER items one after another, and SignedData (RFC 5652, 5.1).
#![tactic(auto)]

mod blocks;
mod files;
mod front;
pub mod laws;
mod members;
mod odd;
mod parts;
mod report;
mod rows;
mod sequences;
mod shape;
mod signed;
mod starts;

pub use crate::files::items_of;
pub use crate::front::{Fault, Front, front_of};
pub use crate::report::Report;
pub use crate::rows::{Member, Place, Reason, Row, Spot};
pub use crate::shape::{Kind, kind_of};
