//! Why a certificate is not usable, may not issue, or is not linked to an issuer, and why a revocation
//! list is not used (RFC 5280, 6.1 and 6.3).
//!
//! Each reason is a clause of a definition of `cert_judge` that fails. Each call returns exactly the
//! reasons that apply, in one order: that of the enum, then of the positions. So a list of reasons is
//! empty exactly if the definition holds. For whoever reports a purpose or a host that isn't met,
//! the values of extKeyUsage and subjectAltName are read.
#![tactic(auto)]

mod certificates;
mod in_force;
mod issuers;
pub mod laws;
pub mod laws_by;
mod linking;
mod links;
mod listed;
mod lists;
mod repeats;
mod rows;
mod values;

pub use crate::certificates::{Unusable, has_reason, why_unusable};
pub use crate::in_force::ListsInForce;
pub use crate::issuers::{NoIssuer, has_issuer_reason, why_no_issuer};
pub use crate::linking::Linking;
pub use crate::links::{Unlinked, why_unlinked, why_unlinked_to_anchor};
pub use crate::lists::{Unused, has_list_reason, why_list_unused, why_list_unused_by_any};
pub use crate::values::{Purpose, names_of, purposes_of};
