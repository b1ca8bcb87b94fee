//! Purposes of certificates by name and by number (RFC 5280, 4.2.1.12).
#![tactic(auto)]

pub mod laws;
mod naming;
mod reading;
mod refusal;
mod showing;

pub use crate::naming::{NamedPurpose, named, named_by};
pub use crate::reading::read_purpose;
pub use crate::refusal::PurposeRefusal;
pub use crate::showing::push_purpose;
