//! The text of an inventory: evidence that one party writes and another checks.
#![tactic(auto)]

pub mod laws;
mod lines;
mod numbers;
mod reading;
mod words;
mod writing;

pub use crate::reading::{EvidenceError, read_evidence};
pub use crate::writing::write_evidence;
