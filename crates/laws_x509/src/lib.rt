//! Worked values that meet the premises of the laws of `x509_algorithms`, `x509_links`,
//! `x509_lists`, `x509_names` and `x509_time`: parts of items, times, lists without entries,
//! an algorithm, and a registry of identifiers. And laws of refusals: where the readers of items
//! refuse octets by a name, with octets that are refused so.
//!
//! Each is a function that does nothing: its contract says that values meet premises, or is the law, and the prover works it out.
#![tactic(auto)]

pub mod lists;
pub mod parts;
pub mod refusals;
pub mod refused;
pub mod texts;
