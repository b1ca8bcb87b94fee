//! Worked values that meet the premises of the laws of `cert_judge`, `cert_purpose`, `cert_questions`, `cert_reasons` and
//! `cert_serving`. And laws of path lengths: the limits of the graph of items are those of the grammar of basicConstraints.
//!
//! Each is a function that does nothing: its contract says that values meet premises, or is the law, and the prover works it out.
#![tactic(auto)]

pub mod judging;
pub mod path_lengths;
pub mod permitting;
pub mod questions;
pub mod reasons;
pub mod reasons_by;
pub mod restricting;
pub mod serving;
pub mod vouching;
