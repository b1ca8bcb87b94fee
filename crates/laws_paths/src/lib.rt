//! Worked values that meet the premises of the laws of `certpath_evidence`, `certpath_find`, `certpath_pem`, `certpath_run` and
//! `certpath_why`; and the laws of the reports of what prevents a path.
//!
//! Each example is a function that does nothing: its contract says that values meet premises, and the prover works it out.
#![tactic(auto)]

pub mod find;
pub mod lines;
pub mod reports;
pub mod texts;
pub mod why;
