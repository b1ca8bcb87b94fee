//! Worked values that meet the premises of the laws of `cert_framing`, `cert_graph` and `cert_search`.
//!
//! Each example is a function that does nothing: its contract says that values meet premises, and the prover works it out.
#![tactic(auto)]

pub mod framing;
pub mod graphs;
pub mod nodes;
