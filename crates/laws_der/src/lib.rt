//! Worked trees that meet the premises of the laws of `der_tree`, `ber_tree` and `der_parser`.
//!
//! Each example is a function that does nothing: its contract says that values meet premises, and the prover works it out.
#![tactic(auto)]

pub mod objects;
pub mod readings;
pub mod shapes;
