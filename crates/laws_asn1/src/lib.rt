//! Worked values that meet the premises of the laws of `asn1_any`, `asn1_core`, `asn1_lists`, `asn1_oid`, `asn1_strings`,
//! `asn1_tagged`, `asn1_times` and `asn1_values`.
//!
//! Each example is a function that does nothing: its contract says that values meet premises, and the prover works it out.
#![tactic(auto)]

pub mod elements;
pub mod headers;
pub mod identifiers;
pub mod lists;
pub mod optional;
pub mod strings;
pub mod values;
