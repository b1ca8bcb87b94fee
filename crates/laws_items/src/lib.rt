//! Worked values that meet the premises of the laws of items: of `cert_faults`, `cert_model`, `cert_vouchers` and
//! `purpose_names`, and of laws of the crates above that speak of classes and fields.
//!
//! Each example is a function that does nothing: its contract says that values meet premises, and the prover works it out.
//! `faults` has a law too: an item has one first fault.
#![tactic(auto)]

pub mod classes;
pub mod faults;
pub mod fields;
pub mod purposes;
pub mod voucher_files;
