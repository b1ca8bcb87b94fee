//! Why an item is other: the first fault of the strict grammar, by its place, what is expected and
//! what is found (RFC 5280, 4.1 and 5.1; X.690, 8, 10 and 11).
//!
//! `first_fault` reads an item as a tree of DER elements, and then field by field. An item that isn't
//! one DER object has a fault of its elements; any other item that is no certificate and no list has a
//! fault of its fields. `specs/Fault.antt` says which fault is the first.
#![tactic(auto)]

mod certificates;
mod elements;
mod extensions;
mod fault;
mod fields;
pub mod laws;
mod lists;
mod names;
mod parts;
mod places;
mod signed;
mod steps;
mod tagged;
mod times;

pub use crate::fault::{Fault, first_fault};
pub use crate::places::{Expected, Field, Part};
