//! Purposes, and relations that vouch for less and process more.
#![tactic(auto)]

mod extension;
pub mod laws;
pub mod laws_by;
mod permit;
mod purpose;
mod restricted;

pub use crate::extension::{EXTENDED_KEY_USAGE, Value, allows, value_under};
pub use crate::permit::Permit;
pub use crate::purpose::is_for;
pub use crate::restricted::Restricted;
