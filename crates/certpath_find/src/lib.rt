//! Finds the first of the shortest valid certification paths over items, with a table that shows
//! it.
//!
//! Items are read by `TypedReader`, and not as `certcheck::check` reads them, which checks the
//! result: the search and the check share no code that reads an item, and this crate uses
//! nothing of `certcheck`.
#![tactic(auto)]

mod finding;
mod finding_all;
mod key_ids;
pub mod laws;
mod reading;

pub use crate::finding::{find, find_judged};
pub use crate::finding_all::{find_all, find_all_judged};
pub use crate::reading::{TypedReader, judged_items};
pub use certpath_typed::read_typed;
