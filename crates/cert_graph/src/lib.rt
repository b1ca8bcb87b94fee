//! Certificates as a graph: valid certification paths, their order, and answers that show their own
//! truth.
//!
//! `check_nodes` decides whether an answer is adequate, by inequalities alone. `check_all_nodes`
//! does so for an inventory: a verdict on each item, with one table of rows for all of them. `laws`
//! has the theorems on graphs as functions: an adequate answer is true, and what follows for paths.
#![tactic(auto)]

mod answer;
mod ascending;
mod buckets;
mod building;
mod changes;
mod check;
mod check_all;
mod endings;
mod entries;
mod filling;
mod groups;
mod inventory;
mod issuing;
mod judged;
pub mod laws;
mod least;
mod links;
pub mod lists;
mod lookup;
mod nodes;
mod one_of_all;
mod path;
mod places;
mod reach;
mod rows;
mod shown;
mod sifting;
mod stairs;
mod standing;
mod tables;
mod texts;

pub use answer::{Answer, Table};
pub use buckets::{Bucket, alike};
pub use changes::{Change, rows_of, steps_of_rows};
pub use check::check_nodes;
pub use check_all::check_all_nodes;
pub use endings::tail_of;
pub use entries::Entry;
pub use groups::link_places;
pub use inventory::{Inventory, Verdict};
pub use issuing::groups_of;
pub use judged::reach_at;
pub use least::{least_anchor, least_next};
pub use lookup::{Lookup, lookup_of};
pub use nodes::{Group, Node, Nodes};
pub use one_of_all::answer_of;
pub use places::{Part, Place};
pub use reach::Reach;
pub use sifting::between;
pub use texts::TextNumbers;
