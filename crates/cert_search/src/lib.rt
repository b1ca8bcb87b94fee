//! The search for the first valid certification path over a graph of certificates.
//!
//! `find_nodes` raises rows of reaches, each from the one before it, until a row gives the target a
//! path or no entry changes. The first round goes over all groups, and each further one goes on
//! from the entries that changed in the last. If a row gives a path, a walk down the rows takes the
//! least position at each step. The rows are the answer's table, by which `cert_graph::check_nodes`
//! sees that the answer is true. One row is kept, and of each one the entries in which it differs
//! from the one before it.
//!
//! `find_all_nodes` does so for every item at once: it raises the rows until no entry changes, and
//! takes each item's path from the first row that reaches an issuer of it.
#![tactic(auto)]

mod all_rows;
mod find;
mod find_all;
pub mod laws;
mod offers;
mod places;
mod rising;
mod rounds;
mod verdicts;
mod walk;

pub use find::find_nodes;
pub use find_all::find_all_nodes;
