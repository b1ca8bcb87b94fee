//! Checks answers on paths: says of each item what it is, a certificate or a revocation list in its
//! one spelling or something else, and whether an answer on items is true.
//!
//! Items are read by `read_tree`. `check` says whether an answer on one item is true,
//! `check_all` whether an inventory of verdicts on all of them is, and `check_read` is `check` on items
//! that were read. It depends on no search and on none of the search's readers.
#![tactic(auto)]

mod certificate;
mod class;
mod extensions;
mod judge;
mod judge_all;
pub mod laws;
mod list;
mod names;
mod parts;
mod reading;
mod stop;
mod times;
mod windows;

pub use crate::class::read_tree;
pub use crate::judge::{check, check_read};
pub use crate::judge_all::check_all;
pub use crate::reading::TreeReader;
pub use asn1_core::OutOfMemory;
pub use cert_framing::{
    Bundle, BundleError, End, Items, any_cutting, one_bundle, one_framing, one_item, one_stream,
};
pub use cert_graph::{Answer, Change, Inventory, Reach, Table, Verdict, steps_of_rows};
pub use cert_judge::{Policy, Vouch};
pub use cert_model::ItemClass;
pub use cert_model::fields::{
    AlgField, AnyField, AttrField, BitField, CertFields, EntryFields, ExtField, KeyField,
    ListFields, NameFields,
};
pub use cert_model::laws::{never_both, one_class, one_spelling, one_spelling_of_lists};
pub use cert_vouchers::{RememberedVouchers, Vouchers};
