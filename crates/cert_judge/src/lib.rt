//! Judges classed items: which may be in a path and which may issue, which revocation lists are
//! used, which are linked to which (RFC 5280, 5 and 6, as far as this profile goes).
//!
//! `reading` reads items by a reader that a caller names, `judged` judges each by itself,
//! `building` makes the graph of all of them. Which key vouches for which item is asked through
//! `Vouch`, and by `building` alone.
#![tactic(auto)]

mod building;
mod constraints;
mod copies;
mod distinct;
mod items;
mod judged;
mod judging;
pub mod laws;
pub mod laws_by;
mod moments;
mod name_groups;
mod policy;
mod reading;
mod revoking;
mod serials;
mod sides;
mod standing;
mod usage;
mod vouch;
mod windows;

pub use crate::building::{nodes_by, nodes_of};
pub use crate::items::{CertificateItem, ListItem, ReadItem};
pub use crate::judged::{JudgedCertificate, JudgedItem, JudgedList, judge_item};
pub use crate::judging::{
    Judged, are_processed, authority_of, has_constraints, has_usage, is_processed, is_signer,
    issuing_of, judge_certificate,
};
pub use crate::moments::is_not_after;
pub use crate::policy::Policy;
pub use crate::reading::{ReadsItem, judged_items, read_items};
pub use crate::revoking::{are_uncritical, has_entry, is_in_force, is_used_item};
pub use crate::vouch::Vouch;
pub use crate::windows::{Windows, list_issuer_of, windows_of};
