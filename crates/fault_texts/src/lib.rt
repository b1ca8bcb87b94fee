//! Why items are neither certificates nor revocation lists, in words: the text of a fault, and the
//! lines of a report on items that are other.
//!
//! `specs/FaultText.antt` and `specs/FaultLines.antt` fix each octet.
#![tactic(auto)]

mod lines;
mod names;
mod text;

pub use crate::lines::{Whose, push_fault_of, push_faults};
pub use crate::text::push_fault;
