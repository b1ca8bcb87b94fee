//! What the runs share: inputs read to their end (bundle, anchors, vouchers, texts), what is
//! demanded of paths, the line of the check, and a text written at once.
//!
//! No crate below this one searches.
#![tactic(auto)]

mod check_line;
mod demand;
mod inputs;
pub mod laws;
mod reading;
mod settings;
mod writing;

pub use crate::check_line::push_check;
pub use crate::demand::{AskedHost, AskedPurpose, Demand, permits_of, push_demand, push_purpose};
pub use crate::inputs::{Inputs, read_inputs};
pub use crate::reading::{InputError, MAX_READS, READ_SIZE, read_items, read_pairs, read_text};
pub use crate::settings::{AllSettings, Input, RunError};
pub use crate::writing::write_text;
