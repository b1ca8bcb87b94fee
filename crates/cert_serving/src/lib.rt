//! Which certificates serve a host, and which items of a question may be in a path for a purpose
//! and a host (RFC 9525, 6; RFC 5280, 4.2.1.6 and 4.2.1.12).
#![tactic(auto)]

mod demands;
mod item;
pub mod laws;
mod names;
mod permits;
mod serving;

pub use crate::demands::Demands;
pub use crate::item::{Answer, item_allows, item_serves};
pub use crate::names::{Choice, GeneralName, next_name};
pub use crate::permits::Permits;
pub use crate::serving::serves;
pub use cert_judge::Policy;
