//! Names of hosts: what a text asks for, and which presented names match it (RFC 9525, 6).
#![tactic(auto)]

mod host;
mod labels;
pub mod laws;
mod name;
mod octets;
mod reasons;
mod refusal;

pub use crate::host::Host;
pub use crate::name::dns_matches;
pub use crate::refusal::Refusal;
