//! Devices: what octets are read from, and what they are written to.
//!
//! [`Source`] and [`Sink`] are the two traits. Their contracts count what was done in unbounded
//! whole numbers, for proofs alone, and say which octets were moved if the device does.
//! [`ReadSource`] and [`WriteSink`] wrap std's readers and writers.
#![tactic(auto)]

mod fault;
mod sink;
mod source;
mod tally;

pub use fault::DeviceFault;
pub use sink::{Sink, WriteSink, write_octets};
pub use source::{ReadSource, Source};
pub use tally::Tally;
