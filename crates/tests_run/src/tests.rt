//! A module for each crate, and the devices.

mod devices;
mod engine;
mod framing;
mod runs;
