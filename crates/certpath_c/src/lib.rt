//! The calls of `include/certpath.h`: thin exports over the crates that read and judge. Each tests what the call below it
//! requires, returns a status, and writes into the caller's buffers what its contract says.
#![tactic(auto)]

mod answers;
mod asked;
mod asking;
mod checking;
mod classes;
mod classing;
mod contents;
mod demands;
mod extensions;
mod fields;
mod finding;
mod framing;
mod labels;
pub mod laws;
mod loading;
mod naming;
mod reports;
mod serving;
mod shaping;
mod status;
mod tables;
mod tbs;
mod times;
mod version;
mod wanted;
mod writing;
