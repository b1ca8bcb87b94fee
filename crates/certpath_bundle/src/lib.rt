//! Joins the certificates and revocation lists of files into one bundle: what is written to standard
//! output, and what is said on standard error of all that is left out.
#![tactic(auto)]

mod bundling;
mod counts;
mod file;
mod found;
mod lines;
mod names;
mod summary;
mod words;

pub use crate::bundling::{BundleError, Said, bundle};
pub use crate::file::{File, read_file};
