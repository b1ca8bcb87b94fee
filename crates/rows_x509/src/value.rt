//! Values of extensions by themselves, and parameters of algorithms.

pub(crate) mod algorithms;
pub(crate) mod leaves;
mod read;
pub(crate) mod types;
