//! Why there is no digest.

use asn1_core::OutOfMemory;
use std::alloc::AllocError;
use std::io;
use thiserror::Error;

/// Why the program has no digest.
#[derive(Debug, Drop, Error)]
pub(crate) enum Failure {
    /// The words aren't a job and a seed.
    #[error("give a job and a seed below 2^32")]
    Words,
    /// The file of shapes lacks one.
    #[error("shapes.der lacks a shape")]
    Shapes,
    /// Octets that were made aren't read.
    #[error("an input isn't read")]
    Unread,
    /// Memory was refused.
    #[error("out of memory")]
    OutOfMemory,
    /// A file, a word or standard output failed.
    #[error("a file or standard output failed")]
    Device,
}

impl From<AllocError> for Failure {
    fn from(_: AllocError) -> Failure {
        Failure::OutOfMemory
    }
}

impl From<OutOfMemory> for Failure {
    fn from(_: OutOfMemory) -> Failure {
        Failure::OutOfMemory
    }
}

impl From<io::Error> for Failure {
    fn from(_: io::Error) -> Failure {
        Failure::Device
    }
}
