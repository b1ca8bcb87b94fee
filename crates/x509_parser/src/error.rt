//! Errors of the readers.

pub use x509_core::{X509Error, X509Result};
pub use x509_objects::NidError;
