//! Octets as text, and copies of collections.

pub use x509_ext::types::{Copies, copy_all, format_serial};
