//! Revocation lists and certification requests.

pub(crate) mod lists;
mod requests;
