//! Walks, call by call.

pub(crate) mod certificate;
pub(crate) mod list;
mod list_methods;
mod methods;
mod record;
