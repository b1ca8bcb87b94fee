//! Validators, and what they say.

pub(crate) mod certificate;
pub(crate) mod loggers;
pub(crate) mod messages;
