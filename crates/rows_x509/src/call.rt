//! Parsers, copies, texts and maps of what was read, and calls on words.

pub(crate) mod copies;
mod flags;
pub(crate) mod grouped;
pub(crate) mod maps;
pub(crate) mod names;
pub(crate) mod parsers;
mod warned;
pub(crate) mod words;
