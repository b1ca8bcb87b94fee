//! Certificates and what they are made of: algorithms, names, keys, times, extensions.

mod certificates;
mod extensions;
mod getters;
mod keys;
pub(crate) mod names;
mod objects;
pub(crate) mod octets;
pub(crate) mod parts;
mod times;
