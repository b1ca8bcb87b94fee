//! Object trees read by the rules of BER: what a BER object of at most k levels is, its tree, and
//! the reader.
#![tactic(auto)]

mod laws;
mod leaf;
mod read;
mod times;

pub use crate::laws::{more_ber_levels, one_ber_tree, strict_is_ber};
pub use crate::read::{parse_ber, parse_ber_recursive};
