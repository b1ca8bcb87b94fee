//! The containers of ASN.1: sequences and sets that keep their content, sequences and sets of
//! values, and the iterator over the values of a content.
#![tactic(auto)]

mod encoding;
mod iterator;
mod laws;
mod pair;
mod parser;
mod sequence;
mod sequence_of;
mod set;
mod set_of;

pub use crate::iterator::SequenceIterator;
pub use crate::laws::{ascending_order, ber_calls_to_the_end, calls_to_the_end, equal_sets};
pub use crate::pair::Pair;
pub use crate::parser::{BerParser, DerParser};
pub use crate::sequence::Sequence;
pub use crate::sequence_of::SequenceOf;
pub use crate::set::Set;
pub use crate::set_of::SetOf;
