//! Object trees of DER: what an object of at most k levels is, its tree, and the laws between them.
#![tactic(auto)]

mod access;
mod cut;
mod encode;
mod laws;
mod leaf;
mod numbers;
mod object;
mod parts;
mod read;
mod skip;
mod strings;
mod times;
mod under;

pub use crate::encode::ber_encode_object;
pub use crate::laws::{
    levels_and_trees, more_levels, one_content, one_tree, shape_of_element, shape_of_first,
    shape_of_oid, shape_of_plain, shape_of_sequence, shape_of_set, written_again,
};
pub use crate::numbers::{is_negative_integer, is_shortest_integer, number_of, u32_of};
pub use crate::object::{
    BerError, BerObject, BerObjectContent, BerResult, DerObject, DerObjectContent, MAX_OBJECT_SIZE,
    MAX_RECURSION,
};
pub use crate::parts::{end_of, first_of};
pub use crate::read::{parse_der, parse_der_recursive, parse_der_recursive_counted};
pub use crate::skip::{is_der_object, is_der_object_counted, skip_object_counted};
pub use crate::strings::{bits_of, text_of};
pub use crate::times::{Clock, generalized_of, utc_of};
pub use crate::under::{content_under, leaf_under, object_with};
