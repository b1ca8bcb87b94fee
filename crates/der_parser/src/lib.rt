//! Objects of DER read by their type, and readers built from readers.
#![tactic(auto)]

mod combine;
mod content;
mod element;
mod header;
mod items;
mod laws;
mod typed;

pub use crate::combine::{
    parse_der_implicit, parse_der_sequence_defined_g, parse_der_set_defined_g,
    parse_der_tagged_explicit_g, parse_der_tagged_implicit, parse_der_tagged_implicit_g,
};
pub use crate::content::parse_der_content;
pub use crate::header::{ber_read_element_header, der_read_element_header};
pub use crate::items::parse_der_sequence_of_v;
pub use crate::laws::{one_object, strict_object};
pub use crate::typed::{
    parse_ber_bool, parse_der_bitstring, parse_der_bmpstring, parse_der_bool, parse_der_enum,
    parse_der_generalizedtime, parse_der_ia5string, parse_der_integer, parse_der_null,
    parse_der_octetstring, parse_der_oid, parse_der_printablestring, parse_der_sequence,
    parse_der_set, parse_der_t61string, parse_der_u32, parse_der_universalstring,
    parse_der_utctime, parse_der_utf8string,
};
pub use ber_tree::{more_ber_levels, one_ber_tree, parse_ber, parse_ber_recursive, strict_is_ber};
pub use der_tree::{
    BerError, BerObject, BerObjectContent, BerResult, Clock, DerObject, DerObjectContent,
    MAX_OBJECT_SIZE, MAX_RECURSION, ber_encode_object, bits_of, content_under, end_of, first_of,
    generalized_of, is_negative_integer, is_shortest_integer, leaf_under, levels_and_trees,
    more_levels, number_of, object_with, one_content, one_tree, parse_der, parse_der_recursive,
    parse_der_recursive_counted, shape_of_element, shape_of_first, shape_of_oid, shape_of_plain,
    shape_of_sequence, shape_of_set, text_of, u32_of, utc_of, written_again,
};
