//! Elements with their header and content octets, read by DER's rules with a lenient header, or by
//! BER's rules.
#![tactic(auto)]

mod any;
mod cut;
mod laws;
mod read;

pub use crate::any::Any;
pub use crate::cut::{
    Element, Elements, cut_elements, cut_elements_counted, first_element_counted,
};
pub use crate::laws::{
    cutting_by_piece, cutting_by_reader, definite_is_ber, more_octets, one_ber_element,
    one_cutting, one_definite_element, strict_is_definite,
};
pub use crate::read::MAX_RECURSION;
