//! Readers of repeated values, copies of values that hold vectors, and octets as text.
#![tactic(auto)]

mod answers;
mod begins;
mod copies;
mod oid;
mod text;

pub use crate::answers::{
    content_of, is_of_class, optional, sequence_content, taken, told, told_front,
};
pub use crate::begins::{Begins, all, each, some};
pub use crate::copies::{Copies, copy_all, copy_some};
pub use crate::oid::first_oid;
pub use crate::text::{format_serial, text_of, write_octets};
