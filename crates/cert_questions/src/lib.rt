//! The questions that a checker of signatures has to answer before a path is judged: which keys may
//! have signed which items.
#![tactic(auto)]

mod asking;
mod firsts;
pub mod laws;
mod names;
mod question;
mod text;

pub use crate::asking::questions;
pub use crate::question::{KeyHolder, Question};
pub use crate::text::text_of;
