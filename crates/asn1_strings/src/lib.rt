//! The restricted character string types of ASN.1 (X.680, 41; X.690, 8.23).
#![tactic(auto)]

mod character_string;
pub mod charsets;
pub mod laws;
mod wide;
pub mod wide_forms;

pub use crate::character_string::{CharacterString, OctetCharset, TestValidCharset};
pub use crate::charsets::{
    GeneralString, GraphicString, Ia5String, NumericString, ObjectDescriptor, PrintableString,
    TeletexString, Utf8String, VideotexString, VisibleString,
};
pub use crate::wide::{CharOctets, WideForm, WideString};
pub use crate::wide_forms::{BmpString, UniversalString};
