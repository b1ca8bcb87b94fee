//! Values with a tag of a chosen class and number, explicit or implicit, and those that may be
//! absent.
#![tactic(auto)]

mod check;
mod explicit;
mod implicit;
mod laws;
mod optional;
mod parser;
mod value;

pub use crate::optional::{
    opt_explicit_by_ber, opt_explicit_by_der, opt_implicit_by_ber, opt_implicit_by_der,
};
pub use crate::parser::OptTaggedParser;
pub use crate::value::{
    ApplicationExplicit, ApplicationImplicit, Explicit, Implicit, OptTaggedExplicit,
    OptTaggedImplicit, PrivateExplicit, PrivateImplicit, TaggedExplicit, TaggedImplicit,
    TaggedValue,
};
