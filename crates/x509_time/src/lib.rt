//! Times and validities of certificates and revocation lists (RFC 5280, 4.1.2.5 and 5.1.2.5), on
//! `jiff`'s calendar. Reading is lenient.
#![tactic(auto)]

mod arithmetic;
mod laws;
mod leaves;
mod next;
mod text;
mod time;
mod validity;

pub use crate::laws::{
    element_time_function, general_moment_function, late_moments, next_update_function,
    time_function, validity_function, worked_times,
};
pub use crate::leaves::{general_moment, next_time, time_of};
pub use crate::next::next_update;
pub use crate::time::ASN1Time;
pub use crate::validity::{Validity, next_validity, validity_of};
pub use x509_core::front_element as whole_element;
