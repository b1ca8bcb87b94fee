//! The types of dates and times: UTCTime and GeneralizedTime (X.680, 46 and 47; X.690, 11.7 and
//! 11.8).
#![tactic(auto)]

mod datetime;
mod generalized_time;
mod laws;
mod moment;
mod reading;
mod utc_time;
mod writing;

pub use crate::datetime::{ASN1DateTime, ASN1TimeZone};
pub use crate::generalized_time::GeneralizedTime;
pub use crate::laws::{
    der_generalized_times, generalized_time_functions, moment_function, one_generalized_time,
    one_utc_time, utc_octets_differ, utc_time_function,
};
pub use crate::utc_time::UtcTime;
