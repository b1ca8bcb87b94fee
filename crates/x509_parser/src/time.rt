//! Times (RFC 5280, 4.1.2.5).

pub use x509_time::{
    ASN1Time, element_time_function, general_moment_function, late_moments, next_update_function,
    time_function, worked_times,
};
