//! Basic constraints, CRL numbers, reasons, invalidity dates and comments (RFC 5280, 4.2.1.9,
//! 5.2.3, 5.3.1 and 5.3.2), with their readers. Classes are ignored, and octets after a value are
//! left.
#![tactic(auto)]

mod basic;
mod comment;
mod date;
mod number;
mod reason;
mod worked;

pub use crate::basic::BasicConstraints;
pub use crate::comment::netscape_comment;
pub use crate::date::invalidity_date;
pub use crate::number::crl_number;
pub use crate::reason::reason_code;
pub use crate::worked::worked_leaves;
pub use x509_ext_flags::{
    InhibitAnyPolicy, KeyIdentifier, KeyUsage, NSCertType, PolicyConstraints, ReasonCode,
    ReasonFlags, number_of,
};
pub use x509_time::ASN1Time;
