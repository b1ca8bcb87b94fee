//! Signed certificate timestamps (RFC 6962, 3.2 and 3.3), and their readers.
#![tactic(auto)]

mod list;
mod octets;
mod timestamp;
mod timestamps;

pub use crate::list::parse_ct_signed_certificate_timestamp_list;
pub use crate::timestamp::parse_ct_signed_certificate_timestamp;
pub use crate::timestamps::{
    CtExtensions, CtLogID, CtVersion, DigitallySigned, SignedCertificateTimestamp,
};
