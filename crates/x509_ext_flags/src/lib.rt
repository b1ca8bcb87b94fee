//! Extension values that are flags, numbers or octets (RFC 5280, 4.2 and 5.3), and their readers.
//! Unless a type says otherwise, octets that remain in the content of a SEQUENCE are ignored, and
//! so are classes.
#![tactic(auto)]

mod bits;
mod flags;
mod identifier;
mod names;
mod numbers;
mod policy;
mod reason;

pub use crate::bits::{bits_of, flag_at};
pub use crate::flags::{KeyUsage, NSCertType, ReasonFlags, reasons_of};
pub use crate::identifier::KeyIdentifier;
pub use crate::numbers::number_of;
pub use crate::policy::{InhibitAnyPolicy, PolicyConstraints};
pub use crate::reason::ReasonCode;
pub use x509_names::{RelativeDistinguishedName, X509Name};
