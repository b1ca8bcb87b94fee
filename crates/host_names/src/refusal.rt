//! Why a text is no host.

use thiserror::Error;

/// Why a text is no host (RFC 9525, 6.1; RFC 1123, 2.1). `Host::parse` returns the first that
/// applies, in this order.
#[derive(Clone, Copy, Debug, PartialEq, Eq, Hash, Error)]
pub enum Refusal {
    /// It is empty, or a dot.
    #[error("it is empty")]
    Empty,
    /// It has a slash.
    #[error("it is a URL or has a path")]
    Url,
    /// It has an at sign.
    #[error("it is an e-mail address")]
    EmailAddress,
    /// It has a star: only a name that a certificate presents may.
    #[error("it has a wildcard")]
    Wildcard,
    /// It is an address of IPv6 with a zone (RFC 4007, 11).
    #[error("it has a zone")]
    Zone,
    /// It has a port after its last colon.
    #[error("it has a port")]
    Port,
    /// It has a colon or a bracket, and is no address of IPv6 (RFC 4291, 2.2).
    #[error("it is no IPv6 address")]
    NoAddress,
    /// It has an octet outside ASCII: such labels are written `xn--..` (RFC 5890, 2.3.2.1).
    #[error("it has a character outside ASCII")]
    NotAscii,
    /// It has a character other than letters, digits, hyphens, underscores and dots.
    #[error("it has a character that stands in no name")]
    Character,
    /// It has more than 253 octets, without its final dot (RFC 1035, 2.3.4).
    #[error("it has more than 253 octets")]
    LongName,
    /// It begins with a dot, or has two dots side by side.
    #[error("it has an empty label")]
    EmptyLabel,
    /// A label has more than 63 octets (RFC 1035, 2.3.4).
    #[error("it has a label of more than 63 octets")]
    LongLabel,
    /// A label begins or ends with a hyphen (RFC 1123, 2.1).
    #[error("it has a label with a hyphen at an end")]
    Hyphen,
    /// The last label is a number, and the whole is no IPv4 address.
    #[error("its last label is a number, and it is no IPv4 address")]
    Number,
}
