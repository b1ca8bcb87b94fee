//! Identifiers of extensions (RFC 5280, 4.2.1). Each constant is the last arc under id-ce, 2.5.29.

ghost use Rattle.std.specs.Prelude.{◌≡◌, ◌↔◌, IsTrue};
ghost use Rattle.cert_model.specs.Extended.{under_ce};

/// subjectKeyIdentifier (RFC 5280, 4.2.1.2).
pub const SUBJECT_KEY_IDENTIFIER: u8 = 14;

/// keyUsage (RFC 5280, 4.2.1.3).
pub const KEY_USAGE: u8 = 15;

/// basicConstraints (RFC 5280, 4.2.1.9).
pub const BASIC_CONSTRAINTS: u8 = 19;

/// nameConstraints (RFC 5280, 4.2.1.10).
pub const NAME_CONSTRAINTS: u8 = 30;

/// authorityKeyIdentifier (RFC 5280, 4.2.1.1).
pub const AUTHORITY_KEY_IDENTIFIER: u8 = 35;

/// policyConstraints (RFC 5280, 4.2.1.11).
pub const POLICY_CONSTRAINTS: u8 = 36;

/// Whether the content octets of an identifier are those of 2.5.29.n, for an n below 128
/// (X.690, 8.19).
pub fn is_ce(identifier: &[u8], n: u8) -> bool
    ensures { IsTrue result ↔ (identifier.now ≡ under_ce n) }
{
    match identifier {
        [0x55, 0x1d, last] => *last == n,
        _ => false,
    }
}
