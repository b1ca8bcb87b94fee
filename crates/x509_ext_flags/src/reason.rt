//! `ReasonCode`, a reason of revocation (RFC 5280, 5.3.1), and its reader.

use std::fmt;

/// A reason of revocation (RFC 5280, 5.3.1).
#[derive(Clone, Copy, Debug, PartialEq, Eq)]
pub struct ReasonCode(pub u8);

impl ReasonCode {
    /// unspecified (0).
    pub const Unspecified: ReasonCode = ReasonCode(0);

    /// keyCompromise (1): the subject's private key is compromised, or suspected to be.
    pub const KeyCompromise: ReasonCode = ReasonCode(1);

    /// cACompromise (2): the issuer's private key is compromised, or suspected to be.
    pub const CACompromise: ReasonCode = ReasonCode(2);

    /// affiliationChanged (3): the subject's name or other data have changed; no key is suspected.
    pub const AffiliationChanged: ReasonCode = ReasonCode(3);

    /// superseded (4): another certificate has replaced this one; no key is suspected.
    pub const Superseded: ReasonCode = ReasonCode(4);

    /// cessationOfOperation (5): the certificate is no longer needed; no key is suspected.
    pub const CessationOfOperation: ReasonCode = ReasonCode(5);

    /// certificateHold (6): the certificate is on hold and may leave the list again.
    pub const CertificateHold: ReasonCode = ReasonCode(6);

    /// removeFromCRL (8): in a delta list, the certificate leaves the list, since its hold has
    /// ended or it has expired.
    pub const RemoveFromCRL: ReasonCode = ReasonCode(8);

    /// privilegeWithdrawn (9): a privilege in the certificate was withdrawn.
    pub const PrivilegeWithdrawn: ReasonCode = ReasonCode(9);

    /// aACompromise (10): the key of an attribute authority is compromised, or suspected to be.
    pub const AACompromise: ReasonCode = ReasonCode(10);
}

impl Default for ReasonCode {
    ghost use Rattle.std.specs.Prelude.{◌≡◌};

    ghost is_default = { λ reason. reason.0 ≡ 0 };

    /// unspecified (0).
    fn default() -> ReasonCode {
        ReasonCode::Unspecified
    }
}

/// Writes the name of the reason, or its number as `ReasonCode(7)`.
impl fmt::Display for ReasonCode {
    ghost use Rattle.std.specs.Prelude.{Some};
    ghost use Rattle.x509_ext_flags.specs.Texts.{reason_text};

    ghost output = { λ reason. Some (reason_text reason.0) };

    fn fmt<W: fmt::Write>(&self, f: &mut fmt::Formatter<W>) -> fmt::Result {
        match self.0 {
            0 => f.write_str("Unspecified"),
            1 => f.write_str("KeyCompromise"),
            2 => f.write_str("CACompromise"),
            3 => f.write_str("AffiliationChanged"),
            4 => f.write_str("Superseded"),
            5 => f.write_str("CessationOfOperation"),
            6 => f.write_str("CertificateHold"),
            8 => f.write_str("RemoveFromCRL"),
            9 => f.write_str("PrivilegeWithdrawn"),
            10 => f.write_str("AACompromise"),
            number => write!(f, "ReasonCode({number})"),
        }
    }
}
