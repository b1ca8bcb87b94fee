//! What a run is asked, and what it returns.

use cert_judge::Policy;

/// What a run is asked.
#[derive(Drop)]
pub struct Settings {
    /// The position of the target among the items.
    pub target: usize,
    /// The moment, and whether revocation lists are demanded.
    pub policy: Policy,
    /// The most content octets that an item has, in bundle and anchors.
    pub limit: u32,
}

/// Whether the certificates have paths.
#[derive(Clone, Copy, Debug, PartialEq, Eq, Hash)]
pub enum AllOutcome {
    /// Each certificate of the bundle has a valid path.
    Each,
    /// Some certificate has none.
    NotEach,
}

/// The kind of the answer.
#[derive(Clone, Copy, Debug, PartialEq, Eq, Hash)]
pub enum Outcome {
    /// There is a valid path.
    Path,
    /// The target is a certificate, and there is none.
    NoPath,
    /// The target is out of range, or no certificate.
    NoTarget,
}
