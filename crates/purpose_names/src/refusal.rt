//! Why a text is no purpose.

ghost use Rattle.std.specs.Prelude.{◌≡◌};
ghost use Rattle.purpose_names.specs.Reading.{reason_of};

use thiserror::Error;

/// Why a text is no purpose that can be asked for.
#[derive(Clone, Copy, Debug, PartialEq, Eq, Hash, Error)]
pub enum PurposeRefusal {
    /// It is anyExtendedKeyUsage: a certificate may have it, and it is no purpose of its own.
    #[error("Any")]
    Any,
    /// It is neither a name nor an object identifier in dotted numbers of at most 64 bits.
    #[error("Unknown")]
    Unknown,
    /// Its identifier has more than 128 octets.
    #[error("Long")]
    Long,
    /// An allocation failed.
    #[error("OutOfMemory")]
    OutOfMemory,
}

impl PurposeRefusal {
    /// Returns the reason, in words.
    pub fn reason(self) -> &'static str
        ensures { result.now ≡ reason_of self }
    {
        match self {
            PurposeRefusal::Any => "anyExtendedKeyUsage is no purpose of its own",
            PurposeRefusal::Unknown => "it is neither a known name nor an object identifier",
            PurposeRefusal::Long => "its identifier has more than 128 octets",
            PurposeRefusal::OutOfMemory => "out of memory",
        }
    }
}
