//! The errors of writers.

use crate::error::Error;
use crate::memory;
use std::alloc::{AllocError, AllocFailed};
use std::{error, fmt};

/// Why a value was not written.
#[derive(Clone, Copy, Debug, PartialEq, Eq)]
pub enum SerializeError {
    /// The value has no encoding in DER form; the error is what a reader would report.
    ASN1Error(Error),
    /// The number of a tag's class is above 3.
    InvalidClass { class: u8 },
    /// The length of the encoding passes `usize`.
    InvalidLength,
    /// The writer failed.
    IOError,
    /// An allocation failed.
    OutOfMemory,
}

/// The result of a writer.
pub type SerializeResult<T> = Result<T, SerializeError>;

/// Writes the name of the case, as `IOError`, without its fields.
impl fmt::Display for SerializeError {
    ghost use Rattle.std.specs.Prelude.{Some};
    ghost use Rattle.asn1_core.specs.Texts.{serialize_text};

    ghost output = { λ e. Some (serialize_text e) };

    fn fmt<W: fmt::Write>(&self, f: &mut fmt::Formatter<W>) -> fmt::Result {
        f.write_str(match self {
            SerializeError::ASN1Error(_) => "ASN1Error",
            SerializeError::InvalidClass { .. } => "InvalidClass",
            SerializeError::InvalidLength => "InvalidLength",
            SerializeError::IOError => "IOError",
            SerializeError::OutOfMemory => "OutOfMemory",
        })
    }
}

impl error::Error for SerializeError {}

/// `Error::OutOfMemory` becomes `SerializeError::OutOfMemory`, every other error an `ASN1Error`.
impl From<Error> for SerializeError {
    ghost use Rattle.std.specs.Prelude.{◌≡◌};
    ghost use Rattle.asn1_core.specs.Conversions.{serialize_of};

    ghost from_gives = { λ e s. s ≡ serialize_of e };

    fn from(e: Error) -> SerializeError {
        match e {
            Error::OutOfMemory => SerializeError::OutOfMemory,
            _ => SerializeError::ASN1Error(e),
        }
    }
}

impl From<memory::OutOfMemory> for SerializeError {
    ghost use Rattle.std.specs.Prelude.{◌≡◌};
    ghost use Rattle.asn1_core.specs.declared.serialize.SerializeError.TheVariants.{OutOfMemory};

    ghost from_gives = { λ _ e. e ≡ OutOfMemory };

    fn from(_refused: memory::OutOfMemory) -> SerializeError {
        SerializeError::OutOfMemory
    }
}

impl From<AllocError> for SerializeError {
    ghost use Rattle.std.specs.Prelude.{◌≡◌};
    ghost use Rattle.asn1_core.specs.declared.serialize.SerializeError.TheVariants.{OutOfMemory};

    ghost from_gives = { λ _ e. e ≡ OutOfMemory };

    fn from(_refused: AllocError) -> SerializeError {
        SerializeError::OutOfMemory
    }
}

impl<T: Drop> From<AllocFailed<T>> for SerializeError {
    ghost use Rattle.std.specs.Prelude.{◌≡◌};
    ghost use Rattle.asn1_core.specs.declared.serialize.SerializeError.TheVariants.{OutOfMemory};

    ghost from_gives = { λ _ e. e ≡ OutOfMemory };

    fn from(_refused: AllocFailed<T>) -> SerializeError {
        SerializeError::OutOfMemory
    }
}
