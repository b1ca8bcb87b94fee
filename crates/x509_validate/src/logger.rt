//! `Logger`, which takes the messages of validators.

ghost use Rattle.std.specs.Prelude.{⊤, ◌≡◌, ℕ, List, Result};
ghost use Rattle.x509_validate.specs.declared.logger.LogError.{LogError};

use asn1_core::OutOfMemory;
use std::alloc::AllocError;
use thiserror::Error;

/// Why a logger refused a message.
#[derive(Clone, Copy, Debug, PartialEq, Eq, Error)]
pub enum LogError {
    /// Out of memory.
    #[error("OutOfMemory")]
    OutOfMemory,
    /// The logger's writer failed.
    #[error("Write")]
    Write,
}

impl From<OutOfMemory> for LogError {
    fn from(_error: OutOfMemory) -> LogError
        ensures { result ≡ LogError.OutOfMemory }
    {
        LogError::OutOfMemory
    }
}

impl From<AllocError> for LogError {
    fn from(_error: AllocError) -> LogError
        ensures { result ≡ LogError.OutOfMemory }
    {
        LogError::OutOfMemory
    }
}

/// Takes the messages of validators. Implement it for a logger of your own.
pub trait Logger {
    /// The relation of state, warning, result and next state. It depends on the type alone.
    ghost warns: { Self → List ℕ → Result ⊤ LogError → Self → Type 0 };

    /// The relation of state, error, result and next state. It depends on the type alone.
    ghost errs: { Self → List ℕ → Result ⊤ LogError → Self → Type 0 };

    /// Takes a warning: something that looks like a mistake.
    fn warn(&mut self, message: &str) -> Result<(), LogError>
        ensures { warns self.old message.now result self.new };

    /// Takes an error: something that the standard forbids.
    fn err(&mut self, message: &str) -> Result<(), LogError>
        ensures { errs self.old message.now result self.new };
}
