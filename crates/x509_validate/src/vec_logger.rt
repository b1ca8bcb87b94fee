//! `VecLogger`, a logger that keeps messages.

ghost use Rattle.std.specs.Prelude.{◌≡◌, [], ◌∷◌, ◌++◌, map, string_bytes, OnOk, OnErr};

use crate::logger::{LogError, Logger};
use std::alloc::{AllocError, Global};

/// A logger that keeps warnings and errors, each in order.
#[derive(Debug, Drop)]
pub struct VecLogger {
    warnings: Vec<String>,
    errors: Vec<String>,
    alloc: Global,
}

impl VecLogger {
    /// Makes a logger without messages.
    pub fn new(alloc: Global) -> VecLogger
        ensures warnings { result.warnings.items ≡ [] }
        ensures errors { result.errors.items ≡ [] }
    {
        VecLogger {
            warnings: Vec::new(alloc),
            errors: Vec::new(alloc),
            alloc,
        }
    }

    /// The warnings, in order.
    pub fn warnings(&self) -> &[String]
        ensures { result.now ≡ self.now.warnings.items }
    {
        &self.warnings
    }

    /// The errors, in order.
    pub fn errors(&self) -> &[String]
        ensures { result.now ≡ self.now.errors.items }
    {
        &self.errors
    }

    /// The warnings and the errors, each in order.
    pub fn into_parts(self) -> (Vec<String>, Vec<String>)
        ensures { result ≡ (self.warnings, self.errors) }
    {
        let VecLogger {
            warnings,
            errors,
            alloc: _,
        } = self;
        (warnings, errors)
    }
}

fn keep(alloc: Global, message: &str, texts: &mut Vec<String>) -> Result<(), AllocError>
    ensures kept { OnOk result (map string_bytes texts.new.items ≡ map string_bytes texts.old.items ++ message.now ∷ []) }
    ensures refused { OnErr result (texts.new.items ≡ texts.old.items) }
{
    let text = String::from_str(alloc, message)?;
    texts.push(text)?;
    Ok(())
}

impl Logger for VecLogger {
    ghost use Rattle.x509_validate.specs.Kept.{KeepsWarning, KeepsError};

    ghost warns = { KeepsWarning };

    ghost errs = { KeepsError };

    fn warn(&mut self, message: &str) -> Result<(), LogError> {
        match keep(self.alloc, message, &mut self.warnings) {
            Ok(()) => Ok(()),
            Err(_) => Err(LogError::OutOfMemory),
        }
    }

    fn err(&mut self, message: &str) -> Result<(), LogError> {
        match keep(self.alloc, message, &mut self.errors) {
            Ok(()) => Ok(()),
            Err(_) => Err(LogError::OutOfMemory),
        }
    }
}
