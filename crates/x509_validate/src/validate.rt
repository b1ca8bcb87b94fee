//! `Validate`, for values that validate themselves.

ghost use Rattle.std.specs.Prelude.{◌≡◌, List, IfOk, IfErr, OnOk, map, string_bytes};
ghost use Rattle.x509_validate.specs.Kept.{warning_texts, error_texts};
ghost use Rattle.x509_validate.specs.Logging.{TakesAll, TakesSome};
ghost use Rattle.x509_validate.specs.Messages.{Message, all_pass};

use crate::logger::{LogError, Logger};
use crate::structure::{TbsCertificateStructureValidator, X509StructureValidator};
use crate::validator::Validator;
use crate::vec_logger::VecLogger;
use std::alloc::Global;
use x509_certs::{TbsCertificate, X509Certificate};

/// A value that validates itself.
pub trait Validate {
    /// The messages of a value.
    ghost messages: { Self → List Message };

    /// Hands the messages of the value to a logger; `true` if none is fatal.
    ///
    /// # Errors
    ///
    /// The logger's error, or out of memory.
    fn validate<L: Logger>(&self, alloc: Global, l: &mut L) -> Result<bool, LogError>
        ensures taken { OnOk result (TakesAll L.warns L.errs l.old (messages self.now) l.new) }
        ensures answer { IfOk result (λ answer. answer ≡ all_pass (messages self.now)) }
        ensures refused { IfErr result (λ e. TakesSome L.warns L.errs l.old (messages self.now) e l.new) };

    /// Returns whether no message is fatal, the warnings and the errors.
    ///
    /// # Errors
    ///
    /// Out of memory, and nothing else.
    #[tactic(auto, using(crate::proofs::KeptFacts::all_warnings, crate::proofs::KeptFacts::all_errors, crate::proofs::KeptFacts::out_of_memory))]
    fn validate_to_vec(&self, alloc: Global) -> Result<(bool, Vec<String>, Vec<String>), LogError>
        ensures answer { IfOk result (λ r. r.0 ≡ all_pass (messages self.now)) }
        ensures warnings { IfOk result (λ r. map string_bytes r.1.items ≡ warning_texts (messages self.now)) }
        ensures errors { IfOk result (λ r. map string_bytes r.2.items ≡ error_texts (messages self.now)) }
        ensures memory { IfErr result (λ e. e ≡ LogError.OutOfMemory) }
    {
        let mut kept = VecLogger::new(alloc);
        let answer = self.validate(alloc, &mut kept)?;
        let (warnings, errors) = kept.into_parts();
        Ok((answer, warnings, errors))
    }
}

impl<'a> Validate for TbsCertificate<'a> {
    ghost use Rattle.x509_validate.specs.Structure.{structure_messages};

    ghost messages = { structure_messages };

    fn validate<L: Logger>(&self, alloc: Global, l: &mut L) -> Result<bool, LogError> {
        TbsCertificateStructureValidator.validate(alloc, self, l)
    }
}

impl<'a> Validate for X509Certificate<'a> {
    ghost use Rattle.x509_validate.specs.Structure.{structure_messages};

    ghost messages = { λ certificate. structure_messages certificate.tbs_certificate };

    fn validate<L: Logger>(&self, alloc: Global, l: &mut L) -> Result<bool, LogError> {
        X509StructureValidator.validate(alloc, self, l)
    }
}
