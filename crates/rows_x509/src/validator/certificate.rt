//! Certificates, their signed parts by themselves, names and keys.

use crate::kinds::Check;
use crate::validator::loggers::{add_handed, add_written};
use crate::validator::messages::{add_by_itself, add_log};
use rows_hex::Added;
use std::alloc::Global;
use x509_parser::certificate::{TbsCertificate, X509Certificate};
use x509_parser::prelude::{SubjectPublicKeyInfo, X509Name};
use x509_parser::validate::{
    LogError, TbsCertificateStructureValidator, Validator, VecLogger, X509CertificateValidator,
    X509ExtensionsValidator, X509NameStructureValidator, X509PublicKeyValidator,
    X509StructureValidator,
};

/// Adds what the validator says of the certificate.
pub(crate) fn add_check(
    text: &mut String,
    check: Check,
    certificate: &X509Certificate<'_>,
) -> Added {
    match check {
        Check::Validate => add_by_itself(text, certificate),
        Check::Written => add_written(text, certificate),
        Check::Handed => add_handed(text, certificate),
        _ => add_judged(text, check, certificate),
    }
}

/// A type whose values are judged by validators.
pub(crate) trait Judged {
    /// What the validator says.
    fn judge(&self, alloc: Global, check: Check, l: &mut VecLogger) -> Result<bool, LogError>;
}

/// Adds what the validator says of the value.
pub(crate) fn add_judged<T: Judged>(text: &mut String, check: Check, value: &T) -> Added {
    let alloc = *text.allocator();
    let mut l = VecLogger::new(alloc);
    let answer = value.judge(alloc, check, &mut l);
    add_log(text, answer, &l)
}

impl Judged for X509Certificate<'_> {
    fn judge(&self, alloc: Global, check: Check, l: &mut VecLogger) -> Result<bool, LogError> {
        match check {
            Check::Structure => X509StructureValidator.validate(alloc, self, l),
            Check::Extensions => X509CertificateValidator.validate(alloc, self, l),
            Check::ExtensionList => X509ExtensionsValidator.validate(alloc, self.extensions(), l),
            _ => X509StructureValidator
                .chain(X509CertificateValidator)
                .validate(alloc, self, l),
        }
    }
}

impl Judged for TbsCertificate<'_> {
    fn judge(&self, alloc: Global, _check: Check, l: &mut VecLogger) -> Result<bool, LogError> {
        TbsCertificateStructureValidator.validate(alloc, self, l)
    }
}

impl Judged for X509Name<'_> {
    fn judge(&self, alloc: Global, _check: Check, l: &mut VecLogger) -> Result<bool, LogError> {
        X509NameStructureValidator.validate(alloc, self, l)
    }
}

impl Judged for SubjectPublicKeyInfo<'_> {
    fn judge(&self, alloc: Global, _check: Check, l: &mut VecLogger) -> Result<bool, LogError> {
        X509PublicKeyValidator.validate(alloc, self, l)
    }
}
