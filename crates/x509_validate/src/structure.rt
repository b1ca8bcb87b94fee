//! Validators of a certificate's structure (RFC 5280, 4.1).

ghost use Rattle.std.specs.Prelude.{◌≡◌, ◌++◌, OnOk, map};
ghost use Rattle.x509_validate.specs.Structure.{present, unique_messages, presence_messages, field_messages, further_messages, structure_messages};
ghost use Rattle.x509_validate.specs.View.{message_view};

use crate::extensions::{push_alternatives, push_extensions};
use crate::key::push_key;
use crate::logger::{LogError, Logger};
use crate::logging::log_all;
use crate::message::{Message, Weight, push_text};
use crate::name::push_name;
use crate::parts::{push_serial, push_validity, push_version};
use crate::validator::Validator;
use std::alloc::{AllocError, Global};
use x509_certs::{TbsCertificate, UniqueIdentifier, X509Certificate, X509Extension};

/// Validates the signed part of a certificate: version, serial number, names, key, times, unique
/// identifiers and extensions.
#[derive(Clone, Copy, Debug)]
pub struct TbsCertificateStructureValidator;

impl Default for TbsCertificateStructureValidator {
    fn default() -> TbsCertificateStructureValidator {
        TbsCertificateStructureValidator
    }
}

/// Validates a certificate by its signed part: version, serial number, names, key, times, unique
/// identifiers and extensions.
#[derive(Clone, Copy, Debug)]
pub struct X509StructureValidator;

impl Default for X509StructureValidator {
    fn default() -> X509StructureValidator {
        X509StructureValidator
    }
}

fn push_present(
    alloc: Global,
    text: &str,
    id: &Option<UniqueIdentifier<'_>>,
    said: &mut Vec<Message>,
) -> Result<(), AllocError>
    ensures { OnOk result (map message_view said.new.items ≡ map message_view said.old.items ++ present text.now id.now) }
{
    match id {
        Some(_) => push_text(alloc, Weight::Warning, text, said),
        None => Ok(()),
    }
}

fn push_unique(
    alloc: Global,
    tbs: &TbsCertificate<'_>,
    said: &mut Vec<Message>,
) -> Result<(), AllocError>
    ensures { OnOk result (map message_view said.new.items ≡ map message_view said.old.items ++ unique_messages tbs.now.version.0 tbs.now.issuer_uid tbs.now.subject_uid) }
{
    if tbs.version.0 != 0 {
        return Ok(());
    }
    push_present(
        alloc,
        "issuerUniqueID present but version 1",
        &tbs.issuer_uid,
        said,
    )?;
    push_present(
        alloc,
        "subjectUniqueID present but version 1",
        &tbs.subject_uid,
        said,
    )
}

fn push_presence(
    alloc: Global,
    version: u32,
    extensions: &[X509Extension<'_>],
    said: &mut Vec<Message>,
) -> Result<(), AllocError>
    ensures { OnOk result (map message_view said.new.items ≡ map message_view said.old.items ++ presence_messages version extensions.now) }
{
    match extensions {
        [_, ..] if version != 2 => push_text(
            alloc,
            Weight::Fatal,
            "Extensions present but version is not 3",
            said,
        ),
        _ => Ok(()),
    }
}

fn push_fields(
    alloc: Global,
    tbs: &TbsCertificate<'_>,
    said: &mut Vec<Message>,
) -> Result<(), AllocError>
    ensures { OnOk result (map message_view said.new.items ≡ map message_view said.old.items ++ field_messages tbs.now) }
{
    push_version(alloc, tbs.version.0, said)?;
    push_serial(alloc, tbs.raw_serial(), said)?;
    push_name(alloc, &tbs.subject, said)?;
    push_name(alloc, &tbs.issuer, said)?;
    push_key(alloc, &tbs.subject_pki, said)?;
    push_validity(alloc, &tbs.validity, said)
}

fn push_further(
    alloc: Global,
    tbs: &TbsCertificate<'_>,
    said: &mut Vec<Message>,
) -> Result<(), AllocError>
    ensures { OnOk result (map message_view said.new.items ≡ map message_view said.old.items ++ further_messages tbs.now) }
{
    push_unique(alloc, tbs, said)?;
    push_presence(alloc, tbs.version.0, tbs.extensions(), said)?;
    push_extensions(alloc, tbs.extensions(), said)?;
    push_alternatives(alloc, tbs.extensions(), said)
}

fn push_structure(
    alloc: Global,
    tbs: &TbsCertificate<'_>,
    said: &mut Vec<Message>,
) -> Result<(), AllocError>
    ensures { OnOk result (map message_view said.new.items ≡ map message_view said.old.items ++ structure_messages tbs.now) }
{
    push_fields(alloc, tbs, said)?;
    push_further(alloc, tbs, said)
}

impl<'a> Validator<'a> for TbsCertificateStructureValidator {
    ghost use Rattle.x509_validate.specs.Structure.{structure_messages};

    type Item = TbsCertificate<'a>;

    ghost messages = { λ v tbs. structure_messages tbs };

    #[tactic(auto, using(crate::proofs::Told::untold))]
    fn validate<L: Logger>(
        &self,
        alloc: Global,
        tbs: &TbsCertificate<'a>,
        l: &mut L,
    ) -> Result<bool, LogError> {
        let mut said = Vec::new(alloc);
        match push_structure(alloc, tbs, &mut said) {
            Ok(()) => log_all(&said, l),
            Err(_) => Err(LogError::OutOfMemory),
        }
    }
}

impl<'a> Validator<'a> for X509StructureValidator {
    ghost use Rattle.x509_validate.specs.Structure.{structure_messages};

    type Item = X509Certificate<'a>;

    ghost messages = { λ v certificate. structure_messages certificate.tbs_certificate };

    fn validate<L: Logger>(
        &self,
        alloc: Global,
        certificate: &X509Certificate<'a>,
        l: &mut L,
    ) -> Result<bool, LogError> {
        TbsCertificateStructureValidator.validate(alloc, &certificate.tbs_certificate, l)
    }
}
