//! Validators of the extensions of a certificate.

ghost use Rattle.std.specs.Prelude.{◌≡◌, ◌++◌, IfOk, IfErr, OnOk, map};
ghost use Rattle.x509_validate.specs.Logging.{TakesAll, TakesSome};
ghost use Rattle.x509_validate.specs.Messages.{all_pass};
ghost use Rattle.x509_validate.specs.Repeats.{critical_messages, half_messages, authority_messages, policy_messages, duplicate_messages, usage_messages, kind_messages, each_kind, list_messages};
ghost use Rattle.x509_validate.specs.View.{message_view};

use crate::extensions::push_alternative;
use crate::logger::{LogError, Logger};
use crate::logging::log_all;
use crate::message::{Message, Weight, push_text};
use crate::repeats::push_repeat;
use crate::validator::Validator;
use std::alloc::{AllocError, Global};
use std::collections::BTreeSet;
use x509_certs::{ParsedExtension, X509Certificate, X509Extension};
use x509_ext_flags::KeyUsage;
use x509_ext_names::AuthorityKeyIdentifier;
use x509_ext_policies::PolicyInformation;

/// Validates extensions: repeated identifiers (RFC 5280, 4.2), and parsed values.
#[derive(Clone, Copy, Debug)]
pub struct X509ExtensionsValidator;

/// Validates the extensions of a certificate: repeated identifiers (RFC 5280, 4.2), and parsed
/// values.
#[derive(Clone, Copy, Debug)]
pub struct X509CertificateValidator;

/// Adds a message for each policy that occurs again.
fn push_policies(
    alloc: Global,
    policies: &[PolicyInformation<'_>],
    said: &mut Vec<Message>,
) -> Result<(), AllocError>
    ensures { OnOk result (map message_view said.new.items ≡ map message_view said.old.items ++ policy_messages policies.now) }
{
    let mut seen = BTreeSet::new(alloc);
    for policy in policies {
        push_repeat(
            alloc,
            "Certificate Policies: duplicate policy ",
            &policy.policy_id,
            &mut seen,
            said,
        )?;
    }
    Ok(())
}

/// Adds a message for each extension whose identifier occurs again.
fn push_duplicates(
    alloc: Global,
    extensions: &[X509Extension<'_>],
    said: &mut Vec<Message>,
) -> Result<(), AllocError>
    ensures { OnOk result (map message_view said.new.items ≡ map message_view said.old.items ++ duplicate_messages extensions.now) }
{
    let mut seen = BTreeSet::new(alloc);
    for extension in extensions {
        push_repeat(
            alloc,
            "Duplicate extension ",
            &extension.oid,
            &mut seen,
            said,
        )?;
    }
    Ok(())
}

fn push_half(
    alloc: Global,
    value: &AuthorityKeyIdentifier<'_>,
    said: &mut Vec<Message>,
) -> Result<(), AllocError>
    ensures { OnOk result (map message_view said.new.items ≡ map message_view said.old.items ++ half_messages value.now.authority_cert_issuer value.now.authority_cert_serial) }
{
    match (&value.authority_cert_issuer, &value.authority_cert_serial) {
        (Some(_), None) | (None, Some(_)) => push_text(
            alloc,
            Weight::Warning,
            "AKI: only one of Issuer and Serial is present",
            said,
        ),
        _ => Ok(()),
    }
}

fn push_critical(alloc: Global, critical: bool, said: &mut Vec<Message>) -> Result<(), AllocError>
    ensures { OnOk result (map message_view said.new.items ≡ map message_view said.old.items ++ critical_messages critical) }
{
    if critical {
        push_text(
            alloc,
            Weight::Fault,
            "Extension AKI MUST NOT be critical, but is",
            said,
        )
    } else {
        Ok(())
    }
}

fn push_authority(
    alloc: Global,
    critical: bool,
    value: &AuthorityKeyIdentifier<'_>,
    said: &mut Vec<Message>,
) -> Result<(), AllocError>
    ensures { OnOk result (map message_view said.new.items ≡ map message_view said.old.items ++ authority_messages critical value.now) }
{
    push_critical(alloc, critical, said)?;
    push_half(alloc, value, said)
}

fn push_usage(alloc: Global, usage: &KeyUsage, said: &mut Vec<Message>) -> Result<(), AllocError>
    ensures { OnOk result (map message_view said.new.items ≡ map message_view said.old.items ++ usage_messages usage.now.flags) }
{
    if usage.flags == 0 {
        push_text(
            alloc,
            Weight::Fault,
            "KeyUsage: all flags are set to 0",
            said,
        )
    } else {
        Ok(())
    }
}

fn push_kind(
    alloc: Global,
    critical: bool,
    parsed: &ParsedExtension<'_>,
    said: &mut Vec<Message>,
) -> Result<(), AllocError>
    ensures { OnOk result (map message_view said.new.items ≡ map message_view said.old.items ++ kind_messages critical parsed.now) }
{
    match parsed {
        ParsedExtension::AuthorityKeyIdentifier(value) => push_authority(
            alloc, critical, value, said,
        ),
        ParsedExtension::CertificatePolicies(policies) => push_policies(alloc, policies, said),
        ParsedExtension::KeyUsage(usage) => push_usage(alloc, usage, said),
        _ => push_alternative(alloc, parsed, said),
    }
}

fn push_kinds(
    alloc: Global,
    extensions: &[X509Extension<'_>],
    said: &mut Vec<Message>,
) -> Result<(), AllocError>
    ensures { OnOk result (map message_view said.new.items ≡ map message_view said.old.items ++ each_kind extensions.now) }
{
    for extension in extensions {
        push_kind(
            alloc,
            extension.critical,
            extension.parsed_extension(),
            said,
        )?;
    }
    Ok(())
}

fn push_list(
    alloc: Global,
    extensions: &[X509Extension<'_>],
    said: &mut Vec<Message>,
) -> Result<(), AllocError>
    ensures { OnOk result (map message_view said.new.items ≡ map message_view said.old.items ++ list_messages extensions.now) }
{
    push_duplicates(alloc, extensions, said)?;
    push_kinds(alloc, extensions, said)
}

impl X509ExtensionsValidator {
    /// Hands the messages of the extensions to a logger; `true` if none is fatal.
    ///
    /// # Errors
    ///
    /// The logger's error, or out of memory.
    #[tactic(auto, using(crate::proofs::Told::untold))]
    pub fn validate<L: Logger>(
        &self,
        alloc: Global,
        extensions: &[X509Extension<'_>],
        l: &mut L,
    ) -> Result<bool, LogError>
        ensures taken { OnOk result (TakesAll L.warns L.errs l.old (list_messages extensions.now) l.new) }
        ensures answer { IfOk result (λ answer. answer ≡ all_pass (list_messages extensions.now)) }
        ensures refused { IfErr result (λ e. TakesSome L.warns L.errs l.old (list_messages extensions.now) e l.new) }
    {
        let mut said = Vec::new(alloc);
        match push_list(alloc, extensions, &mut said) {
            Ok(()) => log_all(&said, l),
            Err(_) => Err(LogError::OutOfMemory),
        }
    }
}

impl<'a> Validator<'a> for X509CertificateValidator {
    ghost use Rattle.x509_validate.specs.Repeats.{list_messages};

    type Item = X509Certificate<'a>;

    ghost messages = { λ v certificate. list_messages certificate.tbs_certificate.extensions.items };

    fn validate<L: Logger>(
        &self,
        alloc: Global,
        certificate: &X509Certificate<'a>,
        l: &mut L,
    ) -> Result<bool, LogError> {
        X509ExtensionsValidator.validate(alloc, certificate.tbs_certificate.extensions(), l)
    }
}
