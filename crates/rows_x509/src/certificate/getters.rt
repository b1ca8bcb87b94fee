//! The calls on certificates that look for one kind of extension.

use crate::kinds::Getter;
use crate::words::{add_error, truth_text};
use rows_hex::Added;
use std::fmt::Debug;
use x509_core::X509Error;
use x509_ext::BasicExtension;
use x509_parser::certificate::X509Certificate;

/// Adds what the getter tells of the certificate.
pub(crate) fn add_extension(
    text: &mut String,
    getter: Getter,
    certificate: &X509Certificate<'_>,
) -> Added {
    match getter {
        Getter::BasicConstraints => add_found(text, certificate.basic_constraints()),
        Getter::KeyUsage => add_found(text, certificate.key_usage()),
        Getter::ExtendedKeyUsage => add_found(text, certificate.extended_key_usage()),
        Getter::IsCa => text.push_str(truth_text(certificate.is_ca())),
        _ => add_policies(text, getter, certificate),
    }
}

/// The same of policies.
fn add_policies(text: &mut String, getter: Getter, certificate: &X509Certificate<'_>) -> Added {
    match getter {
        Getter::PolicyConstraints => add_found(text, certificate.policy_constraints()),
        Getter::InhibitAnypolicy => add_found(text, certificate.inhibit_anypolicy()),
        Getter::PolicyMappings => add_found(text, certificate.policy_mappings()),
        _ => add_names(text, getter, certificate),
    }
}

/// The same of names.
fn add_names(text: &mut String, getter: Getter, certificate: &X509Certificate<'_>) -> Added {
    match getter {
        Getter::SubjectAlternativeName => add_found(text, certificate.subject_alternative_name()),
        _ => add_found(text, certificate.name_constraints()),
    }
}

/// Adds whether the extension is critical, and its value; or none, or the error.
fn add_found<T: Debug>(
    text: &mut String,
    found: Result<Option<BasicExtension<&T>>, X509Error>,
) -> Added {
    match found {
        Ok(Some(extension)) => {
            let critical = if extension.critical { "critical, " } else { "" };
            write!(text, "{critical}{:?}", extension.value)
        }
        Ok(None) => text.push_str("none"),
        Err(error) => add_error(text, &error),
    }
}
