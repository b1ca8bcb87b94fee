//! Values of extensions, by their types.

use crate::call::names::add_general;
use crate::kinds::Value;
use crate::value::read::{add_fields, add_fields_of};
use asn1_traits::FromDer;
use rows_hex::Added;
use x509_core::X509Result;
use x509_ext_flags::{InhibitAnyPolicy, KeyIdentifier, KeyUsage, NSCertType, PolicyConstraints};
use x509_ext_names::{
    AuthorityInfoAccess, AuthorityKeyIdentifier, GeneralName, IssuerAlternativeName,
    NameConstraints, SubjectAlternativeName, SubjectInfoAccess,
};
use x509_ext_points::{CRLDistributionPoints, issuing_distribution_point};
use x509_ext_policies::{ExtendedKeyUsage, PolicyMapping, PolicyMappings, certificate_policies};
use x509_ext_sct::parse_ct_signed_certificate_timestamp_list;

/// Adds what the reader of the type answers.
pub(crate) fn add_value(text: &mut String, value: Value, octets: &[u8]) -> Added {
    match value {
        Value::KeyIdentifier => add_fields_of::<KeyIdentifier<'_>>(text, octets),
        Value::KeyUsage => add_fields_of::<KeyUsage>(text, octets),
        Value::NSCertType => add_fields_of::<NSCertType>(text, octets),
        Value::PolicyConstraints => add_fields_of::<PolicyConstraints>(text, octets),
        Value::InhibitAnyPolicy => add_fields_of::<InhibitAnyPolicy>(text, octets),
        Value::PolicyMapping => add_fields_of::<PolicyMapping<'_>>(text, octets),
        Value::PolicyMappings => add_fields_of::<PolicyMappings<'_>>(text, octets),
        Value::ExtendedKeyUsage => add_fields_of::<ExtendedKeyUsage<'_>>(text, octets),
        Value::CRLDistributionPoints => add_fields_of::<CRLDistributionPoints<'_>>(text, octets),
        _ => add_names(text, value, octets),
    }
}

/// The same of types that hold general names.
fn add_names(text: &mut String, value: Value, octets: &[u8]) -> Added {
    match value {
        Value::GeneralName => add_fields_of::<GeneralName<'_>>(text, octets),
        Value::SubjectAlternativeName => add_fields_of::<SubjectAlternativeName<'_>>(text, octets),
        Value::IssuerAlternativeName => add_fields_of::<IssuerAlternativeName<'_>>(text, octets),
        Value::AuthorityKeyIdentifier => add_fields_of::<AuthorityKeyIdentifier<'_>>(text, octets),
        Value::NameConstraints => add_fields_of::<NameConstraints<'_>>(text, octets),
        Value::AuthorityInfoAccess => add_fields_of::<AuthorityInfoAccess<'_>>(text, octets),
        Value::SubjectInfoAccess => add_fields_of::<SubjectInfoAccess<'_>>(text, octets),
        _ => add_by_function(text, value, octets),
    }
}

/// The same of types whose readers are functions.
fn add_by_function(text: &mut String, value: Value, octets: &[u8]) -> Added {
    let alloc = *text.allocator();
    match value {
        Value::CertificatePolicies => add_fields(text, certificate_policies(alloc, octets)),
        Value::IssuingDistributionPoint => {
            add_fields(text, issuing_distribution_point(alloc, octets))
        }
        Value::Timestamps => {
            add_fields(
                text,
                parse_ct_signed_certificate_timestamp_list(alloc, octets),
            )
        }
        _ => add_alternative(text, SubjectAlternativeName::from_der(alloc, octets)),
    }
}

fn add_alternative(text: &mut String, read: X509Result<'_, SubjectAlternativeName<'_>>) -> Added {
    match read {
        Ok((_, names)) => add_general(text, &names),
        Err(_) => text.push_str("no names"),
    }
}
