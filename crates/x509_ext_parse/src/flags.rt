//! Values that are flags, a number or octets, by kind.

ghost use Rattle.std.specs.Prelude.{◌≡◌, IfOk};
ghost use Rattle.x509_ext_basic.specs.x509_ext_flags.specs.Reading.{key_identifier_at, usage_at, netscape_at, policy_constraints_at, inhibit_at};
ghost use Rattle.x509_ext_parse.specs.Values as values;
ghost use Rattle.x509_ext_parse.specs.Cases.{HoldsFaultOf, HoldsNoMemory};
ghost use Rattle.x509_ext_parse.specs.Reading.{made, or_error};
ghost use Rattle.x509_ext_parse.specs.View.{HasCountedElements, parsed_view};
ghost use Rattle.x509_ext_parse.specs.declared.kind.Kind.TheVariants as kinds;

use crate::parsed::ParsedExtension;
use crate::settled::settled;
use asn1_core::OutOfMemory;
use asn1_traits::FromDer;
use std::alloc::Global;
use x509_ext_basic::{InhibitAnyPolicy, KeyIdentifier, KeyUsage, NSCertType, PolicyConstraints};

// RFC 5280, 4.2.1.2.
pub(crate) fn subject_key_identifier<'a>(
    alloc: Global,
    value: &'a [u8],
) -> Result<ParsedExtension<'a>, OutOfMemory>
    ensures read { IfOk result (λ p. parsed_view p ≡ or_error (made values.subject_key_identifier (key_identifier_at value.now))) }
    ensures counted { IfOk result HasCountedElements }
    ensures memory { IfOk result HoldsNoMemory }
    ensures fault { IfOk result (HoldsFaultOf kinds.SubjectKeyIdentifier value.now) }
{
    match settled(KeyIdentifier::from_der(alloc, value))? {
        Ok(parsed) => Ok(ParsedExtension::SubjectKeyIdentifier(parsed)),
        Err(error) => Ok(ParsedExtension::ParseError { error }),
    }
}

// RFC 5280, 4.2.1.3.
pub(crate) fn key_usage<'a>(
    alloc: Global,
    value: &'a [u8],
) -> Result<ParsedExtension<'a>, OutOfMemory>
    ensures read { IfOk result (λ p. parsed_view p ≡ or_error (made values.key_usage (usage_at value.now))) }
    ensures counted { IfOk result HasCountedElements }
    ensures memory { IfOk result HoldsNoMemory }
    ensures fault { IfOk result (HoldsFaultOf kinds.KeyUsage value.now) }
{
    match settled(KeyUsage::from_der(alloc, value))? {
        Ok(parsed) => Ok(ParsedExtension::KeyUsage(parsed)),
        Err(error) => Ok(ParsedExtension::ParseError { error }),
    }
}

// Netscape's type of a certificate.
pub(crate) fn ns_cert_type<'a>(
    alloc: Global,
    value: &'a [u8],
) -> Result<ParsedExtension<'a>, OutOfMemory>
    ensures read { IfOk result (λ p. parsed_view p ≡ or_error (made values.ns_cert_type (netscape_at value.now))) }
    ensures counted { IfOk result HasCountedElements }
    ensures memory { IfOk result HoldsNoMemory }
    ensures fault { IfOk result (HoldsFaultOf kinds.NSCertType value.now) }
{
    match settled(NSCertType::from_der(alloc, value))? {
        Ok(parsed) => Ok(ParsedExtension::NSCertType(parsed)),
        Err(error) => Ok(ParsedExtension::ParseError { error }),
    }
}

// RFC 5280, 4.2.1.11.
pub(crate) fn policy_constraints<'a>(
    alloc: Global,
    value: &'a [u8],
) -> Result<ParsedExtension<'a>, OutOfMemory>
    ensures read { IfOk result (λ p. parsed_view p ≡ or_error (made values.policy_constraints (policy_constraints_at value.now))) }
    ensures counted { IfOk result HasCountedElements }
    ensures memory { IfOk result HoldsNoMemory }
    ensures fault { IfOk result (HoldsFaultOf kinds.PolicyConstraints value.now) }
{
    match settled(PolicyConstraints::from_der(alloc, value))? {
        Ok(parsed) => Ok(ParsedExtension::PolicyConstraints(parsed)),
        Err(error) => Ok(ParsedExtension::ParseError { error }),
    }
}

// RFC 5280, 4.2.1.14.
pub(crate) fn inhibit_any_policy<'a>(
    alloc: Global,
    value: &'a [u8],
) -> Result<ParsedExtension<'a>, OutOfMemory>
    ensures read { IfOk result (λ p. parsed_view p ≡ or_error (made values.inhibit_any_policy (inhibit_at value.now))) }
    ensures counted { IfOk result HasCountedElements }
    ensures memory { IfOk result HoldsNoMemory }
    ensures fault { IfOk result (HoldsFaultOf kinds.InhibitAnyPolicy value.now) }
{
    match settled(InhibitAnyPolicy::from_der(alloc, value))? {
        Ok(parsed) => Ok(ParsedExtension::InhibitAnyPolicy(parsed)),
        Err(error) => Ok(ParsedExtension::ParseError { error }),
    }
}
