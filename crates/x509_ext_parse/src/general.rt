//! Values that hold general names, by kind.

ghost use Rattle.std.specs.Prelude.{◌≡◌, IfOk};
ghost use Rattle.x509_ext_points.specs.x509_ext_names.specs.Reading.{authority_key_at, alternative_at, name_constraints_at, info_access_at};
ghost use Rattle.x509_ext_parse.specs.Values as values;
ghost use Rattle.x509_ext_parse.specs.Cases.{HoldsFaultOf, HoldsNoMemory};
ghost use Rattle.x509_ext_parse.specs.Reading.{made, or_error};
ghost use Rattle.x509_ext_parse.specs.View.{HasCountedElements, parsed_view};
ghost use Rattle.x509_ext_parse.specs.declared.kind.Kind.TheVariants as kinds;

use crate::parsed::ParsedExtension;
use crate::settled::settled;
use asn1_core::OutOfMemory;
use asn1_traits::FromDer;
use std::alloc::Global;
use x509_ext_points::{
    AuthorityInfoAccess, AuthorityKeyIdentifier, IssuerAlternativeName, NameConstraints,
    SubjectAlternativeName, SubjectInfoAccess,
};

// RFC 5280, 4.2.1.6.
pub(crate) fn subject_alternative_name<'a>(
    alloc: Global,
    value: &'a [u8],
) -> Result<ParsedExtension<'a>, OutOfMemory>
    ensures read { IfOk result (λ p. parsed_view p ≡ or_error (made values.subject_alternative_name (alternative_at value.now))) }
    ensures counted { IfOk result HasCountedElements }
    ensures memory { IfOk result HoldsNoMemory }
    ensures fault { IfOk result (HoldsFaultOf kinds.SubjectAlternativeName value.now) }
{
    match settled(SubjectAlternativeName::from_der(alloc, value))? {
        Ok(parsed) => Ok(ParsedExtension::SubjectAlternativeName(parsed)),
        Err(error) => Ok(ParsedExtension::ParseError { error }),
    }
}

// RFC 5280, 4.2.1.7.
pub(crate) fn issuer_alternative_name<'a>(
    alloc: Global,
    value: &'a [u8],
) -> Result<ParsedExtension<'a>, OutOfMemory>
    ensures read { IfOk result (λ p. parsed_view p ≡ or_error (made values.issuer_alternative_name (alternative_at value.now))) }
    ensures counted { IfOk result HasCountedElements }
    ensures memory { IfOk result HoldsNoMemory }
    ensures fault { IfOk result (HoldsFaultOf kinds.IssuerAlternativeName value.now) }
{
    match settled(IssuerAlternativeName::from_der(alloc, value))? {
        Ok(parsed) => Ok(ParsedExtension::IssuerAlternativeName(parsed)),
        Err(error) => Ok(ParsedExtension::ParseError { error }),
    }
}

// RFC 5280, 4.2.1.10.
pub(crate) fn name_constraints<'a>(
    alloc: Global,
    value: &'a [u8],
) -> Result<ParsedExtension<'a>, OutOfMemory>
    ensures read { IfOk result (λ p. parsed_view p ≡ or_error (made values.name_constraints (name_constraints_at value.now))) }
    ensures counted { IfOk result HasCountedElements }
    ensures memory { IfOk result HoldsNoMemory }
    ensures fault { IfOk result (HoldsFaultOf kinds.NameConstraints value.now) }
{
    match settled(NameConstraints::from_der(alloc, value))? {
        Ok(parsed) => Ok(ParsedExtension::NameConstraints(parsed)),
        Err(error) => Ok(ParsedExtension::ParseError { error }),
    }
}

// RFC 5280, 4.2.1.1.
pub(crate) fn authority_key_identifier<'a>(
    alloc: Global,
    value: &'a [u8],
) -> Result<ParsedExtension<'a>, OutOfMemory>
    ensures read { IfOk result (λ p. parsed_view p ≡ or_error (made values.authority_key_identifier (authority_key_at value.now))) }
    ensures counted { IfOk result HasCountedElements }
    ensures memory { IfOk result HoldsNoMemory }
    ensures fault { IfOk result (HoldsFaultOf kinds.AuthorityKeyIdentifier value.now) }
{
    match settled(AuthorityKeyIdentifier::from_der(alloc, value))? {
        Ok(parsed) => Ok(ParsedExtension::AuthorityKeyIdentifier(parsed)),
        Err(error) => Ok(ParsedExtension::ParseError { error }),
    }
}

// RFC 5280, 4.2.2.1.
pub(crate) fn authority_info_access<'a>(
    alloc: Global,
    value: &'a [u8],
) -> Result<ParsedExtension<'a>, OutOfMemory>
    ensures read { IfOk result (λ p. parsed_view p ≡ or_error (made values.authority_info_access (info_access_at value.now))) }
    ensures counted { IfOk result HasCountedElements }
    ensures memory { IfOk result HoldsNoMemory }
    ensures fault { IfOk result (HoldsFaultOf kinds.AuthorityInfoAccess value.now) }
{
    match settled(AuthorityInfoAccess::from_der(alloc, value))? {
        Ok(parsed) => Ok(ParsedExtension::AuthorityInfoAccess(parsed)),
        Err(error) => Ok(ParsedExtension::ParseError { error }),
    }
}

// RFC 5280, 4.2.2.2.
pub(crate) fn subject_info_access<'a>(
    alloc: Global,
    value: &'a [u8],
) -> Result<ParsedExtension<'a>, OutOfMemory>
    ensures read { IfOk result (λ p. parsed_view p ≡ or_error (made values.subject_info_access (info_access_at value.now))) }
    ensures counted { IfOk result HasCountedElements }
    ensures memory { IfOk result HoldsNoMemory }
    ensures fault { IfOk result (HoldsFaultOf kinds.SubjectInfoAccess value.now) }
{
    match settled(SubjectInfoAccess::from_der(alloc, value))? {
        Ok(parsed) => Ok(ParsedExtension::SubjectInfoAccess(parsed)),
        Err(error) => Ok(ParsedExtension::ParseError { error }),
    }
}
