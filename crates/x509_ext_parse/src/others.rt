//! Policies, purposes, distribution points and timestamps, by kind.

ghost use Rattle.std.specs.Prelude.{◌≡◌, IfOk};
ghost use Rattle.x509_ext_points.specs.Reading.{points_at, issuing_at};
ghost use Rattle.x509_ext_points.specs.x509_ext_policies.specs.Reading.{policies_at, mappings_at, purposes_at};
ghost use Rattle.x509_ext_sct.specs.Reading.{list_at};
ghost use Rattle.x509_ext_parse.specs.Values as values;
ghost use Rattle.x509_ext_parse.specs.Cases.{HoldsFaultOf, HoldsNoMemory};
ghost use Rattle.x509_ext_parse.specs.Reading.{made, or_error};
ghost use Rattle.x509_ext_parse.specs.View.{HasCountedElements, parsed_view};
ghost use Rattle.x509_ext_parse.specs.declared.kind.Kind.TheVariants as kinds;

use crate::parsed::ParsedExtension;
use crate::settled::settled;
use asn1_core::OutOfMemory;
use asn1_traits::FromDer;
use std::alloc::Global;
use x509_ext_points::{
    CRLDistributionPoints, ExtendedKeyUsage, PolicyMappings, certificate_policies as policies_of,
    issuing_distribution_point as point_of,
};
use x509_ext_sct::parse_ct_signed_certificate_timestamp_list;

// RFC 5280, 4.2.1.4.
pub(crate) fn certificate_policies<'a>(
    alloc: Global,
    value: &'a [u8],
) -> Result<ParsedExtension<'a>, OutOfMemory>
    ensures read { IfOk result (λ p. parsed_view p ≡ or_error (made values.certificate_policies (policies_at value.now))) }
    ensures counted { IfOk result HasCountedElements }
    ensures memory { IfOk result HoldsNoMemory }
    ensures fault { IfOk result (HoldsFaultOf kinds.CertificatePolicies value.now) }
{
    match settled(policies_of(alloc, value))? {
        Ok(parsed) => Ok(ParsedExtension::CertificatePolicies(parsed)),
        Err(error) => Ok(ParsedExtension::ParseError { error }),
    }
}

// RFC 5280, 4.2.1.5.
pub(crate) fn policy_mappings<'a>(
    alloc: Global,
    value: &'a [u8],
) -> Result<ParsedExtension<'a>, OutOfMemory>
    ensures read { IfOk result (λ p. parsed_view p ≡ or_error (made values.policy_mappings (mappings_at value.now))) }
    ensures counted { IfOk result HasCountedElements }
    ensures memory { IfOk result HoldsNoMemory }
    ensures fault { IfOk result (HoldsFaultOf kinds.PolicyMappings value.now) }
{
    match settled(PolicyMappings::from_der(alloc, value))? {
        Ok(parsed) => Ok(ParsedExtension::PolicyMappings(parsed)),
        Err(error) => Ok(ParsedExtension::ParseError { error }),
    }
}

// RFC 5280, 4.2.1.12.
pub(crate) fn extended_key_usage<'a>(
    alloc: Global,
    value: &'a [u8],
) -> Result<ParsedExtension<'a>, OutOfMemory>
    ensures read { IfOk result (λ p. parsed_view p ≡ or_error (made values.extended_key_usage (purposes_at value.now))) }
    ensures counted { IfOk result HasCountedElements }
    ensures memory { IfOk result HoldsNoMemory }
    ensures fault { IfOk result (HoldsFaultOf kinds.ExtendedKeyUsage value.now) }
{
    match settled(ExtendedKeyUsage::from_der(alloc, value))? {
        Ok(parsed) => Ok(ParsedExtension::ExtendedKeyUsage(parsed)),
        Err(error) => Ok(ParsedExtension::ParseError { error }),
    }
}

// RFC 5280, 4.2.1.13.
pub(crate) fn crl_distribution_points<'a>(
    alloc: Global,
    value: &'a [u8],
) -> Result<ParsedExtension<'a>, OutOfMemory>
    ensures read { IfOk result (λ p. parsed_view p ≡ or_error (made values.crl_distribution_points (points_at value.now))) }
    ensures counted { IfOk result HasCountedElements }
    ensures memory { IfOk result HoldsNoMemory }
    ensures fault { IfOk result (HoldsFaultOf kinds.CRLDistributionPoints value.now) }
{
    match settled(CRLDistributionPoints::from_der(alloc, value))? {
        Ok(parsed) => Ok(ParsedExtension::CRLDistributionPoints(parsed)),
        Err(error) => Ok(ParsedExtension::ParseError { error }),
    }
}

// RFC 5280, 5.2.5.
pub(crate) fn issuing_distribution_point<'a>(
    alloc: Global,
    value: &'a [u8],
) -> Result<ParsedExtension<'a>, OutOfMemory>
    ensures read { IfOk result (λ p. parsed_view p ≡ or_error (made values.issuing_distribution_point (issuing_at value.now))) }
    ensures counted { IfOk result HasCountedElements }
    ensures memory { IfOk result HoldsNoMemory }
    ensures fault { IfOk result (HoldsFaultOf kinds.IssuingDistributionPoint value.now) }
{
    match settled(point_of(alloc, value))? {
        Ok(parsed) => Ok(ParsedExtension::IssuingDistributionPoint(parsed)),
        Err(error) => Ok(ParsedExtension::ParseError { error }),
    }
}

// RFC 6962, 3.3.
pub(crate) fn sct<'a>(alloc: Global, value: &'a [u8]) -> Result<ParsedExtension<'a>, OutOfMemory>
    ensures read { IfOk result (λ p. parsed_view p ≡ or_error (made values.sct (list_at value.now))) }
    ensures counted { IfOk result HasCountedElements }
    ensures memory { IfOk result HoldsNoMemory }
    ensures fault { IfOk result (HoldsFaultOf kinds.SCT value.now) }
{
    match settled(parse_ct_signed_certificate_timestamp_list(alloc, value))? {
        Ok(parsed) => Ok(ParsedExtension::SCT(parsed)),
        Err(error) => Ok(ParsedExtension::ParseError { error }),
    }
}
