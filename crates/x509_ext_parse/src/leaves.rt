//! Values of one element, by kind.

ghost use Rattle.std.specs.Prelude.{◌≡◌, IfOk};
ghost use Rattle.x509_ext_basic.specs.Reading.{constraints_at, number_at, reason_at, date_at, comment_at};
ghost use Rattle.x509_ext_parse.specs.Values as values;
ghost use Rattle.x509_ext_parse.specs.Cases.{HoldsFaultOf, HoldsNoMemory};
ghost use Rattle.x509_ext_parse.specs.Reading.{made, or_error};
ghost use Rattle.x509_ext_parse.specs.View.{HasCountedElements, parsed_view};
ghost use Rattle.x509_ext_parse.specs.declared.kind.Kind.TheVariants as kinds;

use crate::parsed::ParsedExtension;
use crate::settled::{refused, settled};
use asn1_core::OutOfMemory;
use asn1_traits::FromDer;
use std::alloc::Global;
use x509_ext_basic::{
    BasicConstraints, crl_number as number_of, invalidity_date as date_of, netscape_comment,
    reason_code as reason_of,
};

// RFC 5280, 4.2.1.9.
pub(crate) fn basic_constraints<'a>(
    alloc: Global,
    value: &'a [u8],
) -> Result<ParsedExtension<'a>, OutOfMemory>
    ensures read { IfOk result (λ p. parsed_view p ≡ or_error (made values.basic_constraints (constraints_at value.now))) }
    ensures counted { IfOk result HasCountedElements }
    ensures memory { IfOk result HoldsNoMemory }
    ensures fault { IfOk result (HoldsFaultOf kinds.BasicConstraints value.now) }
{
    match settled(BasicConstraints::from_der(alloc, value))? {
        Ok(parsed) => Ok(ParsedExtension::BasicConstraints(parsed)),
        Err(error) => Ok(ParsedExtension::ParseError { error }),
    }
}

// RFC 5280, 5.2.3.
pub(crate) fn crl_number<'a>(value: &'a [u8]) -> Result<ParsedExtension<'a>, OutOfMemory>
    ensures read { IfOk result (λ p. parsed_view p ≡ or_error (made values.crl_number (number_at value.now))) }
    ensures counted { IfOk result HasCountedElements }
    ensures memory { IfOk result HoldsNoMemory }
    ensures fault { IfOk result (HoldsFaultOf kinds.CRLNumber value.now) }
{
    match settled(number_of(value))? {
        Ok(parsed) => Ok(ParsedExtension::CRLNumber(parsed)),
        Err(error) => Ok(ParsedExtension::ParseError { error }),
    }
}

// RFC 5280, 5.3.1.
pub(crate) fn reason_code<'a>(value: &'a [u8]) -> Result<ParsedExtension<'a>, OutOfMemory>
    ensures read { IfOk result (λ p. parsed_view p ≡ or_error (made values.reason_code (reason_at value.now))) }
    ensures counted { IfOk result HasCountedElements }
    ensures memory { IfOk result HoldsNoMemory }
    ensures fault { IfOk result (HoldsFaultOf kinds.ReasonCode value.now) }
{
    match settled(reason_of(value))? {
        Ok(parsed) => Ok(ParsedExtension::ReasonCode(parsed)),
        Err(error) => Ok(ParsedExtension::ParseError { error }),
    }
}

// RFC 5280, 5.3.2.
pub(crate) fn invalidity_date<'a>(value: &'a [u8]) -> Result<ParsedExtension<'a>, OutOfMemory>
    ensures read { IfOk result (λ p. parsed_view p ≡ or_error (made values.invalidity_date (date_at value.now))) }
    ensures counted { IfOk result HasCountedElements }
    ensures memory { IfOk result HoldsNoMemory }
    ensures fault { IfOk result (HoldsFaultOf kinds.InvalidityDate value.now) }
{
    match date_of(value) {
        Ok((_, parsed)) => Ok(ParsedExtension::InvalidityDate(parsed)),
        Err(refusal) => {
            let error = refused(refusal)?;
            Ok(ParsedExtension::ParseError { error })
        }
    }
}

// Netscape's comment.
pub(crate) fn ns_cert_comment<'a>(value: &'a [u8]) -> Result<ParsedExtension<'a>, OutOfMemory>
    ensures read { IfOk result (λ p. parsed_view p ≡ or_error (made values.ns_cert_comment (comment_at value.now))) }
    ensures counted { IfOk result HasCountedElements }
    ensures memory { IfOk result HoldsNoMemory }
    ensures fault { IfOk result (HoldsFaultOf kinds.NsCertComment value.now) }
{
    match settled(netscape_comment(value))? {
        Ok(parsed) => Ok(ParsedExtension::NsCertComment(parsed)),
        Err(error) => Ok(ParsedExtension::ParseError { error }),
    }
}
