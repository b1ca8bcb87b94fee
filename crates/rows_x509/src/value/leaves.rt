//! Values of one element, and texts.

use crate::kinds::Leaf;
use crate::value::read::{add_fault, add_fault_of, add_fields, add_fields_of, add_text_of};
use crate::words::{add_hex_before, add_refusal, add_text_before};
use asn1_traits::FromDer;
use rows_hex::Added;
use x509_core::X509Result;
use x509_ext_basic::{
    BasicConstraints, crl_number, invalidity_date, netscape_comment, reason_code,
};
use x509_ext_flags::{KeyIdentifier, KeyUsage, NSCertType};
use x509_ext_points::CRLDistributionPoints;

/// Adds what the reader of the value answers.
pub(crate) fn add_leaf(text: &mut String, leaf: Leaf, octets: &[u8]) -> Added {
    match leaf {
        Leaf::BasicConstraints => add_fields_of::<BasicConstraints>(text, octets),
        Leaf::BasicConstraintsFault => add_fault_of::<BasicConstraints>(text, octets),
        Leaf::CRLNumber => add_number(text, octets),
        Leaf::ReasonCode => add_fields(text, reason_code(octets)),
        Leaf::ReasonCodeFault => add_fault(text, reason_code(octets)),
        Leaf::InvalidityDate => add_date(text, octets),
        Leaf::NetscapeComment => add_comment(text, octets),
        Leaf::KeyUsageText => add_text_of::<KeyUsage>(text, octets),
        Leaf::NSCertTypeText => add_text_of::<NSCertType>(text, octets),
        Leaf::KeyIdentifierText => add_text_of::<KeyIdentifier<'_>>(text, octets),
        Leaf::ReasonFlagsText => add_reasons(text, octets),
    }
}

fn add_number(text: &mut String, octets: &[u8]) -> Added {
    match crl_number(octets) {
        Ok((rest, number)) => add_hex_before(text, number.as_bytes(), rest),
        Err(refusal) => add_refusal(text, &refusal),
    }
}

fn add_date(text: &mut String, octets: &[u8]) -> Added {
    match invalidity_date(octets) {
        Ok((rest, time)) => add_text_before(text, &time, rest),
        Err(refusal) => add_refusal(text, &refusal),
    }
}

fn add_comment(text: &mut String, octets: &[u8]) -> Added {
    match netscape_comment(octets) {
        Ok((rest, comment)) => add_hex_before(text, comment.as_bytes(), rest),
        Err(refusal) => add_refusal(text, &refusal),
    }
}

/// Adds the reasons of the first of the places that the octets tell.
fn add_reasons(text: &mut String, octets: &[u8]) -> Added {
    let read: X509Result<'_, CRLDistributionPoints<'_>> = CRLDistributionPoints::from_der(
        *text.allocator(),
        octets,
    );
    match read {
        Ok((_, places)) => add_first_reasons(text, &places),
        Err(_) => text.push_str("no places"),
    }
}

fn add_first_reasons(text: &mut String, places: &CRLDistributionPoints<'_>) -> Added {
    let Some(place) = places.points.first() else {
        return text.push_str("no place");
    };
    match &place.reasons {
        Some(reasons) => write!(text, "{reasons}"),
        None => text.push_str("no reasons"),
    }
}
