//! Certificates: from what the reader returns to fields (RFC 5280, 4.1).

ghost use Rattle.std.specs.Prelude.{◌≡◌, ◌≤◌, min, IfOk};
ghost use Rattle.cert_model.specs.View.{certificate_view};
ghost use Rattle.certpath_typed.specs.ToldItems.{TellsCertificate};

use crate::parts::{
    algorithm_field, bit_field, extension_fields, id_field, key_field, name_fields,
};
use asn1_core::OutOfMemory;
use cert_model::fields::CertFields;
use std::alloc::Global;
use x509_links::X509Certificate;

/// Returns the number as an octet, or 255 if it is greater.
pub(crate) fn small_version(version: u32) -> u8
    ensures { result ≡ min version 255 }
{
    if version < 255 { version as u8 } else { 255 }
}

/// Returns the fields of a certificate that was read from the item.
pub(crate) fn certificate_fields<'a>(
    alloc: Global,
    item: &'a [u8],
    certificate: &X509Certificate<'a>,
) -> Result<CertFields<'a>, OutOfMemory>
    ensures { IfOk result (λ f. TellsCertificate item.now certificate.now (certificate_view f)) }
{
    let issuer = name_fields(alloc, item, certificate.issuer())?;
    let subject = name_fields(alloc, item, certificate.subject())?;
    let extensions = extension_fields(alloc, item, certificate.extensions())?;
    let tbs = &certificate.tbs_certificate;
    Ok(CertFields {
        version: small_version(tbs.version.0),
        serial: certificate.raw_serial(),
        signature: algorithm_field(item, &tbs.signature),
        issuer,
        not_before: tbs.validity.not_before.to_datetime(),
        not_after: tbs.validity.not_after.to_datetime(),
        subject,
        key: key_field(item, &tbs.subject_pki),
        issuer_id: id_field(&tbs.issuer_uid),
        subject_id: id_field(&tbs.subject_uid),
        extensions,
        algorithm: algorithm_field(item, &certificate.signature_algorithm),
        signature_value: bit_field(certificate.signature_value),
    })
}
