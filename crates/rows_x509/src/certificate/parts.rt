//! Parts that have no call but their reader.

use crate::kinds::Part;
use crate::words::add_read;
use rows_hex::Added;
use x509_ext::{X509Extension, X509Version};
use x509_names::{
    AlgorithmIdentifier, AttributeTypeAndValue, RSAPublicKey, RelativeDistinguishedName,
};
use x509_parser::cri_attributes::ExtensionRequest;
use x509_time::{ASN1Time, Validity};

/// Adds the part that begins the octets.
pub(crate) fn add_part(text: &mut String, part: Part, octets: &[u8]) -> Added {
    match part {
        Part::Algorithm => add_read::<AlgorithmIdentifier<'_>>(text, octets),
        Part::Attribute => add_read::<AttributeTypeAndValue<'_>>(text, octets),
        Part::Relative => add_read::<RelativeDistinguishedName<'_>>(text, octets),
        Part::Time => add_read::<ASN1Time>(text, octets),
        Part::Validity => add_read::<Validity>(text, octets),
        Part::Rsa => add_read::<RSAPublicKey<'_>>(text, octets),
        Part::Version => add_read::<X509Version>(text, octets),
        Part::Extension => add_read::<X509Extension<'_>>(text, octets),
        Part::ExtensionRequest => add_read::<ExtensionRequest<'_>>(text, octets),
    }
}
