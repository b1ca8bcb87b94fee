//! The parts of certificates and lists: from what the readers return to fields.

ghost use Rattle.std.specs.Prelude.{◌≡◌, map, option_map, IfOk};
ghost use Rattle.asn1_any.specs.Views.{any_of};
ghost use Rattle.cert_model.specs.View.{any_view, alg_view, attr_view, name_view, bit_view, key_view, ext_view};
ghost use Rattle.x509_names.specs.View.{algorithm_view, attribute_view, set_view, name_view as read_name_view, bits_view, key_view as read_key_view};
ghost use Rattle.x509_links.specs.Readers.{extension_view, identifier_view};
ghost use Rattle.certpath_typed.specs.Told.{TellsAlgorithm, TellsAttribute, TellsSet, TellsName, told_bits, TellsKey, TellsExtension, TellsExtensions};

use crate::identifier::identifier;
use asn1_any::Any;
use asn1_core::OutOfMemory;
use asn1_values::BitString;
use cert_model::fields::{AlgField, AnyField, AttrField, BitField, ExtField, KeyField, NameFields};
use std::alloc::Global;
use x509_links::{UniqueIdentifier, X509Extension};
use x509_names::{
    AlgorithmIdentifier, AttributeTypeAndValue, RelativeDistinguishedName, SubjectPublicKeyInfo,
    X509Name,
};

fn any_field<'a>(any: &Any<'a>) -> AnyField<'a>
    ensures { any_view result ≡ any_of any.now }
{
    AnyField {
        class: any.class(),
        constructed: any.header.constructed(),
        tag: any.tag(),
        content: any.content,
    }
}

/// Returns the field of an AlgorithmIdentifier (RFC 5280, 4.1.1.2).
pub(crate) fn algorithm_field<'a>(
    item: &'a [u8],
    algorithm: &AlgorithmIdentifier<'a>,
) -> AlgField<'a>
    ensures { TellsAlgorithm item.now (algorithm_view algorithm.now) (alg_view result) }
{
    let parameters = match &algorithm.parameters {
        Some(any) => Some(any_field(any)),
        None => None,
    };
    AlgField {
        identifier: identifier(item, &algorithm.algorithm),
        parameters,
    }
}

fn attribute_field<'a>(item: &'a [u8], attribute: &AttributeTypeAndValue<'a>) -> AttrField<'a>
    ensures { TellsAttribute item.now (attribute_view attribute.now) (attr_view result) }
{
    AttrField {
        identifier: identifier(item, attribute.attr_type()),
        value: any_field(attribute.attr_value()),
    }
}

fn attribute_fields<'a>(
    alloc: Global,
    item: &'a [u8],
    set: &RelativeDistinguishedName<'a>,
) -> Result<Vec<AttrField<'a>>, OutOfMemory>
    ensures { IfOk result (λ v. TellsSet item.now (set_view set.now) (map attr_view v.items)) }
{
    let attributes = set.iter();
    let mut fields = Vec::with_capacity(alloc, attributes.len())?;
    for attribute in attributes {
        fields.push(attribute_field(item, attribute))?;
    }
    Ok(fields)
}

/// Returns the fields of a Name (RFC 5280, 4.1.2.4).
pub(crate) fn name_fields<'a>(
    alloc: Global,
    item: &'a [u8],
    name: &X509Name<'a>,
) -> Result<NameFields<'a>, OutOfMemory>
    ensures { IfOk result (λ f. TellsName item.now (read_name_view name.now) (name_view f)) }
{
    let read = name.iter();
    let mut sets = Vec::with_capacity(alloc, read.len())?;
    for set in read {
        sets.push(attribute_fields(alloc, item, set)?)?;
    }
    Ok(NameFields { sets })
}

/// Returns the field of a BIT STRING (X.690, 8.6).
pub(crate) fn bit_field<'a>(bits: BitString<'a>) -> BitField<'a>
    ensures { bit_view result ≡ told_bits (bits_view bits.entry) }
{
    BitField {
        unused: bits.unused_bits,
        octets: bits.content,
    }
}

/// Returns the field of a unique identifier, if there is one (RFC 5280, 4.1.2.8).
pub(crate) fn id_field<'a>(id: &Option<UniqueIdentifier<'a>>) -> Option<BitField<'a>>
    ensures { option_map bit_view result ≡ option_map told_bits (option_map identifier_view id.now) }
{
    match id {
        Some(id) => Some(bit_field(id.0)),
        None => None,
    }
}

/// Returns the field of a SubjectPublicKeyInfo (RFC 5280, 4.1.2.7).
pub(crate) fn key_field<'a>(item: &'a [u8], key: &SubjectPublicKeyInfo<'a>) -> KeyField<'a>
    ensures { TellsKey item.now (read_key_view key.now) (key_view result) }
{
    KeyField {
        algorithm: algorithm_field(item, &key.algorithm),
        key: bit_field(key.subject_public_key),
    }
}

fn extension_field<'a>(item: &'a [u8], extension: &X509Extension<'a>) -> ExtField<'a>
    ensures { TellsExtension item.now (extension_view extension.now) (ext_view result) }
{
    ExtField {
        identifier: identifier(item, &extension.oid),
        critical: extension.critical,
        value: extension.value,
    }
}

/// Returns the fields of Extensions (RFC 5280, 4.2), in their order.
pub(crate) fn extension_fields<'a>(
    alloc: Global,
    item: &'a [u8],
    extensions: &[X509Extension<'a>],
) -> Result<Vec<ExtField<'a>>, OutOfMemory>
    ensures { IfOk result (λ v. TellsExtensions item.now (map extension_view extensions.now) (map ext_view v.items)) }
{
    let mut fields = Vec::with_capacity(alloc, extensions.len())?;
    for extension in extensions {
        fields.push(extension_field(item, extension))?;
    }
    Ok(fields)
}
