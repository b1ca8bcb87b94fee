//! The extensions of an item, as they are in it.

ghost use Rattle.std.specs.Prelude.{◌≡◌, ◌++◌, map, IfOk, OnOk};
ghost use Rattle.std.specs.List.{flat_map};
ghost use Rattle.cert_model.specs.Class.{Class, IsClassOf};
ghost use Rattle.cert_model.specs.View.{ext_view};
ghost use Rattle.certpath_c.specs.Extensions.{row_of, extension_octets, HasExtensionsOf, ExtensionsAnswer};

use crate::status::{DONE, NO_FIELD, OUT_OF_MEMORY, TOO_SMALL};
use crate::writing::put_both;
use asn1_core::OutOfMemory;
use cert_model::fields::ExtField;
use certcheck::{ItemClass, read_tree};
use std::alloc::{AllocError, Global};

/// How long the parts of an extension are, and whether it is critical.
#[repr(C)]
#[derive(Clone, Copy, Debug)]
pub struct ExtensionRow {
    pub identifier: usize,
    pub value: usize,
    pub is_critical: u32,
}

/// How many extensions there are, and how many octets all of their parts have.
#[repr(C)]
#[derive(Clone, Copy, Debug)]
pub struct ExtensionSizes {
    pub count: usize,
    pub length: usize,
}

fn row_of(extension: &ExtField<'_>) -> ExtensionRow
    ensures { result ≡ row_of (ext_view extension.now) }
{
    ExtensionRow {
        identifier: extension.identifier.len(),
        value: extension.value.len(),
        is_critical: if extension.critical { 1 } else { 0 },
    }
}

fn rows_of(alloc: Global, extensions: &[ExtField<'_>]) -> Result<Vec<ExtensionRow>, AllocError>
    ensures { IfOk result (λ rows. rows.items ≡ map (λ e. row_of (ext_view e)) extensions.now) }
{
    extensions
        .iter()
        .map(|extension| row_of(extension))
        .collect(alloc)
}

/// Adds the identifier and the value of an extension.
fn push_extension(octets: &mut Vec<u8>, extension: &ExtField<'_>) -> Result<(), AllocError>
    ensures { OnOk result (octets.new.items ≡ octets.old.items ++ extension_octets (ext_view extension.now)) }
{
    octets.extend_from_slice(extension.identifier)?;
    octets.extend_from_slice(extension.value)
}

/// The identifiers and values of extensions, one after another.
fn octets_of(alloc: Global, extensions: &[ExtField<'_>]) -> Result<Vec<u8>, AllocError>
    ensures { IfOk result (λ octets. octets.items ≡ flat_map (λ e. extension_octets (ext_view e)) extensions.now) }
{
    let mut octets = Vec::new(alloc);
    for extension in extensions {
        push_extension(&mut octets, extension)?;
    }
    Ok(octets)
}

/// The extensions of an item, if it is a certificate or a list.
fn extensions_of<'a>(
    alloc: Global,
    item: &'a [u8],
) -> Result<Option<Vec<ExtField<'a>>>, OutOfMemory>
    ensures { IfOk result (λ o. (class : Class) × IsClassOf item.now class × HasExtensionsOf class o) }
{
    match read_tree(alloc, item)? {
        ItemClass::Certificate(fields) => Ok(Some(fields.extensions)),
        ItemClass::List(fields) => Ok(Some(fields.extensions)),
        ItemClass::Other => Ok(None),
    }
}

/// `certpath_extensions` of the header.
#[unsafe(no_mangle)]
pub extern "C" fn certpath_extensions(
    alloc: Global,
    item: &[u8],
    octets: &mut [u8],
    rows: &mut [ExtensionRow],
    sizes: &mut ExtensionSizes,
) -> i32
    ensures { ExtensionsAnswer item.now octets.old octets.new rows.old rows.new sizes.old sizes.new result }
{
    let Ok(found) = extensions_of(alloc, item) else {
        return OUT_OF_MEMORY;
    };
    let Some(extensions) = found else {
        return NO_FIELD;
    };
    let Ok(parts) = octets_of(alloc, &extensions) else {
        return OUT_OF_MEMORY;
    };
    let Ok(all) = rows_of(alloc, &extensions) else {
        return OUT_OF_MEMORY;
    };
    *sizes = ExtensionSizes {
        count: all.len(),
        length: parts.len(),
    };
    if put_both(octets, &parts, rows, &all) {
        DONE
    } else {
        TOO_SMALL
    }
}
