//! Maps from identifiers to extensions.

ghost use Rattle.std.specs.Prelude.{◌≡◌, ℕ, List, IfOk, OnOk, IfErr, option_map};
ghost use Rattle.x509_core.specs.declared.error.X509Error.TheVariants.{DuplicateExtensions};
ghost use Rattle.x509_ext.specs.Lookup.{all_of, first_of};
ghost use Rattle.x509_ext.specs.Maps.{held_at, AreDistinct, IsWhyNone};

use crate::extension::X509Extension;
use crate::once::add_once;
use asn1_oid::Oid;
use std::alloc::Global;
use std::collections::BTreeMap;
use x509_core::X509Error;

/// A map from each identifier to its extension, sorted by the identifiers' content octets. Takes n
/// log n time for n extensions.
///
/// # Errors
///
/// `DuplicateExtensions` if two have the same identifier (RFC 5280, 5.2); out of memory.
pub fn extensions_map<'n, 'a>(
    alloc: Global,
    extensions: &'n [X509Extension<'a>],
) -> Result<BTreeMap<Oid<'a>, &'n X509Extension<'a>>, X509Error>
    ensures distinct { OnOk result (AreDistinct (λ e. e.oid) extensions.now) }
    ensures held { IfOk result (λ by_oid. (id : List ℕ) → option_map (λ e. e.now) (held_at by_oid id) ≡ first_of (all_of id extensions.now)) }
    ensures refused { IfErr result (IsWhyNone DuplicateExtensions (λ e. e.oid) extensions.now) }
{
    let mut by_oid = BTreeMap::new(alloc);
    let mut rest = extensions.iter();
    while let Some(extension) = rest.next() {
        let oid = extension.oid.clone(alloc)?;
        if !add_once(&mut by_oid, oid, extension)? {
            return Err(X509Error::DuplicateExtensions);
        }
    }
    Ok(by_oid)
}
