//! Maps from identifiers to a certificate's extensions.

ghost use Rattle.std.specs.Prelude.{◌≡◌, ℕ, List, IfOk, OnOk, IfErr, option_map};
ghost use Rattle.x509_core.specs.declared.error.X509Error.TheVariants.{DuplicateExtensions};
ghost use Rattle.x509_ext.specs.Lookup.{all_of, first_of};
ghost use Rattle.x509_ext.specs.Maps.{held_at, AreDistinct, IsWhyNone};

use crate::certificate::X509Certificate;
use crate::tbs::TbsCertificate;
use asn1_oid::Oid;
use std::alloc::Global;
use std::collections::BTreeMap;
use x509_core::X509Error;
use x509_ext::{X509Extension, extensions_map};

impl<'a> TbsCertificate<'a> {
    /// A map from each identifier to its extension, sorted by the identifiers' content octets.
    /// Takes n log n time for n extensions.
    ///
    /// # Errors
    ///
    /// `DuplicateExtensions` if two have the same identifier (RFC 5280, 4.2); out of memory.
    pub fn extensions_map(
        &self,
        alloc: Global,
    ) -> Result<BTreeMap<Oid<'a>, &X509Extension<'a>>, X509Error>
        ensures distinct { OnOk result (AreDistinct (λ e. e.oid) self.now.extensions.items) }
        ensures held { IfOk result (λ by_oid. (id : List ℕ) → option_map (λ e. e.now) (held_at by_oid id) ≡ first_of (all_of id self.now.extensions.items)) }
        ensures refused { IfErr result (IsWhyNone DuplicateExtensions (λ e. e.oid) self.now.extensions.items) }
    {
        extensions_map(alloc, self.extensions())
    }
}

impl<'a> X509Certificate<'a> {
    /// A map from each identifier to its extension, sorted by the identifiers' content octets.
    /// Takes n log n time for n extensions.
    ///
    /// # Errors
    ///
    /// `DuplicateExtensions` if two have the same identifier (RFC 5280, 4.2); out of
    /// memory.
    pub fn extensions_map(
        &self,
        alloc: Global,
    ) -> Result<BTreeMap<Oid<'a>, &X509Extension<'a>>, X509Error>
        ensures distinct { OnOk result (AreDistinct (λ e. e.oid) self.now.tbs_certificate.extensions.items) }
        ensures held { IfOk result (λ by_oid. (id : List ℕ) → option_map (λ e. e.now) (held_at by_oid id) ≡ first_of (all_of id self.now.tbs_certificate.extensions.items)) }
        ensures refused { IfErr result (IsWhyNone DuplicateExtensions (λ e. e.oid) self.now.tbs_certificate.extensions.items) }
    {
        extensions_map(alloc, self.extensions())
    }
}
