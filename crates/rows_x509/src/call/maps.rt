//! Extensions and attributes by their identifiers.

use crate::words::{Words, add_error};
use asn1_oid::Oid;
use rows_hex::Added;
use std::alloc::AllocError;
use std::collections::BTreeMap;
use std::slice;
use x509_core::X509Error;
use x509_ext::X509Extension;
use x509_parser::cri_attributes::X509CriAttribute;
use x509_parser::revocation_list::{CertificateRevocationList, RevokedCertificate, TbsCertList};

/// A type whose values stand in maps by identifier.
pub(crate) trait Mapped {
    /// What stands behind the number of values.
    fn behind_count() -> &'static str;

    /// Adds a value behind its identifier.
    fn add_at(&self, text: &mut String, oid: &Oid<'_>) -> Added;
}

impl Mapped for X509Extension<'_> {
    fn behind_count() -> &'static str {
        " of them"
    }

    /// How many octets the extension's value has.
    fn add_at(&self, text: &mut String, oid: &Oid<'_>) -> Added {
        write!(text, " {oid} of {}", self.value.len())
    }
}

impl Mapped for X509CriAttribute<'_> {
    fn behind_count() -> &'static str {
        ""
    }

    /// The attribute's words.
    fn add_at(&self, text: &mut String, oid: &Oid<'_>) -> Added {
        write!(text, "\n  at {oid}: ")?;
        self.add_words(text)
    }
}

/// Adds how many values the map has, and each behind its identifier, in their order; or the error.
pub(crate) fn add_map<T: Mapped>(
    text: &mut String,
    by_identifier: Result<BTreeMap<Oid<'_>, &T>, X509Error>,
) -> Added {
    match by_identifier {
        Ok(values) => add_values(text, &values),
        Err(X509Error::OutOfMemory) => Err(AllocError),
        Err(error) => add_error(text, &error),
    }
}

fn add_values<T: Mapped>(text: &mut String, values: &BTreeMap<Oid<'_>, &T>) -> Added {
    write!(text, "{}{}", values.len(), T::behind_count())?;
    for (oid, value) in values.iter() {
        value.add_at(text, oid)?;
    }
    Ok(())
}

/// A type whose values have a map of their extensions.
trait Extended {
    /// Adds the map.
    fn add_own_map(&self, text: &mut String) -> Added;
}

impl Extended for TbsCertList<'_> {
    fn add_own_map(&self, text: &mut String) -> Added {
        let alloc = *text.allocator();
        add_map(text, self.extensions_map(alloc))
    }
}

impl Extended for RevokedCertificate<'_> {
    fn add_own_map(&self, text: &mut String) -> Added {
        let alloc = *text.allocator();
        add_map(text, self.extensions_map(alloc))
    }
}

/// Adds the extensions of a list, and then of each of its entries.
pub(crate) fn add_list_maps(text: &mut String, list: &CertificateRevocationList<'_>) -> Added {
    list.tbs_cert_list.add_own_map(text)?;
    add_each_map(text, list.iter_revoked_certificates())
}

fn add_each_map<T: Extended>(text: &mut String, entries: slice::Iter<'_, T>) -> Added {
    for entry in entries {
        text.push_str("; ")?;
        entry.add_own_map(text)?;
    }
    Ok(())
}
