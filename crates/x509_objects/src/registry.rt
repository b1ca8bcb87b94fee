//! `OidRegistry`, a map from identifiers to names.

ghost use Rattle.std.specs.Prelude.{◌≡◌, ℕ, List, Some, None, if◌then◌else◌, bytes_eq, option_map, IfOk, IfErr};
ghost use Rattle.std.specs.Result.{result_ok};
ghost use Rattle.x509_objects.specs.Registry.{entry_of, entry_view};
ghost use Rattle.x509_objects.specs.Table.{Entry};

use asn1_core::OutOfMemory;
use asn1_oid::Oid;
use std::alloc::Global;
use std::collections::BTreeMap;

/// The short name and description of an identifier.
#[derive(Clone, Copy, Debug, PartialEq, Eq)]
pub struct OidEntry {
    sn: &'static str,
    description: &'static str,
}

impl OidEntry {
    /// Makes an entry of a short name and a description.
    pub fn new(sn: &'static str, description: &'static str) -> OidEntry
        ensures { result ≡ record { sn = sn.entry; description = description.entry } }
    {
        OidEntry { sn, description }
    }

    /// The short name, such as `commonName`.
    pub fn sn(&self) -> &'static str
        ensures { result ≡ self.now.sn }
    {
        self.sn
    }

    /// The description.
    pub fn description(&self) -> &'static str
        ensures { result ≡ self.now.description }
    {
        self.description
    }
}

/// The error for an identifier without a name.
#[derive(Debug, Drop, PartialEq, Eq)]
pub struct NidError;

/// A map from identifiers to entries. Identifiers are equal if their content octets are.
#[derive(Drop)]
pub struct OidRegistry {
    entries: BTreeMap<Vec<u8>, OidEntry>,
}

impl OidRegistry {
    /// Makes an empty registry.
    pub fn new(alloc: Global) -> OidRegistry
        ensures { (id : List ℕ) → entry_of result id ≡ None }
    {
        OidRegistry {
            entries: BTreeMap::new(alloc),
        }
    }

    /// The last entry that was inserted for the identifier, or `None`.
    pub fn get(&self, oid: &Oid<'_>) -> Option<&OidEntry>
        ensures { option_map (λ e. entry_view e.now) result ≡ entry_of self.now oid.now }
    {
        self.find(oid.as_bytes())
    }

    fn find(&self, octets: &[u8]) -> Option<&OidEntry>
        ensures { option_map (λ e. entry_view e.now) result ≡ entry_of self.now octets.now }
    {
        self.entries.get(octets)
    }

    /// Inserts an entry and returns the one that it replaces.
    ///
    /// # Errors
    ///
    /// `OutOfMemory`; the registry is unchanged then.
    pub fn insert(
        &mut self,
        alloc: Global,
        oid: Oid<'_>,
        entry: OidEntry,
    ) -> Result<Option<OidEntry>, OutOfMemory>
        ensures before { IfOk result (λ old. option_map entry_view old ≡ entry_of self.old oid.entry) }
        ensures after { IfOk result (λ _. (id : List ℕ) → entry_of self.new id
            ≡ (if bytes_eq id oid.entry then Some (entry_view entry) else entry_of self.old id)) }
        ensures stays { IfErr result (λ _. (id : List ℕ) → entry_of self.new id ≡ entry_of self.old id) }
    {
        self.put(alloc, oid.as_bytes(), entry)
    }

    pub(crate) fn put(
        &mut self,
        alloc: Global,
        octets: &[u8],
        entry: OidEntry,
    ) -> Result<Option<OidEntry>, OutOfMemory>
        ensures before { IfOk result (λ old. option_map entry_view old ≡ entry_of self.old octets.now) }
        ensures after { IfOk result (λ _. (id : List ℕ) → entry_of self.new id
            ≡ (if bytes_eq id octets.now then Some (entry_view entry) else entry_of self.old id)) }
        ensures stays { IfErr result (λ _. (id : List ℕ) → entry_of self.new id ≡ entry_of self.old id) }
    {
        let key = Vec::from_slice(alloc, octets)?;
        let old = self.entries.insert(key, entry)?;
        Ok(old)
    }
}

/// The short name of the identifier in the registry.
///
/// # Errors
///
/// `NidError` if the registry has none.
pub fn oid2sn(oid: &Oid<'_>, registry: &OidRegistry) -> Result<&'static str, NidError>
    ensures { option_map (λ s. s.now) (result_ok result) ≡ option_map (λ e. e.short_name) (entry_of registry.now oid.now) }
{
    match registry.get(oid) {
        Some(entry) => Ok(entry.sn()),
        None => Err(NidError),
    }
}

/// The description of the identifier in the registry.
///
/// # Errors
///
/// `NidError` if the registry has none.
pub fn oid2description(oid: &Oid<'_>, registry: &OidRegistry) -> Result<&'static str, NidError>
    ensures { option_map (λ s. s.now) (result_ok result) ≡ option_map (λ e. e.description) (entry_of registry.now oid.now) }
{
    match registry.get(oid) {
        Some(entry) => Ok(entry.description()),
        None => Err(NidError),
    }
}
