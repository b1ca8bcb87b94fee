//! Maps from access methods to locations.

ghost use Rattle.std.specs.Prelude.{◌≡◌, IfOk};
ghost use Rattle.std.specs.Slice.Iter.{iter_rest};
ghost use Rattle.x509_ext_policies.specs.Grouping.{Groups};

use crate::access::{AccessDescription, AuthorityInfoAccess, SubjectInfoAccess};
use crate::general_name::GeneralName;
use asn1_core::OutOfMemory;
use asn1_oid::Oid;
use std::alloc::Global;
use std::collections::BTreeMap;
use std::slice;
use x509_ext_policies::add_to_group;

// The places by method, lent.
fn grouped<'n, 'a>(
    alloc: Global,
    descriptions: &'n [AccessDescription<'a>],
) -> Result<BTreeMap<Oid<'a>, Vec<&'n GeneralName<'a>>>, OutOfMemory>
    ensures { IfOk result (Groups (λ n. n.now) (λ d. d.access_method) (λ d. d.access_location) descriptions.now) }
{
    let mut groups = BTreeMap::new(alloc);
    let mut rest = descriptions.iter();
    while let Some(description) = rest.next() {
        let method = description.access_method.clone(alloc)?;
        add_to_group(alloc, &mut groups, method, &description.access_location)?;
    }
    Ok(groups)
}

// The places by method, handed over.
fn into_grouped<'a>(
    alloc: Global,
    descriptions: Vec<AccessDescription<'a>>,
) -> Result<BTreeMap<Oid<'a>, Vec<GeneralName<'a>>>, OutOfMemory>
    ensures { IfOk result (Groups (λ n. n) (λ d. d.access_method) (λ d. d.access_location) descriptions.entry.items) }
{
    let mut groups = BTreeMap::new(alloc);
    let mut rest = descriptions.into_iter();
    while let Some(description) = rest.next() {
        let AccessDescription {
            access_method,
            access_location,
        } = description;
        add_to_group(alloc, &mut groups, access_method, access_location)?;
    }
    Ok(groups)
}

impl<'a> AuthorityInfoAccess<'a> {
    /// An iterator over the access descriptions, in the order of the encoding.
    pub fn iter(&self) -> slice::Iter<'_, AccessDescription<'a>>
        ensures { iter_rest result ≡ self.now.accessdescs.items }
    {
        self.accessdescs.iter()
    }

    /// A map from each access method to its locations, in the order of the encoding. Keys are
    /// sorted by their content octets.
    ///
    /// # Errors
    ///
    /// Out of memory.
    pub fn as_hashmap(
        &self,
        alloc: Global,
    ) -> Result<BTreeMap<Oid<'a>, Vec<&GeneralName<'a>>>, OutOfMemory>
        ensures { IfOk result (Groups (λ n. n.now) (λ d. d.access_method) (λ d. d.access_location) self.now.accessdescs.items) }
    {
        grouped(alloc, self.accessdescs.as_slice())
    }

    /// Consumes the descriptions; a map from each access method to its locations, in the order of
    /// the encoding.
    ///
    /// # Errors
    ///
    /// Out of memory.
    pub fn into_hashmap(
        self,
        alloc: Global,
    ) -> Result<BTreeMap<Oid<'a>, Vec<GeneralName<'a>>>, OutOfMemory>
        ensures { IfOk result (Groups (λ n. n) (λ d. d.access_method) (λ d. d.access_location) self.entry.accessdescs.items) }
    {
        into_grouped(alloc, self.accessdescs)
    }
}

impl<'a> SubjectInfoAccess<'a> {
    /// An iterator over the access descriptions, in the order of the encoding.
    pub fn iter(&self) -> slice::Iter<'_, AccessDescription<'a>>
        ensures { iter_rest result ≡ self.now.accessdescs.items }
    {
        self.accessdescs.iter()
    }

    /// A map from each access method to its locations, in the order of the encoding. Keys are
    /// sorted by their content octets.
    ///
    /// # Errors
    ///
    /// Out of memory.
    pub fn as_hashmap(
        &self,
        alloc: Global,
    ) -> Result<BTreeMap<Oid<'a>, Vec<&GeneralName<'a>>>, OutOfMemory>
        ensures { IfOk result (Groups (λ n. n.now) (λ d. d.access_method) (λ d. d.access_location) self.now.accessdescs.items) }
    {
        grouped(alloc, self.accessdescs.as_slice())
    }

    /// Consumes the descriptions; a map from each access method to its locations, in the order of
    /// the encoding.
    ///
    /// # Errors
    ///
    /// Out of memory.
    pub fn into_hashmap(
        self,
        alloc: Global,
    ) -> Result<BTreeMap<Oid<'a>, Vec<GeneralName<'a>>>, OutOfMemory>
        ensures { IfOk result (Groups (λ n. n) (λ d. d.access_method) (λ d. d.access_location) self.entry.accessdescs.items) }
    {
        into_grouped(alloc, self.accessdescs)
    }
}
