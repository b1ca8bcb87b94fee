//! Maps from the issuer's policies to the subject's.

ghost use Rattle.std.specs.Prelude.{IfOk};
ghost use Rattle.x509_ext_policies.specs.Grouping.{Groups};

use crate::grouping::add_to_group;
use crate::mappings::{PolicyMapping, PolicyMappings};
use asn1_core::OutOfMemory;
use asn1_oid::Oid;
use std::alloc::Global;
use std::collections::BTreeMap;

impl<'a> PolicyMappings<'a> {
    /// A map from each policy of the issuer's domain to those of the subject's, in the order of the
    /// encoding. Keys are sorted by their content octets.
    ///
    /// # Errors
    ///
    /// Out of memory.
    pub fn as_hashmap(&self, alloc: Global) -> Result<BTreeMap<Oid<'a>, Vec<&Oid<'a>>>, OutOfMemory>
        ensures { IfOk result (Groups (λ o. o.now) (λ m. m.issuer_domain_policy) (λ m. m.subject_domain_policy) self.now.mappings.items) }
    {
        let mut groups = BTreeMap::new(alloc);
        let mut rest = self.mappings.iter();
        while let Some(mapping) = rest.next() {
            let issuer = mapping.issuer_domain_policy.clone(alloc)?;
            add_to_group(alloc, &mut groups, issuer, &mapping.subject_domain_policy)?;
        }
        Ok(groups)
    }

    /// Consumes the mappings; a map from each policy of the issuer's domain to those of the
    /// subject's, in the order of the encoding.
    ///
    /// # Errors
    ///
    /// Out of memory.
    pub fn into_hashmap(self, alloc: Global) -> Result<BTreeMap<Oid<'a>, Vec<Oid<'a>>>, OutOfMemory>
        ensures { IfOk result (Groups (λ o. o) (λ m. m.issuer_domain_policy) (λ m. m.subject_domain_policy) self.entry.mappings.items) }
    {
        let mut groups = BTreeMap::new(alloc);
        let mut rest = self.mappings.into_iter();
        while let Some(mapping) = rest.next() {
            let PolicyMapping {
                issuer_domain_policy,
                subject_domain_policy,
            } = mapping;
            add_to_group(
                alloc,
                &mut groups,
                issuer_domain_policy,
                subject_domain_policy,
            )?;
        }
        Ok(groups)
    }
}
