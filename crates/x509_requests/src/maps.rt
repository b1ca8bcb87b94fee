//! Maps from types to attributes.

ghost use Rattle.std.specs.Prelude.{◌≡◌, ℕ, List, IfOk, OnOk, IfErr, option_map};
ghost use Rattle.x509_core.specs.declared.error.X509Error.TheVariants.{DuplicateAttributes};
ghost use Rattle.x509_ext.specs.Maps.{held_at, AreDistinct, IsWhyNone};
ghost use Rattle.x509_requests.specs.Lookup.{attributes_of, first_attribute};

use crate::attribute::X509CriAttribute;
use crate::info::X509CertificationRequestInfo;
use asn1_oid::Oid;
use std::alloc::Global;
use std::collections::BTreeMap;
use x509_core::X509Error;
use x509_ext::add_once;

fn attributes_map<'n, 'a>(
    alloc: Global,
    attributes: &'n [X509CriAttribute<'a>],
) -> Result<BTreeMap<Oid<'a>, &'n X509CriAttribute<'a>>, X509Error>
    ensures distinct { OnOk result (AreDistinct (λ a. a.oid) attributes.now) }
    ensures held { IfOk result (λ by_oid. (id : List ℕ)
        → option_map (λ a. a.now) (held_at by_oid id) ≡ first_attribute (attributes_of id attributes.now)) }
    ensures refused { IfErr result (IsWhyNone DuplicateAttributes (λ a. a.oid) attributes.now) }
{
    let mut by_oid = BTreeMap::new(alloc);
    let mut rest = attributes.iter();
    while let Some(attribute) = rest.next() {
        let oid = attribute.oid.clone(alloc)?;
        if !add_once(&mut by_oid, oid, attribute)? {
            return Err(X509Error::DuplicateAttributes);
        }
    }
    Ok(by_oid)
}

impl<'a> X509CertificationRequestInfo<'a> {
    /// A map from each type to its attribute, sorted by the types' content octets. Takes n log n
    /// time for n attributes.
    ///
    /// # Errors
    ///
    /// `DuplicateAttributes` if two have the same type; out of memory.
    pub fn attributes_map(
        &self,
        alloc: Global,
    ) -> Result<BTreeMap<Oid<'a>, &X509CriAttribute<'a>>, X509Error>
        ensures distinct { OnOk result (AreDistinct (λ a. a.oid) self.now.attributes.items) }
        ensures held { IfOk result (λ by_oid. (id : List ℕ)
            → option_map (λ a. a.now) (held_at by_oid id) ≡ first_attribute (attributes_of id self.now.attributes.items)) }
        ensures refused { IfErr result (IsWhyNone DuplicateAttributes (λ a. a.oid) self.now.attributes.items) }
    {
        attributes_map(alloc, self.attributes())
    }
}
