//! The lists in force of each issuer of a certificate that is reached: found once, and looked up
//! for each of its certificates.

ghost use Rattle.std.specs.Prelude.{ℕ, List, IfOk, IfSome, OnOk};
ghost use Rattle.jiff_core.specs.declared.civil.datetime.DateTime.{DateTime};
ghost use Rattle.cert_judge.specs.declared.items.ReadItem.{ReadItem};
ghost use Rattle.cert_reasons.specs.InForce.{AreListsInForce};
ghost use Rattle.certpath_why.specs.ByIssuer.{AreByIssuer};
ghost use Rattle.certpath_why.specs.Found.{IsFound};

use crate::found::{Found, certificate_at};
use cert_judge::Policy;
use cert_reasons::ListsInForce;
use std::alloc::{AllocError, Global};
use std::collections::BTreeMap;

/// The lists in force of some issuers, by their names.
#[derive(Drop)]
pub(crate) struct ListsByIssuer<'a> {
    pub(crate) by_name: BTreeMap<&'a [u8], ListsInForce<'a>>,
}

impl<'a> ListsByIssuer<'a> {
    /// Adds the lists of an issuer, if there are any and they aren't there yet.
    fn add(
        &mut self,
        alloc: Global,
        found: &Found<'_, 'a>,
        name: &'a [u8],
        policy: &Policy,
    ) -> Result<(), AllocError>
        requires known { IsFound found.now }
        requires before { AreByIssuer found.now.items.now policy.now.moment self.old }
        ensures { OnOk result (AreByIssuer found.now.items.now policy.now.moment self.new) }
    {
        let places = found.lists(name);
        if places.is_empty() || self.by_name.contains_key(name) {
            return Ok(());
        }
        let lists = ListsInForce::new(alloc, found.items, places, name, policy)?;
        self.by_name.insert(name, lists)?;
        Ok(())
    }

    /// Adds the lists of the issuer of the certificate at a position.
    fn add_at(
        &mut self,
        alloc: Global,
        found: &Found<'_, 'a>,
        place: usize,
        policy: &Policy,
    ) -> Result<(), AllocError>
        requires known { IsFound found.now }
        requires before { AreByIssuer found.now.items.now policy.now.moment self.old }
        ensures { OnOk result (AreByIssuer found.now.items.now policy.now.moment self.new) }
    {
        let Some(certificate) = certificate_at(found.items, place) else {
            return Ok(());
        };
        self.add(alloc, found, certificate.issuer, policy)?;
        Ok(())
    }

    /// The lists in force of the issuers of the target and of further certificates. It costs one
    /// pass over the entries of the lists of each of them, and a sort of their serial numbers.
    pub(crate) fn new(
        alloc: Global,
        found: &Found<'_, 'a>,
        target: usize,
        further: &[usize],
        policy: &Policy,
    ) -> Result<ListsByIssuer<'a>, AllocError>
        requires { IsFound found.now }
        ensures { IfOk result (AreByIssuer found.now.items.now policy.now.moment) }
    {
        let mut lists = ListsByIssuer {
            by_name: BTreeMap::new(alloc),
        };
        lists.add_at(alloc, found, target, policy)?;
        for place in further {
            lists.add_at(alloc, found, *place, policy)?;
        }
        Ok(lists)
    }

    /// The lists in force of an issuer, if it is one of these.
    pub(crate) fn of(&self, name: &[u8]) -> Option<&ListsInForce<'a>>
        ensures { (xs : List ReadItem) (moment : DateTime) → AreByIssuer xs moment self.now
            → IfSome result (λ lists. AreListsInForce xs moment name.now lists.now) }
    {
        self.by_name.get(name)
    }
}
