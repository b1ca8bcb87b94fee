//! Which items of a question may be in a path.

ghost use Rattle.std.specs.Prelude.{◌≡◌, ◌↔◌, ℕ, List, IsTrue, IsSome, IsNone, IfSome, IsSomeAnd, IfOk};
ghost use Rattle.std.specs.BTreeSet as sorted;
ghost use Rattle.cert_serving.specs.Demanding.{PermitsOf, ProcessesFor};
ghost use Rattle.cert_serving.specs.Refusing.{HasRefused, are_permitted, are_processed};
ghost use Rattle.cert_serving.specs.View.{demands_view};

use crate::demands::Demands;
use crate::item::is_permitted;
use crate::serving::SUBJECT_ALT_NAME;
use asn1_core::OutOfMemory;
use cert_framing::Items;
use cert_model::identifiers::is_ce;
use cert_purpose::{EXTENDED_KEY_USAGE, Permit};
use std::alloc::Global;
use std::collections::BTreeSet;

/// Which items of a question meet demands: those that are no certificate, and the certificates that
/// allow the purpose and, if they are the target, serve the host. What is so looked at is
/// processed: extKeyUsage in each item, if a purpose is demanded, and subjectAltName in the
/// target, if a host is. So these may be critical there, as RFC 3161, 2.3, wants of time
/// stamping.
///
/// What an item is permitted is worked out once, by `new`; `is_permitted` looks it up by its
/// octets, in as many comparisons as a look-up in a sorted set of the refused items.
#[derive(Drop)]
pub struct Permits<'a> {
    refused: BTreeSet<&'a [u8]>,
    /// A purpose is demanded.
    has_purpose: bool,
    /// The octets of the target, if a host is demanded.
    host_target: Option<&'a [u8]>,
}

/// The items that don't meet the demands.
fn refused_of<'a>(
    alloc: Global,
    items: &'a Items,
    demands: &Demands<'_>,
) -> Result<BTreeSet<&'a [u8]>, OutOfMemory>
    ensures { IfOk result (HasRefused (demands_view demands.now) items.now.items) }
{
    let mut refused = BTreeSet::new(alloc);
    for place in 0..items.len() {
        let octets = items.get(place);
        if !is_permitted(alloc, octets, demands)? {
            refused.insert(octets)?;
        }
    }
    Ok(refused)
}

fn has_purpose(demands: &Demands<'_>) -> bool
    ensures { IsTrue result ↔ IsSome (demands_view demands.now).purpose }
{
    match demands.purpose {
        Some(_) => true,
        None => false,
    }
}

/// The octets of the target, if a host is demanded.
fn host_target<'a>(demands: &Demands<'a>) -> Option<&'a [u8]>
    ensures found { IfSome result (λ t. IsSome (demands_view demands.now).host × (t.now ≡ (demands_view demands.now).target)) }
    ensures only { IsNone result → IsSome (demands_view demands.now).host → ⊥ }
{
    match &demands.host {
        Some(_) => Some(demands.target),
        None => None,
    }
}

impl<'a> Permits<'a> {
    /// Works out which items meet the demands. Each is read at most once, and only if something
    /// is demanded of it: with a host alone, the items whose octets are the target's. Time and
    /// memory are linear in the items that are read, apart from the look-ups in the set of those
    /// refused.
    pub fn new(
        alloc: Global,
        items: &'a Items,
        demands: &Demands<'a>,
    ) -> Result<Permits<'a>, OutOfMemory>
        ensures permits { IfOk result (λ p. PermitsOf (demands_view demands.now) items.now.items (are_permitted p)) }
        ensures processes { IfOk result (λ p. ProcessesFor (demands_view demands.now) (are_processed p)) }
    {
        let refused = refused_of(alloc, items, demands)?;
        let has_purpose = has_purpose(demands);
        let host_target = host_target(demands);
        Ok(Permits {
            refused,
            has_purpose,
            host_target,
        })
    }

    /// Whether a host is demanded, and these are the octets of the target.
    fn is_host_target(&self, item: &[u8]) -> bool
        ensures { IsTrue result ↔ IsSomeAnd self.now.host_target (λ t. item.now ≡ t.now) }
    {
        match self.host_target {
            Some(target) => item == target,
            None => false,
        }
    }
}

impl Permit for Permits<'_> {
    ghost use Rattle.cert_serving.specs.Refusing.{are_permitted, are_processed};

    /// All items but those that were refused.
    ghost permits = { are_permitted };

    /// What the demands look at.
    ghost processes = { are_processed };

    fn is_permitted(&self, item: &[u8]) -> bool {
        !self.refused.contains(item)
    }

    fn is_processed(&self, item: &[u8], identifier: &[u8]) -> bool {
        if self.has_purpose && is_ce(identifier, EXTENDED_KEY_USAGE) {
            return true;
        }
        self.is_host_target(item) && is_ce(identifier, SUBJECT_ALT_NAME)
    }
}
