//! What the check says of an inventory.

ghost use Rattle.std.specs.Prelude.{◌≡◌, length, IfOk, string_bytes};
ghost use Rattle.cert_judge.specs.Items.{rules_by};
ghost use Rattle.certpath_inputs.specs.cert_serving.specs.declared.permits.Permits.{Permits};
ghost use Rattle.certpath_inputs.specs.Check.{check_line};
ghost use Rattle.certpath_inputs.specs.Demands.{ArePermitsOf, VouchesWhere, demanded, target_octets};
ghost use Rattle.certpath_recheck.specs.Recheck.{IsSaidOf, IsSaidFor};

use asn1_core::OutOfMemory;
use cert_graph::Inventory;
use cert_judge::Vouch;
use cert_purpose::Restricted;
use certcheck::check_all;
use certpath_inputs::{AllSettings, AskedPurpose, Demand, Inputs, permits_of, push_check};
use std::alloc::{AllocError, Global};

/// What the check says of an inventory, by what vouches.
fn said_by<V: Vouch>(
    alloc: Global,
    inputs: &Inputs,
    settings: &AllSettings,
    vouch: &V,
    inventory: &Inventory,
) -> Result<bool, OutOfMemory>
    ensures { IfOk result (IsSaidOf (rules_by settings.now.policy.moment settings.now.policy.demand_lists (V.vouches_for vouch.now)) inputs.now.items inputs.now.anchors inventory.now) }
{
    let said = check_all(
        alloc,
        &inputs.items,
        &inputs.anchors,
        vouch,
        &settings.policy,
        inventory,
    )?;
    Ok(said)
}

/// What the check says of an inventory in which each path meets a demand. No item is the target.
fn said_within(
    alloc: Global,
    inputs: &Inputs,
    settings: &AllSettings,
    demand: &Demand<'_>,
    inventory: &Inventory,
) -> Result<bool, OutOfMemory>
    ensures { IfOk result (λ said. (permits : Permits) × ArePermitsOf (demanded demand.now (target_octets inputs.now.items.items (length inputs.now.items.items))) inputs.now.items.items permits
        × IsSaidOf (rules_by settings.now.policy.moment settings.now.policy.demand_lists (VouchesWhere permits inputs.now.vouchers)) inputs.now.items inputs.now.anchors inventory.now said) }
{
    let permits = permits_of(alloc, &inputs.items, inputs.items.len(), demand)?;
    let restricted = Restricted::new(&inputs.vouchers, &permits);
    said_by(alloc, inputs, settings, &restricted, inventory)
}

/// What the check says of an inventory on the items that were read, if a purpose may be demanded.
pub(crate) fn said_of(
    alloc: Global,
    inputs: &Inputs,
    settings: &AllSettings,
    purpose: Option<AskedPurpose<'_>>,
    inventory: &Inventory,
) -> Result<bool, OutOfMemory>
    ensures { IfOk result (IsSaidFor settings.now purpose.entry inputs.now.items inputs.now.anchors inputs.now.vouchers inventory.now) }
{
    let demand = Demand::for_purpose(purpose);
    if demand.is_none() {
        return said_by(alloc, inputs, settings, &inputs.vouchers, inventory);
    }
    said_within(alloc, inputs, settings, &demand, inventory)
}

/// The line of what the check says.
pub(crate) fn line_of(alloc: Global, said: bool) -> Result<String, AllocError>
    ensures { IfOk result (λ text. string_bytes text ≡ check_line said) }
{
    let mut text = String::new(alloc);
    push_check(&mut text, said)?;
    Ok(text)
}
