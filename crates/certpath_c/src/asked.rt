//! What is asked of paths: files, vouchers, and settings.

ghost use Rattle.std.specs.Prelude.{◌≡◌, ◌≤ℤ◌, pos, IfOk, OnOk, OnSome, IfSome, IfNone};
ghost use Rattle.std.specs.Bool.{OnTrue, OnFalse};
ghost use Rattle.certpath_c.specs.Asked.{demands, IsCivil, IsCivilOf, IsOnePairMore, ArePairs, AreInputs, IsMomentOf, IsNoMoment, IsPolicyOf};

use crate::framing::items_of;
use crate::times::Moment;
use asn1_core::OutOfMemory;
use cert_framing::Items;
use cert_judge::Policy;
use cert_vouchers::{RememberedVouchers, Vouchers};
use jiff::civil::DateTime;
use std::alloc::Global;

/// The SHA-256 digests of a key and of an item that it vouches for.
#[repr(C)]
#[derive(Clone, Copy, Debug)]
pub struct Voucher {
    pub key: [u8; 32],
    pub item: [u8; 32],
}

/// From which item a path is asked for, how it is judged, and for which purpose and host.
#[repr(C)]
#[derive(Clone, Copy, Debug)]
pub struct Settings<'a> {
    pub target: usize,
    pub limit: u32,
    pub demands_lists: u32,
    pub moment: Moment,
    pub purpose: &'a [u8],
    pub host: &'a [u8],
}

/// What was read of the files and the vouchers.
#[derive(Drop)]
pub(crate) struct Inputs {
    pub items: Items,
    pub anchors: Items,
    pub vouchers: Vouchers,
}

/// The date and time of the calendar and the clock that a caller means.
fn civil_of(moment: &Moment) -> Option<DateTime>
    ensures found { IfSome result (IsCivilOf moment.now) }
    ensures is { OnSome result (IsCivil moment.now) }
    ensures none { IfNone result (IsCivil moment.now → ⊥) }
{
    match DateTime::new(
        moment.year,
        moment.month,
        moment.day,
        moment.hour,
        moment.minute,
        moment.second,
        0,
    ) {
        Ok(time) => Some(time),
        Err(_) => None,
    }
}

/// Whether a moment is before the year 0.
fn is_early(moment: &Moment) -> bool
    ensures early { OnTrue result (pos 0 ≤ℤ moment.now.year → ⊥) }
    ensures late { OnFalse result (pos 0 ≤ℤ moment.now.year) }
{
    moment.year < 0
}

/// The moment that a caller means, of the years 0 to 9999.
fn moment_of(moment: &Moment) -> Option<DateTime>
    ensures found { IfSome result (IsMomentOf moment.now) }
    ensures none { IfNone result (IsNoMoment moment.now) }
{
    if is_early(moment) {
        return None;
    }
    match civil_of(moment) {
        Some(time) => Some(time),
        None => None,
    }
}

fn demands(settings: &Settings<'_>) -> bool
    ensures { result ≡ demands settings.now }
{
    settings.demands_lists != 0
}

/// The policy of settings; none if their moment is no date and time.
pub(crate) fn policy_of(settings: &Settings<'_>) -> Option<Policy>
    ensures found { IfSome result (IsPolicyOf settings.now) }
    ensures none { IfNone result (IsNoMoment settings.now.moment) }
{
    let moment = moment_of(&settings.moment)?;
    Some(Policy::new(moment, demands(settings)))
}

fn push_pair(pairs: &mut Vouchers, voucher: &Voucher) -> Result<(), OutOfMemory>
    ensures { OnOk result (IsOnePairMore pairs.old pairs.new voucher.now) }
{
    pairs.push(voucher.key, voucher.item)
}

fn pairs_of(alloc: Global, vouchers: &[Voucher]) -> Result<Vouchers, OutOfMemory>
    ensures { IfOk result (ArePairs vouchers.now) }
{
    let mut pairs = Vouchers::new(alloc);
    for voucher in vouchers {
        push_pair(&mut pairs, voucher)?;
    }
    Ok(pairs)
}

/// Reads both files and the vouchers. The only error is out of memory.
pub(crate) fn inputs_of(
    alloc: Global,
    bundle: &[u8],
    anchors: &[u8],
    vouchers: &[Voucher],
    limit: u32,
) -> Result<Inputs, OutOfMemory>
    ensures { IfOk result (λ i. AreInputs bundle.now anchors.now vouchers.now limit i.items i.anchors i.vouchers) }
{
    let items = items_of(alloc, bundle, limit)?;
    let anchors = items_of(alloc, anchors, limit)?;
    let vouchers = pairs_of(alloc, vouchers)?;
    Ok(Inputs {
        items,
        anchors,
        vouchers,
    })
}

/// The vouchers with a memory of the items, each of which is hashed at most once then, and equal ones
/// once together. What memory is refused for isn't remembered.
pub(crate) fn remembered_of<'a>(alloc: Global, inputs: &'a Inputs) -> RememberedVouchers<'a>
    ensures { result.vouchers.now ≡ inputs.now.vouchers }
{
    let mut remembered = RememberedVouchers::new(alloc, &inputs.vouchers);
    for k in 0..inputs.items.len() {
        remembered.expect_item(inputs.items.get(k));
    }
    remembered
}
