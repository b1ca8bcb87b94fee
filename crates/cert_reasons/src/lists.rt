//! Why a revocation list is not used (RFC 5280, 5 and 6.3.3).

ghost use Rattle.std.specs.Prelude.{◌≡◌, ◌↔◌, [], ℕ, map, option_map, IsTrue, IfOk, OnOk, Any, true, false, Some, None};
ghost use Rattle.cert_graph.specs.Entries.{IsAt};
ghost use Rattle.cert_model.specs.Fields.{CivilTime, Extension, Entry};
ghost use Rattle.cert_model.specs.View.{ext_view, entry_view, time_view};
ghost use Rattle.cert_judge.specs.Moments.{IsNotAfter};
ghost use Rattle.cert_judge.specs.Revoking.{AreUncritical, IsCurrent, IsPlain, IsUsedList};
ghost use Rattle.cert_judge.specs.Vouching.{vouching_alone};
ghost use Rattle.cert_judge.specs.Items.{list_of, list_item, rules_by};
ghost use Rattle.cert_reasons.specs.Order.{AreAll, AreUpTo, behind};
ghost use Rattle.cert_reasons.specs.Lists.{HasListReason, HasReasonAmong, list_order};

use cert_judge::{ListItem, Policy, Vouch, are_uncritical, is_in_force, is_not_after};
use cert_model::fields::{EntryFields, ExtField};
use jiff::civil::DateTime;
use std::alloc::{AllocError, Global};

/// Why a revocation list is not used at a moment under a key of its issuer. Extensions and entries are
/// counted from 0.
#[derive(Clone, Copy, Debug, PartialEq, Eq)]
pub enum Unused {
    /// No voucher says that the key signed it.
    NotVouched,
    /// It has no nextUpdate (RFC 5280, 5.1.2.5).
    NoNextUpdate,
    /// Its thisUpdate is later than the moment (RFC 5280, 5.1.2.4).
    NotYetCurrent,
    /// Its nextUpdate is earlier than the moment (RFC 5280, 5.1.2.5).
    PastNextUpdate,
    /// The extension of the list at this position is critical (RFC 5280, 5.2).
    CriticalOfList(usize),
    /// The entry at this position has a critical extension (RFC 5280, 5.3).
    CriticalOfEntry(usize),
}

fn is_critical(extension: &ExtField<'_>) -> bool
    ensures { IsTrue result ↔ ((ext_view extension.now).critical ≡ true) }
{
    extension.critical
}

fn is_critical_at(extensions: &[ExtField<'_>], place: usize) -> bool
    ensures { IsTrue result ↔ IsAt (map ext_view extensions.now) place (λ (e : Extension). e.critical ≡ true) }
{
    match extensions.get(place) {
        Some(extension) => is_critical(extension),
        None => false,
    }
}

fn has_critical(entry: &EntryFields<'_>) -> bool
    ensures { IsTrue result ↔ (AreUncritical (entry_view entry.now).extensions → ⊥) }
{
    !are_uncritical(&entry.extensions)
}

fn has_critical_at(entries: &[EntryFields<'_>], place: usize) -> bool
    ensures { IsTrue result ↔ IsAt (map entry_view entries.now) place (λ (n : Entry). AreUncritical n.extensions → ⊥) }
{
    match entries.get(place) {
        Some(entry) => has_critical(entry),
        None => false,
    }
}

fn has_no_next(next: &Option<DateTime>) -> bool
    ensures { IsTrue result ↔ (option_map time_view next.now ≡ None) }
{
    match next {
        Some(_) => false,
        None => true,
    }
}

fn is_past(next: &Option<DateTime>, moment: &DateTime) -> bool
    ensures { IsTrue result ↔ ((t : CivilTime) × (option_map time_view next.now ≡ Some t) × (IsNotAfter (time_view moment.now) t → ⊥)) }
{
    match next {
        Some(next) => !is_not_after(moment, next),
        None => false,
    }
}

/// Whether a reason applies to a list, given whether the key vouches for it.
pub fn has_list_reason(
    list: &ListItem<'_>,
    moment: &DateTime,
    vouched: bool,
    reason: Unused,
) -> bool
    ensures { IsTrue result ↔ (HasListReason (rules_by moment.now false (vouching_alone (λ k i. IsTrue vouched))) [] (list_item list.now) (list_of list.now)) reason }
{
    match reason {
        Unused::NotVouched => !vouched,
        Unused::NoNextUpdate => has_no_next(&list.fields.next_update),
        Unused::NotYetCurrent => !is_not_after(&list.fields.this_update, moment),
        Unused::PastNextUpdate => is_past(&list.fields.next_update, moment),
        Unused::CriticalOfList(place) => is_critical_at(&list.fields.extensions, place),
        Unused::CriticalOfEntry(place) => has_critical_at(&list.fields.entries, place),
    }
}

/// Adds a reason, if it applies.
fn add(
    found: &mut Vec<Unused>,
    list: &ListItem<'_>,
    moment: &DateTime,
    vouched: bool,
    reason: Unused,
) -> Result<(), AllocError>
    requires { AreUpTo list_order (HasListReason (rules_by moment.now false (vouching_alone (λ k i. IsTrue vouched))) [] (list_item list.now) (list_of list.now)) (list_order reason) found.old.items }
    ensures { OnOk result (AreUpTo list_order (HasListReason (rules_by moment.now false (vouching_alone (λ k i. IsTrue vouched))) [] (list_item list.now) (list_of list.now)) (behind (list_order reason)) found.new.items) }
{
    if has_list_reason(list, moment, vouched, reason) {
        found.push(reason)?;
    }
    Ok(())
}

fn add_moments(
    found: &mut Vec<Unused>,
    list: &ListItem<'_>,
    moment: &DateTime,
    vouched: bool,
) -> Result<(), AllocError>
    requires { AreUpTo list_order (HasListReason (rules_by moment.now false (vouching_alone (λ k i. IsTrue vouched))) [] (list_item list.now) (list_of list.now)) (0, 0) found.old.items }
    ensures { OnOk result (AreUpTo list_order (HasListReason (rules_by moment.now false (vouching_alone (λ k i. IsTrue vouched))) [] (list_item list.now) (list_of list.now)) (4, 0) found.new.items) }
{
    add(found, list, moment, vouched, Unused::NotVouched)?;
    add(found, list, moment, vouched, Unused::NoNextUpdate)?;
    add(found, list, moment, vouched, Unused::NotYetCurrent)?;
    add(found, list, moment, vouched, Unused::PastNextUpdate)?;
    Ok(())
}

fn add_of_list(
    found: &mut Vec<Unused>,
    list: &ListItem<'_>,
    moment: &DateTime,
    vouched: bool,
) -> Result<(), AllocError>
    requires { AreUpTo list_order (HasListReason (rules_by moment.now false (vouching_alone (λ k i. IsTrue vouched))) [] (list_item list.now) (list_of list.now)) (4, 0) found.old.items }
    ensures { OnOk result (AreUpTo list_order (HasListReason (rules_by moment.now false (vouching_alone (λ k i. IsTrue vouched))) [] (list_item list.now) (list_of list.now)) (5, 0) found.new.items) }
{
    let extensions = list.fields.extensions.as_slice();
    for place in 0..extensions.len() {
        add(found, list, moment, vouched, Unused::CriticalOfList(place))?;
    }
    Ok(())
}

fn add_of_entries(
    found: &mut Vec<Unused>,
    list: &ListItem<'_>,
    moment: &DateTime,
    vouched: bool,
) -> Result<(), AllocError>
    requires { AreUpTo list_order (HasListReason (rules_by moment.now false (vouching_alone (λ k i. IsTrue vouched))) [] (list_item list.now) (list_of list.now)) (5, 0) found.old.items }
    ensures { OnOk result (AreUpTo list_order (HasListReason (rules_by moment.now false (vouching_alone (λ k i. IsTrue vouched))) [] (list_item list.now) (list_of list.now)) (6, 0) found.new.items) }
{
    let entries = list.fields.entries.as_slice();
    for place in 0..entries.len() {
        add(found, list, moment, vouched, Unused::CriticalOfEntry(place))?;
    }
    Ok(())
}

fn is_used(list: &ListItem<'_>, moment: &DateTime, vouched: bool) -> bool
    ensures { IsTrue result ↔ (IsTrue vouched × IsCurrent (time_view moment.now) (list_of list.now) × IsPlain (list_of list.now)) }
{
    if !vouched {
        return false;
    }
    is_in_force(&list.fields, moment)
}

/// The reasons why a list is not used at a moment under a key of its issuer, given whether the key
/// vouches for it. Exactly those that apply, in their order; none if it is used.
///
/// The only error is out of memory. It costs one pass over the extensions and entries.
pub fn why_list_unused(
    alloc: Global,
    list: &ListItem<'_>,
    moment: &DateTime,
    vouched: bool,
) -> Result<Vec<Unused>, AllocError>
    ensures all { IfOk result (λ found. AreAll list_order (HasListReason (rules_by moment.now false (vouching_alone (λ k i. IsTrue vouched))) [] (list_item list.now) (list_of list.now)) found.items) }
    ensures none { IfOk result (λ found. (found.items ≡ []) ↔ (IsTrue vouched × IsCurrent (time_view moment.now) (list_of list.now) × IsPlain (list_of list.now))) }
{
    let mut found = Vec::new(alloc);
    if is_used(list, moment, vouched) {
        return Ok(found);
    }
    add_moments(&mut found, list, moment, vouched)?;
    add_of_list(&mut found, list, moment, vouched)?;
    add_of_entries(&mut found, list, moment, vouched)?;
    Ok(found)
}

fn is_vouched_by_any<V: Vouch>(vouch: &V, keys: &[&[u8]], item: &[u8]) -> bool
    ensures { IsTrue result ↔ Any (λ key. (V.vouches_for vouch.now).Vouches key.now item.now) keys.now }
{
    for key in keys {
        if vouch.vouches(key, item) {
            return true;
        }
    }
    false
}

/// The reasons why a revocation list is used under none of some keys: those of all items and anchors
/// whose subject is its issuer. Exactly those that apply under each of the keys, in their order; none
/// if it is used under one. Without a key `NotVouched` applies.
///
/// The only error is out of memory. It asks the voucher at most once for each key, and costs one pass
/// over the extensions and entries.
pub fn why_list_unused_by_any<V: Vouch>(
    alloc: Global,
    list: &ListItem<'_>,
    keys: &[&[u8]],
    vouch: &V,
    policy: &Policy,
) -> Result<Vec<Unused>, AllocError>
    ensures all { IfOk result (λ found. AreAll list_order (HasReasonAmong (rules_by policy.now.moment policy.now.demand_lists (V.vouches_for vouch.now)) (map (λ k. k.now) keys.now) (list_item list.now) (list_of list.now)) found.items) }
    ensures none { IfOk result (λ found. (found.items ≡ [])
        ↔ Any (λ key. IsUsedList (rules_by policy.now.moment policy.now.demand_lists (V.vouches_for vouch.now)) list.now.issuer.now key (list_item list.now) (list_of list.now)) (map (λ k. k.now) keys.now)) }
{
    let moment = policy.moment();
    let vouched = is_vouched_by_any(vouch, keys, list.octets);
    let found = why_list_unused(alloc, list, &moment, vouched)?;
    Ok(found)
}
