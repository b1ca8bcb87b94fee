//! Revocation lists: which are in force, which are used under an issuer's name and key, and which
//! serial numbers they have (RFC 5280, 5 and 6.3). Reasons ask this list by list; an answer's lists
//! are gone over by `standing`, which asks for whole groups at once.

ghost use Rattle.std.specs.Prelude.{◌≡◌, ◌↔◌, map, All, Any, IsTrue};
ghost use Rattle.cert_model.specs.Fields.{Entry};
ghost use Rattle.cert_model.specs.View.{ext_view, entry_view, list_view, time_view};
ghost use Rattle.cert_judge.specs.Revoking.{AreUncritical, IsCurrent, IsPlain};
ghost use Rattle.cert_judge.specs.Items.{IsUsed, IsListWith};

use crate::Vouch;
use crate::items::{ListItem, ReadItem};
use crate::moments::is_between;
use cert_model::fields::{EntryFields, ExtField, ListFields};
use jiff::civil::DateTime;

/// Whether no extension is critical: of those of a list or of an entry, none is judged here
/// (RFC 5280, 5.2 and 5.3). A step for each.
pub fn are_uncritical(extensions: &[ExtField<'_>]) -> bool
    ensures { IsTrue result ↔ AreUncritical (map ext_view extensions.now) }
{
    extensions.iter().all(|extension| !extension.critical)
}

fn is_plain_entry(entry: &EntryFields<'_>) -> bool
    ensures { IsTrue result ↔ AreUncritical (entry_view entry.now).extensions }
{
    are_uncritical(&entry.extensions)
}

fn are_plain_entries(entries: &[EntryFields<'_>]) -> bool
    ensures { IsTrue result ↔ All (λ (n : Entry). AreUncritical n.extensions) (map entry_view entries.now) }
{
    entries.iter().all(|entry| is_plain_entry(entry))
}

fn is_plain(list: &ListFields<'_>) -> bool
    ensures { IsTrue result ↔ IsPlain (list_view list.now) }
{
    are_uncritical(&list.extensions) && are_plain_entries(&list.entries)
}

fn is_current(list: &ListFields<'_>, moment: &DateTime) -> bool
    ensures { IsTrue result ↔ IsCurrent (time_view moment.now) (list_view list.now) }
{
    match &list.next_update {
        Some(next) => is_between(&list.this_update, moment, next),
        None => false,
    }
}

/// Whether a list is in force at a moment (RFC 5280, 5.1.2.4 and 5.1.2.5): the moment is from
/// `this_update` to `next_update`, both included, and neither the list nor an entry of it has a
/// critical extension. One without `next_update` never is. It takes no memory, and a step for each
/// entry and extension.
pub fn is_in_force(list: &ListFields<'_>, moment: &DateTime) -> bool
    ensures current { IsTrue result → IsCurrent (time_view moment.now) (list_view list.now) }
    ensures plain { IsTrue result → IsPlain (list_view list.now) }
    ensures only { IsCurrent (time_view moment.now) (list_view list.now) → IsPlain (list_view list.now) → IsTrue result }
{
    if !is_current(list, moment) {
        return false;
    }
    is_plain(list)
}

fn is_of(entry: &EntryFields<'_>, serial: &[u8]) -> bool
    ensures { IsTrue result ↔ ((entry_view entry.now).serial ≡ serial.now) }
{
    entry.serial == serial
}

/// Whether one of the entries has this serial number, by its content octets (RFC 5280, 5.1.2.6). A
/// step for each entry.
pub fn has_entry(entries: &[EntryFields<'_>], serial: &[u8]) -> bool
    ensures { IsTrue result ↔ Any (λ (n : Entry). n.serial ≡ serial.now) (map entry_view entries.now) }
{
    for entry in entries {
        if is_of(entry, serial) {
            return true;
        }
    }
    false
}

/// Whether a list is used under a name and key.
fn is_used<V: Vouch>(
    list: &ListItem<'_>,
    vouch: &V,
    moment: &DateTime,
    name: &[u8],
    key: &[u8],
) -> bool
    ensures { IsTrue result ↔ IsUsed (V.vouches_for vouch.now) moment.now name.now key.now list.now }
{
    if list.issuer != name {
        return false;
    }
    if !is_current(&list.fields, moment) {
        return false;
    }
    if !is_plain(&list.fields) {
        return false;
    }
    vouch.vouches(key, list.octets)
}

/// Whether an item is a list that is used under a name and key (RFC 5280, 6.3.3): it has that
/// issuer, is in force at the moment, and the key vouches for it. `name` is a whole Name element,
/// `key` a whole SubjectPublicKeyInfo. The voucher is asked only of a list of this issuer that is
/// in force.
pub fn is_used_item<V: Vouch>(
    item: &ReadItem<'_>,
    vouch: &V,
    moment: &DateTime,
    name: &[u8],
    key: &[u8],
) -> bool
    ensures { IsTrue result ↔ IsListWith (IsUsed (V.vouches_for vouch.now) moment.now name.now key.now) item.now }
{
    match item {
        ReadItem::List(list) => is_used(list, vouch, moment, name, key),
        _ => false,
    }
}
