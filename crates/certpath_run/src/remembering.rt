//! A cache of digests for the keys and items of a run, so that none is hashed twice.

ghost use Rattle.std.specs.Prelude.{◌≡◌};

use cert_judge::JudgedItem;
use cert_vouchers::{RememberedVouchers, Vouchers};
use std::alloc::Global;

/// Prepares for an item: whoever issued it may vouch for it, and its key for others if it is fit
/// to issue.
fn expect_item<'a>(remembered: &mut RememberedVouchers<'a>, item: &JudgedItem<'a>)
    ensures { remembered.new.vouchers.now ≡ remembered.old.vouchers.now }
{
    match item {
        JudgedItem::Certificate(certificate) => {
            remembered.expect_item(certificate.octets);
            if certificate.node.fit {
                remembered.expect_key(certificate.key);
            }
        }
        JudgedItem::List(list) => remembered.expect_item(list.octets),
        JudgedItem::Other => {}
    }
}

/// Prepares for an anchor, whose key may vouch for items.
fn expect_anchor<'a>(remembered: &mut RememberedVouchers<'a>, anchor: &JudgedItem<'a>)
    ensures { remembered.new.vouchers.now ≡ remembered.old.vouchers.now }
{
    if let JudgedItem::Certificate(certificate) = anchor {
        remembered.expect_key(certificate.key);
    }
}

/// Returns the vouchers with a cache: they hash each text of these items and anchors at most once.
pub(crate) fn remembered_for<'a>(
    alloc: Global,
    vouchers: &'a Vouchers,
    items: &[JudgedItem<'a>],
    anchors: &[JudgedItem<'a>],
) -> RememberedVouchers<'a>
    ensures { result.vouchers.now ≡ vouchers.now }
{
    let mut remembered = RememberedVouchers::new(alloc, vouchers);
    for item in items {
        expect_item(&mut remembered, item);
    }
    for anchor in anchors {
        expect_anchor(&mut remembered, anchor);
    }
    remembered
}
