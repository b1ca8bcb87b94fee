//! Object identifiers as windows of an item. Those of the readers are windows; one that owns its
//! octets is searched for.

ghost use Rattle.std.specs.Prelude.{◌≡◌};
ghost use Rattle.certpath_typed.specs.Told.{TellsIdentifier};

use asn1_oid::Oid;

/// Returns the first occurrence of `octets` in `item`, as a window of it; empty if there is none.
fn place_of<'a>(item: &'a [u8], octets: &[u8]) -> &'a [u8]
    ensures { TellsIdentifier item.now octets.now result.now }
{
    let mut rest = item;
    while !rest.starts_with(octets) {
        match rest.split_first() {
            Some((_, after)) => rest = after,
            None => return rest,
        }
    }
    &rest[..octets.len()]
}

/// Returns the content octets of an identifier as a window of the item: those that it borrows. An
/// identifier that owns its octets, which no reader makes, is searched for in the item; if it isn't
/// there, the result is empty, as no identifier is.
pub(crate) fn identifier<'a>(item: &'a [u8], oid: &Oid<'a>) -> &'a [u8]
    ensures { TellsIdentifier item.now oid.now result.now }
{
    match oid.borrowed() {
        Some(octets) => octets,
        None => place_of(item, oid.as_bytes()),
    }
}
