//! SignedData (RFC 5652, 3 and 5.1), in DER.

ghost use Rattle.std.specs.Prelude.{◌≡◌, option_map, option_copied};
ghost use Rattle.certpath_files.specs.PartViews.{part_view};
ghost use Rattle.certpath_files.specs.Signed.{strict_as, only_as, optional_as, content_of_info, sets_in, sets_after, signed_sets};
ghost use Rattle.certpath_files.specs.SignedViews.{sets_view};

use crate::parts::{Part, strict_part_at};

/// The content octets of the certificates and of the revocation lists of SignedData.
#[derive(Clone, Copy)]
pub(crate) struct Sets<'a> {
    pub(crate) certificates: &'a [u8],
    pub(crate) lists: &'a [u8],
}

/// The element at the front, if it has this first octet.
fn strict_as(first: u8, octets: &[u8]) -> Option<Part<'_>>
    ensures { option_map part_view result ≡ strict_as first octets.now }
{
    let part = strict_part_at(octets)?;
    if part.first == first {
        Some(part)
    } else {
        None
    }
}

/// The content of the one element that the octets are, if it has this first octet.
fn only_as(first: u8, octets: &[u8]) -> Option<&[u8]>
    ensures { option_copied result ≡ only_as first octets.now }
{
    let part = strict_as(first, octets)?;
    if part.rest.is_empty() {
        Some(part.content)
    } else {
        None
    }
}

/// The element at the front, if it has this first octet, or else one without content before the
/// octets.
fn optional_as(first: u8, octets: &[u8]) -> Part<'_>
    ensures { part_view result ≡ optional_as first octets.now }
{
    match strict_as(first, octets) {
        Some(part) => part,
        None => Part {
            first,
            content: &[],
            rest: octets,
        },
    }
}

/// The content of the SignedData that a ContentInfo holds.
fn content_of_info(octets: &[u8]) -> Option<&[u8]>
    ensures { option_copied result ≡ content_of_info octets.now }
{
    let info = only_as(0x30, octets)?;
    let identifier = strict_as(0x06, info)?;
    if identifier.content != b"\x2a\x86\x48\x86\xf7\x0d\x01\x07\x02".as_slice() {
        return None;
    }
    let explicit = only_as(0xa0, identifier.rest)?;
    only_as(0x30, explicit)
}

/// The sets after the first three parts.
fn sets_after(octets: &[u8]) -> Option<Sets<'_>>
    ensures { option_map sets_view result ≡ sets_after octets.now }
{
    let certificates = optional_as(0xa0, octets);
    let lists = optional_as(0xa1, certificates.rest);
    only_as(0x31, lists.rest)?;
    Some(Sets {
        certificates: certificates.content,
        lists: lists.content,
    })
}

/// The sets of the content of SignedData.
fn sets_in(content: &[u8]) -> Option<Sets<'_>>
    ensures { option_map sets_view result ≡ sets_in content.now }
{
    let version = strict_as(0x02, content)?;
    let digests = strict_as(0x31, version.rest)?;
    let encapsulated = strict_as(0x30, digests.rest)?;
    sets_after(encapsulated.rest)
}

/// The sets of a ContentInfo that holds SignedData, in DER.
pub(crate) fn signed_sets(octets: &[u8]) -> Option<Sets<'_>>
    ensures { option_map sets_view result ≡ signed_sets octets.now }
{
    sets_in(content_of_info(octets)?)
}
