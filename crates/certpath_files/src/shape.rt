//! The shapes of certificates and revocation lists, by the first octets of their parts.

ghost use Rattle.std.specs.Prelude.{◌≡◌, option_copied, option_map};
ghost use Rattle.certpath_files.specs.Shapes.{begins_with_parts, after_optional, is_certificate, is_list, is_list_after, signed_content, kind_of};
ghost use Rattle.certpath_files.specs.ShapeViews.{kind_view};

use crate::parts::part_at;

/// What an item is by its shape.
#[derive(Clone, Copy, Debug, PartialEq, Eq)]
pub enum Kind {
    /// A certificate (RFC 5280, 4.1).
    Certificate,
    /// A revocation list (RFC 5280, 5.1).
    List,
}

/// Whether elements with these first octets begin the octets, one after another.
fn begins_with_parts(firsts: &[u8], octets: &[u8]) -> bool
    ensures { result ≡ begins_with_parts firsts.now octets.now }
{
    let mut rest = octets;
    for first in firsts {
        let Some(part) = part_at(rest) else {
            return false;
        };
        if part.first != *first {
            return false;
        }
        rest = part.rest;
    }
    true
}

/// The octets after an element with this first octet, if one begins them.
fn after_optional(first: u8, octets: &[u8]) -> &[u8]
    ensures { result.now ≡ after_optional first octets.now }
{
    match part_at(octets) {
        Some(part) => {
            if part.first == first {
                part.rest
            } else {
                octets
            }
        }
        None => octets,
    }
}

fn is_certificate(content: &[u8]) -> bool
    ensures { result ≡ is_certificate content.now }
{
    let parts = after_optional(0xa0, content);
    begins_with_parts(b"\x02\x30\x30\x30\x30\x30", parts)
}

fn is_list_after(parts: &[u8]) -> bool
    ensures { result ≡ is_list_after parts.now }
{
    begins_with_parts(b"\x30\x30\x17", parts) || begins_with_parts(b"\x30\x30\x18", parts)
}

fn is_list(content: &[u8]) -> bool
    ensures { result ≡ is_list content.now }
{
    is_list_after(after_optional(0x02, content))
}

/// The content of what is signed, of an element that is signed.
fn signed_content(octets: &[u8]) -> Option<&[u8]>
    ensures { option_copied result ≡ signed_content octets.now }
{
    let whole = part_at(octets)?;
    let signed = part_at(whole.content)?;
    let algorithm = part_at(signed.rest)?;
    let signature = part_at(algorithm.rest)?;
    if signed.first == 0x30
        && algorithm.first == 0x30
        && signature.first == 0x03
        && signature.rest.is_empty()
    {
        Some(signed.content)
    } else {
        None
    }
}

/// What an element is by its shape; none if it has neither. Nothing else of it is tested.
pub fn kind_of(octets: &[u8]) -> Option<Kind>
    ensures { option_map kind_view result ≡ kind_of octets.now }
{
    let content = signed_content(octets)?;
    if is_certificate(content) {
        Some(Kind::Certificate)
    } else if is_list(content) {
        Some(Kind::List)
    } else {
        None
    }
}
