//! Elements at the front of octets.

ghost use Rattle.std.specs.Prelude.{◌≡◌, Ok, length, ◌≤◌, ◌<◌, IfSome, option_map};
ghost use Rattle.asn1_core.specs.Views.{head_of};
ghost use Rattle.certpath_files.specs.Parts.{part_by, part_at, strict_part_at};
ghost use Rattle.certpath_files.specs.PartViews.{part_view};

use asn1_core::{Header, Length};

/// An element: its first octet, its content, and the octets after it.
#[derive(Clone, Copy)]
pub(crate) struct Part<'a> {
    pub(crate) first: u8,
    pub(crate) content: &'a [u8],
    pub(crate) rest: &'a [u8],
}

/// How many octets of content a header of definite length says.
pub(crate) fn size_of(header: &Header) -> usize
    ensures { result ≡ (head_of header.now).size }
{
    match header.length() {
        Length::Definite(size) => size,
        Length::Indefinite => 0,
    }
}

/// The element of a header, whose first octet is this one.
fn part_by<'a>(first: u8, header: &Header, after: &'a [u8]) -> Option<Part<'a>>
    ensures value { option_map part_view result ≡ part_by first (Ok (head_of header.now, after.now)) }
    ensures shorter { IfSome result (λ part. length part.rest.now ≤ length after.now) }
{
    let size = size_of(header);
    if after.len() < size {
        return None;
    }
    let (content, rest) = after.split_at(size);
    Some(Part {
        first,
        content,
        rest,
    })
}

/// The element at the front, whose header has any of the definite forms.
pub(crate) fn part_at(octets: &[u8]) -> Option<Part<'_>>
    ensures value { option_map part_view result ≡ part_at octets.now }
    ensures shorter { IfSome result (λ part. length part.rest.now < length octets.now) }
{
    let (first, _) = octets.split_first()?;
    match Header::from_der(octets) {
        Ok((after, header)) => part_by(*first, &header, after),
        Err(_) => None,
    }
}

/// The element at the front, in its strict spelling.
pub(crate) fn strict_part_at(octets: &[u8]) -> Option<Part<'_>>
    ensures value { option_map part_view result ≡ strict_part_at octets.now }
    ensures shorter { IfSome result (λ part. length part.rest.now < length octets.now) }
{
    let (first, _) = octets.split_first()?;
    match Header::strict(octets) {
        Ok((after, header)) => part_by(*first, &header, after),
        Err(_) => None,
    }
}
