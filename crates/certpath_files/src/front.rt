//! What octets begin with: an item's SEQUENCE, or what is wrong.

ghost use Rattle.std.specs.Prelude.{◌≡◌, ◌<◌, ◌≤◌, ◌+◌, ◌^◌, length, IfSome};
ghost use Rattle.asn1_core.specs.Views.{head_of};
ghost use Rattle.certpath_files.specs.Fronts.{size_in, is_sequence, sized, by_header, without_header, by_lenient, front_of};
ghost use Rattle.asn1_core.specs.Reading.{header_at};
ghost use Rattle.certpath_files.specs.FrontViews.{front_view};
ghost use Rattle.certpath_files.specs.Framed.{IsItemIfWhole};

use crate::parts::size_of;
use asn1_core::Header;

/// An item has so many content octets at most.
pub const MOST_OCTETS: usize = 16_777_216;

/// Why octets begin with no item.
#[derive(Clone, Copy, Debug, PartialEq, Eq)]
pub enum Fault {
    /// No SEQUENCE begins them.
    NoSequence,
    /// The length is indefinite (BER), or cut.
    NoLength,
    /// There are more than `MOST_OCTETS` content octets.
    TooLong,
    /// So many octets of it are missing.
    Missing(usize),
    /// The length isn't in its shortest form (BER).
    LongForm,
}

/// What octets begin with.
#[derive(Clone, Copy, Debug, PartialEq, Eq)]
pub enum Front {
    /// A SEQUENCE of so many octets, header and content, in its strict spelling.
    Whole(usize),
    /// No item, but an element of so many octets, which can be passed over.
    Passed(Fault, usize),
    /// No item, and nothing says where the next one begins.
    Stops(Fault),
}

impl Front {
    ghost use Rattle.certpath_files.specs.Fronts.{size_in};

    /// How many octets the front takes, if that is known.
    pub fn size(&self) -> Option<usize>
        ensures { result ≡ size_in (front_view self.now) }
    {
        match self {
            Front::Whole(size) => Some(*size),
            Front::Passed(_, size) => Some(*size),
            Front::Stops(_) => None,
        }
    }
}

/// Whether a header is that of a SEQUENCE.
fn is_sequence(header: &Header) -> bool
    ensures { result ≡ is_sequence (head_of header.now) }
{
    header.is_universal() && header.is_constructed() && header.tag().0 == 16
}

/// The front of a SEQUENCE whose header has so many octets and says this size, before so many
/// octets.
fn sized(is_strict: bool, header: usize, size: usize, room: usize) -> Front
    requires fits { header + room < 2 ^ 64 }
    requires some { 0 < header }
    ensures value { front_view result ≡ sized is_strict header size room }
    ensures within { IfSome (size_in (front_view result)) (λ size. (0 < size) × (size ≤ header + room)) }
{
    if room < size {
        return Front::Stops(if MOST_OCTETS < size {
            Fault::TooLong
        } else {
            Fault::Missing(size - room)
        });
    }
    if MOST_OCTETS < size {
        Front::Passed(Fault::TooLong, header + size)
    } else if is_strict {
        Front::Whole(header + size)
    } else {
        Front::Passed(Fault::LongForm, header + size)
    }
}

/// The front of octets by the header that begins them.
fn by_header(is_strict: bool, octets: &[u8], header: &Header, after: &[u8]) -> Front
    requires { length after.now < length octets.now }
    ensures value { front_view result ≡ by_header is_strict octets.now (head_of header.now) after.now }
    ensures within { IfSome (size_in (front_view result)) (λ size. (0 < size) × (size ≤ length octets.now)) }
{
    if !is_sequence(header) {
        return Front::Stops(Fault::NoSequence);
    }
    sized(
        is_strict,
        octets.len() - after.len(),
        size_of(header),
        after.len(),
    )
}

/// The front of octets that no header of definite length begins.
fn without_header(octets: &[u8]) -> Front
    ensures { front_view result ≡ without_header octets.now }
{
    match octets {
        [0x30, ..] => Front::Stops(Fault::NoLength),
        _ => Front::Stops(Fault::NoSequence),
    }
}

/// The front of octets that no strict header begins.
fn by_lenient(octets: &[u8]) -> Front
    ensures value { front_view result ≡ by_lenient octets.now (header_at octets.now) }
    ensures within { IfSome (size_in (front_view result)) (λ size. (0 < size) × (size ≤ length octets.now)) }
{
    match Header::from_der(octets) {
        Ok((after, header)) => by_header(false, octets, &header, after),
        Err(_) => without_header(octets),
    }
}

/// What octets begin with.
pub fn front_of(octets: &[u8]) -> Front
    ensures value { front_view result ≡ front_of octets.now }
    ensures framed { IsItemIfWhole (front_view result) octets.now }
    ensures within { IfSome (size_in (front_view result)) (λ size. (0 < size) × (size ≤ length octets.now)) }
{
    match Header::strict(octets) {
        Ok((after, header)) => by_header(true, octets, &header, after),
        Err(_) => by_lenient(octets),
    }
}
