//! Steps over the parts of a tree, each with the octets that are left of the item from there on.

ghost use Rattle.std.specs.Prelude.{◌≡◌, ◌-◌, length, option_map, false, true};
ghost use Rattle.asn1_core.specs.Views.{head_of, size_of};
ghost use Rattle.der_tree.specs.Tree.{octets};
ghost use Rattle.der_tree.specs.Access.{sequence_at, set_at, end_at};
ghost use Rattle.der_tree.specs.View.{view, views};
ghost use Rattle.cert_faults.specs.Steps.{Gives, at_view, unlike, missing, inside, left_after, sequence_or, set_or, first_or, end_or};

use crate::places::{Expected, Field, Part};
use asn1_core::Length;
use der_tree::{BerObject, first_of};

/// A place of the grammar.
#[derive(Clone, Copy)]
pub(crate) struct Place {
    pub field: Field,
    pub part: Part,
}

/// The place of a field.
pub(crate) fn whole(field: Field) -> Place
    ensures { result ≡ record { field = field; part = Part.Whole } }
{
    Place {
        field,
        part: Part::Whole,
    }
}

/// The place of a part of a field.
pub(crate) fn within(field: Field, part: Part) -> Place
    ensures { result ≡ record { field = field; part = part } }
{
    Place { field, part }
}

/// A fault: its place, what is expected, and how many octets of the item are left from it on.
#[derive(Clone, Copy)]
pub(crate) struct Blame {
    pub place: Place,
    pub expected: Expected,
    pub left: usize,
    /// Nothing is found there: the element that holds it ends.
    pub is_missing: bool,
}

/// An element that isn't what is expected.
pub(crate) fn unlike(place: Place, expected: Expected, left: usize) -> Blame
    ensures { result ≡ unlike place expected left }
{
    Blame {
        place,
        expected,
        left,
        is_missing: false,
    }
}

/// An element that is expected, and the element that holds it ends before.
fn missing(place: Place, expected: Expected, left: usize) -> Blame
    ensures { result ≡ missing place expected left }
{
    Blame {
        place,
        expected,
        left,
        is_missing: true,
    }
}

/// Why a walk over a tree ends before its end.
#[derive(Clone, Copy)]
pub(crate) enum Stop {
    /// At a fault.
    Fault(Blame),
    /// Memory ran out.
    OutOfMemory,
}

/// Parts that are still to be read, and the octets that are left from the first of them on.
#[derive(Clone, Copy)]
pub(crate) struct At<'b, 'a> {
    pub parts: &'b [BerObject<'a>],
    pub left: usize,
}

fn size_of(length: Length) -> usize
    ensures { result ≡ size_of length }
{
    match length {
        Length::Definite(size) => size,
        Length::Indefinite => 0,
    }
}

/// The octets left after an object's header.
pub(crate) fn inside(object: &BerObject<'_>, left: usize) -> usize
    ensures { result ≡ inside left (view object.now) }
{
    let header = object
        .as_raw()
        .len()
        .saturating_sub(size_of(object.header.length()));
    left.saturating_sub(header)
}

/// The octets left after an object.
pub(crate) fn left_after(object: &BerObject<'_>, left: usize) -> usize
    ensures { result ≡ left_after left (view object.now) }
{
    left.saturating_sub(object.as_raw().len())
}

/// The parts of a SEQUENCE.
pub(crate) fn sequence<'b, 'a>(
    place: Place,
    left: usize,
    object: &'b BerObject<'a>,
) -> Result<At<'b, 'a>, Blame>
    ensures { Gives at_view result (sequence_or place left (view object.now)) }
{
    match object.as_sequence() {
        Ok(parts) => Ok(At {
            parts: parts.as_slice(),
            left: inside(object, left),
        }),
        Err(_) => Err(unlike(place, Expected::Sequence, left)),
    }
}

/// The parts of a SET.
pub(crate) fn set<'b, 'a>(
    place: Place,
    left: usize,
    object: &'b BerObject<'a>,
) -> Result<At<'b, 'a>, Blame>
    ensures { Gives at_view result (set_or place left (view object.now)) }
{
    match object.as_set() {
        Ok(parts) => Ok(At {
            parts: parts.as_slice(),
            left: inside(object, left),
        }),
        Err(_) => Err(unlike(place, Expected::Set, left)),
    }
}

/// The first of the parts, and those after it.
pub(crate) fn first<'b, 'a>(
    place: Place,
    expected: Expected,
    at: At<'b, 'a>,
) -> Result<(&'b BerObject<'a>, At<'b, 'a>), Blame>
    ensures { Gives (λ p. (view p.0.now, at_view p.1)) result (first_or place expected (at_view at.entry)) }
{
    match first_of(at.parts) {
        Some((first, rest)) => Ok((
            first,
            At {
                parts: rest,
                left: left_after(first, at.left),
            },
        )),
        None => Err(missing(place, expected, at.left)),
    }
}

/// That no part is left.
pub(crate) fn end(place: Place, at: At<'_, '_>) -> Result<(), Blame>
    ensures { result ≡ end_or place (at_view at.entry) }
{
    match first_of(at.parts) {
        Some(_) => Err(unlike(place, Expected::NothingMore, at.left)),
        None => Ok(()),
    }
}
