//! The components of an identifier, read one by one.
ghost use Rattle.std.specs.Prelude.{◌≡◌, false, true, length, Some, IfSome, MatchOption};
ghost use Rattle.std.specs.Iterator.{YieldsFirst, UpTo, item_count};
ghost use Rattle.std.specs.Iterator.SizeHint.{IsWithinCount};
ghost use Rattle.asn1_oid.specs.Reading.{is_readable, components_in, root_of};

use crate::content::{count_ends, read_subidentifier, small};
use std::iter::FusedIterator;
use std::marker::Model;

/// An iterator over the components of an identifier, as `Oid::iter` returns it. It reads the
/// content octets as it goes, and takes no memory.
#[derive(Drop)]
pub struct SubIdentifierIterator<'a> {
    first: Option<u64>,
    second: Option<u64>,
    rest: &'a [u8],
}

impl<'a> Model for SubIdentifierIterator<'a> {
    ghost use Rattle.std.specs.Prelude.{◌≡◌, ℕ, ◌<◌, ◌^◌, true, List, length};
    ghost use Rattle.asn1_oid.specs.Reading.{is_small_after, components_left};

    ghost Value = { List ℕ };

    ghost view = { λ it. components_left it.first it.second it.rest.now };

    ghost invariant = { λ it. (is_small_after 0 it.rest.now ≡ true)
        × (length (components_left it.first it.second it.rest.now) < 2 ^ 64) };
}

/// Returns the components that the octets spell; `None` if they are not strict, or a subidentifier
/// passes 64 bits.
pub(crate) fn read_components(octets: &[u8]) -> Option<SubIdentifierIterator<'_>>
    ensures { MatchOption result (is_readable octets.now ≡ false)
        (λ left. (is_readable octets.now ≡ true) × (left ≡ components_in octets.now)) }
{
    if octets.is_empty() || !small(octets) || count_ends(octets) == usize::MAX {
        return None;
    }
    let (joined, rest) = read_subidentifier(octets)?;
    let first = root(joined);
    Some(SubIdentifierIterator {
        first: Some(first),
        second: Some(joined - 40 * first),
        rest,
    })
}

/// Returns the first of the two components that share a subidentifier (X.690, 8.19.4).
fn root(joined: u64) -> u64
    ensures { result ≡ root_of joined }
{
    if joined < 40 {
        0
    } else if joined < 80 {
        1
    } else {
        2
    }
}

impl<'a> Iterator for SubIdentifierIterator<'a> {
    type Item = u64;

    ghost next_gives = { YieldsFirst (λ left. left) };

    ghost remaining = { item_count (λ left. left) };

    fn next(&mut self) -> Option<u64> {
        if let Some(component) = self.first.take() {
            return Some(component);
        }
        if let Some(component) = self.second.take() {
            return Some(component);
        }
        let (component, rest) = read_subidentifier(self.rest)?;
        self.rest = rest;
        Some(component)
    }

    fn size_hint(&self) -> (usize, Option<usize>)
        ensures lower { IsWithinCount result.0 (item_count (λ left. left) self.now) }
        ensures upper { IfSome result.1 (UpTo (item_count (λ left. left) self.now)) }
        ensures exact { (result.0 ≡ length self.now) × (result.1 ≡ Some (length self.now)) }
    {
        let left = self.len();
        (left, Some(left))
    }
}

impl<'a> ExactSizeIterator for SubIdentifierIterator<'a> {
    fn len(&self) -> usize {
        let waiting = usize::from(self.first.is_some()) + usize::from(self.second.is_some());
        waiting + count_ends(self.rest)
    }
}

impl<'a> FusedIterator for SubIdentifierIterator<'a> {}
