//! The reader of objects by the rules of BER.

ghost use Rattle.std.specs.Prelude.{◌≡◌, ◌↔◌, ◌-◌, ◌<◌, ◌≤◌, ℕ, List, [], ◌∷◌, ◌++◌, IfOk, IfErr, IfSome, MatchOption, MatchResult, IsTrue};
ghost use Rattle.asn1_core.specs.Missing.{IsMissing};
ghost use Rattle.asn1_core.specs.Views.{ber_head_of, length_of};
ghost use Rattle.asn1_any.specs.BerElements.{HasBerElement};
ghost use Rattle.asn1_any.specs.Reading.{ber_levels_at};
ghost use Rattle.ber_tree.specs.Lengths.{TellsAsRead, HoldsAsRead, ber_length};
ghost use Rattle.der_tree.specs.Lengths.{lengths_told, lengths_of_all, all_lengths};
ghost use Rattle.der_tree.specs.Outcome.{Refuses, ReadsFront, WantsMemory, IsNotCut};
ghost use Rattle.der_tree.specs.Table.{IsConstructed};
ghost use Rattle.der_tree.specs.Tree.{Tree, Trees, Content, octets, all_octets};
ghost use Rattle.der_tree.specs.View.{element_under, view, content_view, views};
ghost use Rattle.ber_tree.specs.Object.{IsBerObject, IsBerContent, AreBerObjects, BeginsWithBerObject, IsBerTree, BeginsWithBerTree, end_tree};

use crate::leaf::leaf_of;
use asn1_any::Any;
use asn1_core::{Class, Err as Refusal, Error, Header, Length, Tag};
use der_tree::{
    BerObject, BerObjectContent, BerResult, MAX_OBJECT_SIZE, MAX_RECURSION, object_with,
};
use std::alloc::Global;

/// Reads one BER object of at most `MAX_RECURSION` levels from the front of `i` (X.690, 8), as `30
/// 03 02 01 05`. Returns `(rest, object)`. It is `parse_ber_recursive` with these levels: its cost
/// and its errors are described there.
pub fn parse_ber<'a>(alloc: Global, i: &'a [u8]) -> BerResult<'a>
    ensures found { IfOk result (λ p. IsBerTree 50 (view p.1) × (i.now ≡ octets (view p.1) ++ p.0.now)) }
    ensures none { IfErr result (λ e. Refuses e (BeginsWithBerTree 50 i.now → ⊥)) }
    ensures missing { IfErr result (IsMissing (BeginsWithBerTree 50) i.now) }
    ensures front { ReadsFront (ber_levels_at 50 i.now) result }
    ensures lengths { IfOk result (λ p. TellsAsRead p.1) }
    ensures only { (t : Tree) (r : List ℕ) → IsBerTree 50 t → i.now ≡ octets t ++ r
        → MatchResult result (λ p. (view p.1 ≡ t) × (p.0.now ≡ r)) WantsMemory }
{
    parse_ber_recursive(alloc, i, MAX_RECURSION)
}

/// Reads one BER object of at most `levels` levels from the front of `i` (X.690, 8). Returns
/// `(rest, object)`, a tree whose windows lie in `i`.
///
/// Headers have any form; a definite length is at most `MAX_OBJECT_SIZE`; the content is read by
/// the table of universal types. Each element takes one level, also those in a raw element of the
/// indefinite form. Octets `00 00` by themselves are read as `EndOfContent`. It recurses once for
/// each level, as `parse_der_recursive` does, whose comment says how many levels a stack allows.
/// Memory is linear in the number of elements.
///
/// # Errors
///
/// The first that applies: those of `Any::from_ber_recursive`, which include an element that is
/// nested too deeply and one that ends early; for a whole element `Failure(OutOfMemory)`, or an
/// error if it is no object of so many levels.
pub fn parse_ber_recursive<'a>(alloc: Global, i: &'a [u8], levels: usize) -> BerResult<'a>
    ensures found { IfOk result (λ p. IsBerTree levels (view p.1) × (i.now ≡ octets (view p.1) ++ p.0.now)) }
    ensures none { IfErr result (λ e. Refuses e (BeginsWithBerTree levels i.now → ⊥)) }
    ensures missing { IfErr result (IsMissing (BeginsWithBerTree levels) i.now) }
    ensures front { ReadsFront (ber_levels_at levels i.now) result }
    ensures lengths { IfOk result (λ p. TellsAsRead p.1) }
    ensures only { (t : Tree) (r : List ℕ) → IsBerTree levels t → i.now ≡ octets t ++ r
        → MatchResult result (λ p. (view p.1 ≡ t) × (p.0.now ≡ r)) WantsMemory }
{
    if levels > 0 {
        match end_of_content(i) {
            Some(end) => return Ok(end),
            None => {}
        }
    }
    object_of(alloc, i, levels)
}

/// Reads end-of-contents octets (X.690, 8.1.5).
fn end_of_content(i: &[u8]) -> Option<(&[u8], BerObject<'_>)>
    ensures end { MatchOption result ((r : List ℕ) → i.now ≡ octets end_tree ++ r → ⊥)
        (λ p. (view p.1 ≡ end_tree) × (i.now ≡ octets end_tree ++ p.0.now)) }
    ensures lengths { IfSome result (λ p. lengths_told p.1 ≡ Length.Definite 0 ∷ []) }
{
    match i {
        [0, 0, rest @ ..] => {
            let (raw, _) = i.split_at(2);
            let header = Header::new(
                Class::Universal,
                false,
                Tag::EndOfContent,
                Length::Definite(0),
            );
            Some((
                rest,
                object_with(header, BerObjectContent::EndOfContent, raw),
            ))
        }
        _ => None,
    }
}

/// Reads an object of at most `levels` levels.
#[cycle(reading)]
fn object_of<'a>(alloc: Global, i: &'a [u8], levels: usize) -> BerResult<'a>
    ensures found { IfOk result (λ p. IsBerObject levels (view p.1) × (i.now ≡ octets (view p.1) ++ p.0.now)) }
    ensures none { IfErr result (λ e. Refuses e (BeginsWithBerObject levels i.now → ⊥)) }
    ensures missing { IfErr result (IsMissing (λ s. (0 < levels) × HasBerElement (levels - 1) s) i.now) }
    ensures front { ReadsFront (ber_levels_at levels i.now) result }
    ensures lengths { IfOk result (λ p. TellsAsRead p.1) }
{
    let (after, any) = Any::from_ber_recursive(i, levels)?;
    if !is_small(any.header) {
        return Err(Refusal::Error(Error::InvalidLength));
    }
    let content = content_of(alloc, any.header, any.content, levels - 1)?;
    let (raw, _) = i.split_at(i.len() - after.len());
    Ok((after, object_with(any.header, content, raw)))
}

fn is_small(header: Header) -> bool
    ensures { IsTrue result ↔ IfSome (ber_head_of header).size (λ n. n ≤ 4_294_967_295) }
{
    match header.length() {
        Length::Definite(size) => size <= MAX_OBJECT_SIZE,
        Length::Indefinite => true,
    }
}

/// Reads the content under a header, whose parts have at most that many levels.
#[cycle(reading)]
fn content_of<'a>(
    alloc: Global,
    header: Header,
    content: &'a [u8],
    levels: usize,
) -> Result<BerObjectContent<'a>, Refusal<Error>>
    ensures found { IfOk result (λ c. IsBerContent levels (element_under header content.now) (content_view c)) }
    ensures none { IfErr result (λ e. Refuses e ((c : Content) → IsBerContent levels (element_under header content.now) c → ⊥)) }
    ensures whole { IfErr result IsNotCut }
    ensures lengths { IfOk result (λ c. HoldsAsRead (length_of header) c (content_view c)) }
{
    if is_constructed(header, 16) {
        return Ok(BerObjectContent::Sequence(objects_of(alloc, content, levels)?));
    }
    if is_constructed(header, 17) {
        return Ok(BerObjectContent::Set(objects_of(alloc, content, levels)?));
    }
    match leaf_of(header, content) {
        Ok(leaf) => Ok(leaf),
        Err(e) => Err(Refusal::Error(e)),
    }
}

/// Reads objects to the end.
#[cycle(reading)]
fn objects_of<'a>(
    alloc: Global,
    content: &'a [u8],
    levels: usize,
) -> Result<Vec<BerObject<'a>>, Refusal<Error>>
    ensures found { IfOk result (λ v. AreBerObjects levels (views v.items) × (content.now ≡ all_octets (views v.items))) }
    ensures none { IfErr result (λ e. Refuses e ((ts : Trees) → AreBerObjects levels ts → content.now ≡ all_octets ts → ⊥)) }
    ensures whole { IfErr result IsNotCut }
    ensures lengths { IfOk result (λ v. lengths_of_all v.items ≡ all_lengths ber_length (views v.items)) }
{
    let mut rest = content;
    let mut objects = Vec::new(alloc);
    while !rest.is_empty() {
        let (after, object) = match object_of(alloc, rest, levels) {
            Ok(read) => read,
            Err(refusal) => return Err(Refusal::within(refusal)),
        };
        objects.push(object)?;
        rest = after;
    }
    Ok(objects)
}

fn is_constructed(header: Header, tag: u32) -> bool
    ensures { (s : List ℕ) → IsTrue result ↔ IsConstructed (element_under header s) tag }
{
    header.class() == Class::Universal && header.is_constructed() && header.tag().0 == tag
}
