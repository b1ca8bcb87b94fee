//! The strict reader of objects.

ghost use Rattle.std.specs.Prelude.{◌≡◌, ◌↔◌, ◌+◌, ◌<◌, ◌≤◌, ◌^◌, ℕ, List, ◌++◌, length, IfOk, IfErr, IsErrAnd, MatchResult, IsTrue};
ghost use Rattle.asn1_core.specs.Counts.{attempts};
ghost use Rattle.asn1_core.specs.Missing.{IsMissing};
ghost use Rattle.asn1_core.specs.Views.{length_of};
ghost use Rattle.der_tree.specs.Lengths.{TellsDefinite, HoldsDefinite, lengths_of_all, all_lengths, definite_length};
ghost use Rattle.der_tree.specs.Object.{IsDerObject};
ghost use Rattle.der_tree.specs.Table.{IsConstructed};
ghost use Rattle.der_tree.specs.Tree.{Trees, Content, octets, all_octets, element_count, part_count, all_count};
ghost use Rattle.der_tree.specs.Shape.{IsObject, IsContent, AreObjects, BeginsWithObject};
ghost use Rattle.der_tree.specs.View.{element_under, view, content_view, views};
ghost use Rattle.der_tree.specs.Outcome.{Refuses, ReadsFront, WantsMemory, IsNotCut, cut_at};

use crate::cut::cut_of;
use crate::leaf::leaf_of;
use crate::object::{BerObject, BerObjectContent, BerResult, MAX_RECURSION};
use asn1_core::{Class, Err as Refusal, Error, Header, HeaderCount, Needed};
use std::alloc::{AllocError, Global};

/// Reads one DER object of at most `MAX_RECURSION` levels from the front of the octets (X.690, 8, 10 and 11).
pub fn parse_der<'a>(alloc: Global, i: &'a [u8]) -> BerResult<'a>
    ensures found { IfOk result (λ p. IsObject 50 (view p.1) × (i.now ≡ octets (view p.1) ++ p.0.now)) }
    ensures none { IfErr result (λ e. Refuses e (BeginsWithObject 50 i.now → ⊥)) }
    ensures missing { IfErr result (IsMissing (BeginsWithObject 50) i.now) }
    ensures front { ReadsFront (cut_at i.now) result }
    ensures lengths { IfOk result (λ p. TellsDefinite p.1) }

    // the same in the words of octets alone
    ensures object { IfOk result (λ p. IsDerObject 50 (octets (view p.1))) }
    ensures only { (s r : List ℕ) → IsDerObject 50 s → i.now ≡ s ++ r
        → MatchResult result (λ p. (octets (view p.1) ≡ s) × (p.0.now ≡ r)) WantsMemory }
{
    parse_der_recursive(alloc, i, MAX_RECURSION)
}

/// Reads one DER object of at most so many levels from the front of the octets (X.690, 8, 10 and 11). Each element takes
/// one level. Answers the octets after the object, and its tree, whose windows lie in `i`. Reading recurses, and so do the
/// tree's drop and `Debug`: 4,000 levels fit a stack of 8 MB, many more don't.
///
/// Refusals, in their order: `BerMaxDepth` at no level; those of `Header::strict`; `InvalidLength` of more than
/// `MAX_OBJECT_SIZE` content octets; `Incomplete` with the number of those that are missing; and if
/// the element is whole `Failure` of `OutOfMemory`, or an error: it is no object of so many levels.
pub fn parse_der_recursive<'a>(alloc: Global, i: &'a [u8], levels: usize) -> BerResult<'a>
    ensures found { IfOk result (λ p. IsObject levels (view p.1) × (i.now ≡ octets (view p.1) ++ p.0.now)) }
    ensures none { IfErr result (λ e. Refuses e (BeginsWithObject levels i.now → ⊥)) }
    ensures missing { IfErr result (IsMissing (BeginsWithObject levels) i.now) }
    ensures no_level { levels ≡ 0 → IsErrAnd result (λ e. e ≡ Refusal.Error Error.BerMaxDepth) }
    ensures front { 0 < levels → ReadsFront (cut_at i.now) result }
    ensures lengths { IfOk result (λ p. TellsDefinite p.1) }

    // the same in the words of octets alone
    ensures object { IfOk result (λ p. IsDerObject levels (octets (view p.1))) }
    ensures only { (s r : List ℕ) → IsDerObject levels s → i.now ≡ s ++ r
        → MatchResult result (λ p. (octets (view p.1) ≡ s) × (p.0.now ≡ r)) WantsMemory }
{
    let mut count = HeaderCount::new();
    parse_der_recursive_counted(alloc, i, levels, &mut count)
}

/// `parse_der_recursive`, which raises the count by one for each header that it tries: for each element of the tree that
/// it returns, and never by more than one for each octet of `i`. The count never falls, also if the
/// octets are refused.
#[cycle(reading)]
pub fn parse_der_recursive_counted<'a>(
    alloc: Global,
    i: &'a [u8],
    levels: usize,
    count: &mut HeaderCount,
) -> BerResult<'a>
    requires { attempts count.old + length i.now < 2 ^ 128 }
    ensures found { IfOk result (λ p. IsObject levels (view p.1) × (i.now ≡ octets (view p.1) ++ p.0.now)) }
    ensures none { IfErr result (λ e. Refuses e (BeginsWithObject levels i.now → ⊥)) }
    ensures missing { IfErr result (IsMissing (BeginsWithObject levels) i.now) }
    ensures no_level { levels ≡ 0 → IsErrAnd result (λ e. e ≡ Refusal.Error Error.BerMaxDepth) }
    ensures front { 0 < levels → ReadsFront (cut_at i.now) result }
    ensures lengths { IfOk result (λ p. TellsDefinite p.1) }
    ensures each { IfOk result (λ p. attempts count.new ≡ attempts count.old + element_count (view p.1)) }
    ensures grows { attempts count.old ≤ attempts count.new }
    ensures at_most { attempts count.new ≤ attempts count.old + length i.now }
{
    if levels == 0 {
        return Err(Refusal::Error(Error::BerMaxDepth));
    }
    if i.is_empty() {
        return Err(Refusal::Incomplete(Needed::Size(1)));
    }
    let (after, cut) = cut_of(i, count)?;
    let content = content_of(alloc, cut.header, cut.content, levels - 1, count)?;
    let object = BerObject::new(cut.header, content, cut.raw);
    Ok((after, object))
}

/// Reads the content under a header, its parts being of at most that many levels.
#[cycle(reading)]
pub(crate) fn content_of<'a>(
    alloc: Global,
    header: Header,
    content: &'a [u8],
    levels: usize,
    count: &mut HeaderCount,
) -> Result<BerObjectContent<'a>, Refusal<Error>>
    requires { attempts count.old + length content.now < 2 ^ 128 }
    ensures each { IfOk result (λ c. attempts count.new ≡ attempts count.old + part_count (content_view c)) }
    ensures grows { attempts count.old ≤ attempts count.new }
    ensures at_most { attempts count.new ≤ attempts count.old + length content.now }
    ensures found { IfOk result (λ c. IsContent levels (element_under header content.now) (content_view c)) }
    ensures none { IfErr result (λ e. Refuses e ((c : Content) → IsContent levels (element_under header content.now) c → ⊥)) }
    ensures whole { IfErr result IsNotCut }
    ensures lengths { IfOk result (λ c. HoldsDefinite (length_of header) c (content_view c)) }
{
    if is_constructed(header, 16) {
        return Ok(BerObjectContent::Sequence(objects_of(alloc, content, levels, count)?));
    }
    if is_constructed(header, 17) {
        return Ok(BerObjectContent::Set(objects_of(alloc, content, levels, count)?));
    }
    match leaf_of(header, content) {
        Ok(leaf) => Ok(leaf),
        Err(e) => Err(Refusal::Error(e)),
    }
}

/// For how many objects room is taken at most with the first one of a content.
const FIRST_ROOM: usize = 4;

/// Takes room for the first object of a content after which so many octets are left: for as many
/// objects as fit there, each being of two octets at least, and for no more than `FIRST_ROOM`.
/// Later ones take theirs as they are pushed.
#[inline(always)]
fn take_room(objects: &mut Vec<BerObject<'_>>, behind: usize) -> Result<(), AllocError>
    ensures items { objects.new.items ≡ objects.old.items }
{
    if objects.is_empty() {
        return objects.reserve_exact((1 + behind / 2).min(FIRST_ROOM));
    }
    Ok(())
}

/// Reads objects to the end.
#[cycle(reading)]
fn objects_of<'a>(
    alloc: Global,
    content: &'a [u8],
    levels: usize,
    count: &mut HeaderCount,
) -> Result<Vec<BerObject<'a>>, Refusal<Error>>
    requires { attempts count.old + length content.now < 2 ^ 128 }
    ensures each { IfOk result (λ v. attempts count.new ≡ attempts count.old + all_count (views v.items)) }
    ensures grows { attempts count.old ≤ attempts count.new }
    ensures at_most { attempts count.new ≤ attempts count.old + length content.now }
    ensures found { IfOk result (λ v. AreObjects levels (views v.items) × (content.now ≡ all_octets (views v.items))) }
    ensures none { IfErr result (λ e. Refuses e ((ts : Trees) → AreObjects levels ts → content.now ≡ all_octets ts → ⊥)) }
    ensures whole { IfErr result IsNotCut }
    ensures lengths { IfOk result (λ v. lengths_of_all v.items ≡ all_lengths definite_length (views v.items)) }
{
    let mut rest = content;
    let mut objects = Vec::new(alloc);
    while !rest.is_empty() {
        let (after, object) = match parse_der_recursive_counted(alloc, rest, levels, count) {
            Ok(read) => read,
            Err(refusal) => return Err(Refusal::within(refusal)),
        };
        take_room(&mut objects, after.len())?;
        objects.push(object)?;
        rest = after;
    }
    Ok(objects)
}

/// Whether the header is a universal constructed one of this tag number.
pub(crate) fn is_constructed(header: Header, tag: u32) -> bool
    ensures { (s : List ℕ) → IsTrue result ↔ IsConstructed (element_under header s) tag }
{
    header.class() == Class::Universal && header.is_constructed() && header.tag().0 == tag
}
