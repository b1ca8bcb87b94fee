//! Objects skipped by their octets alone: no tree is built, so nothing is allocated.

ghost use Rattle.std.specs.Prelude.{◌≡◌, ◌↔◌, ◌+◌, ◌<◌, ◌≤◌, ◌^◌, ◌++◌, length, MatchOption, IsTrue};
ghost use Rattle.asn1_core.specs.Counts.{attempts};
ghost use Rattle.der_tree.specs.Object.{IsDerObject};
ghost use Rattle.der_tree.specs.Tree.{Tree, Trees, Content, octets, all_octets, element_count, part_count, all_count};
ghost use Rattle.der_tree.specs.Shape.{IsObject, IsContent, AreObjects, BeginsWithObject};
ghost use Rattle.der_tree.specs.View.{element_under};

use crate::cut::cut_of;
use crate::leaf::is_leaf;
use crate::read::is_constructed;
use asn1_core::{Header, HeaderCount};

/// Whether the octets are one DER object of at most so many levels (X.690, 8, 10 and 11). It recurses as deep as sequences
/// and sets are nested.
pub fn is_der_object(i: &[u8], levels: usize) -> bool
    ensures { IsTrue result ↔ IsDerObject levels i.now }
{
    let mut count = HeaderCount::new();
    is_der_object_counted(i, levels, &mut count)
}

/// `is_der_object`, which raises the count as `parse_der_recursive_counted` does on these octets: by one for each element of
/// the object that they are. It recurses as `skip_object_counted` does.
pub fn is_der_object_counted(i: &[u8], levels: usize, count: &mut HeaderCount) -> bool
    requires { attempts count.old + length i.now < 2 ^ 128 }
    ensures object { IsTrue result ↔ IsDerObject levels i.now }
    ensures each { (t : Tree) → IsObject levels t → octets t ≡ i.now
        → attempts count.new ≡ attempts count.old + element_count t }
    ensures grows { attempts count.old ≤ attempts count.new }
    ensures at_most { attempts count.new ≤ attempts count.old + length i.now }
{
    match skip_object_counted(i, levels, count) {
        Some(rest) => rest.is_empty(),
        None => false,
    }
}

/// The octets after the DER object of at most so many levels that begins the octets (X.690, 8, 10
/// and 11), or none if no such object begins them. No tree is built. It recurses as deep as
/// sequences and sets are nested.
///
/// The count is raised as `parse_der_recursive_counted` raises it, also if there is none: by one
/// for each header tried.
#[cycle(skipping)]
pub fn skip_object_counted<'a>(
    i: &'a [u8],
    levels: usize,
    count: &mut HeaderCount,
) -> Option<&'a [u8]>
    requires { attempts count.old + length i.now < 2 ^ 128 }
    ensures skipped { MatchOption result (BeginsWithObject levels i.now → ⊥)
        (λ rest. (t : Tree) × IsObject levels t × (i.now ≡ octets t ++ rest.now)
        × (attempts count.new ≡ attempts count.old + element_count t)) }
    ensures grows { attempts count.old ≤ attempts count.new }
    ensures at_most { attempts count.new ≤ attempts count.old + length i.now }
{
    if has_two_octets(i) {
        skip_element(i, levels, count)
    } else {
        skip_long(i, levels, count)
    }
}

/// Whether the header that begins the octets has two octets: a low tag number and a short length (X.690, 8.1.2.2 and
/// 8.1.3.4).
#[inline(always)]
fn has_two_octets(i: &[u8]) -> bool {
    match i {
        [octet, size, ..] => *octet & 0x1f != 31 && *size < 128,
        _ => false,
    }
}

/// `skip_object_counted` if the header has more than two octets, in a function of its own.
#[cycle(skipping)]
#[inline(never)]
fn skip_long<'a>(i: &'a [u8], levels: usize, count: &mut HeaderCount) -> Option<&'a [u8]>
    requires { attempts count.old + length i.now < 2 ^ 128 }
    ensures skipped { MatchOption result (BeginsWithObject levels i.now → ⊥)
        (λ rest. (t : Tree) × IsObject levels t × (i.now ≡ octets t ++ rest.now)
        × (attempts count.new ≡ attempts count.old + element_count t)) }
    ensures grows { attempts count.old ≤ attempts count.new }
    ensures at_most { attempts count.new ≤ attempts count.old + length i.now }
{
    skip_element(i, levels, count)
}

/// `skip_object_counted`, whatever the header. It is compiled into both callers, so that for a header of two octets no other
/// form is looked for, and the first octet alone decides what is read.
#[cycle(skipping)]
#[inline(always)]
fn skip_element<'a>(i: &'a [u8], levels: usize, count: &mut HeaderCount) -> Option<&'a [u8]>
    requires { attempts count.old + length i.now < 2 ^ 128 }
    ensures skipped { MatchOption result (BeginsWithObject levels i.now → ⊥)
        (λ rest. (t : Tree) × IsObject levels t × (i.now ≡ octets t ++ rest.now)
        × (attempts count.new ≡ attempts count.old + element_count t)) }
    ensures grows { attempts count.old ≤ attempts count.new }
    ensures at_most { attempts count.new ≤ attempts count.old + length i.now }
{
    if levels == 0 {
        return None;
    }
    if i.is_empty() {
        return None;
    }
    match cut_of(i, count) {
        Ok((after, cut)) => {
            if is_content(cut.header, cut.content, levels - 1, count) {
                Some(after)
            } else {
                None
            }
        }
        Err(_) => None,
    }
}

/// Whether the content is one of this header, its parts being of at most that many levels.
#[cycle(skipping)]
#[inline(always)]
fn is_content(header: Header, content: &[u8], levels: usize, count: &mut HeaderCount) -> bool
    requires { attempts count.old + length content.now < 2 ^ 128 }
    ensures found { IsTrue result → (c : Content) × IsContent levels (element_under header content.now) c
        × (attempts count.new ≡ attempts count.old + part_count c) }
    ensures only { (c : Content) → IsContent levels (element_under header content.now) c → IsTrue result }
    ensures grows { attempts count.old ≤ attempts count.new }
    ensures at_most { attempts count.new ≤ attempts count.old + length content.now }
{
    if is_constructed(header, 16) {
        return are_objects(content, levels, count);
    }
    if is_constructed(header, 17) {
        return are_objects(content, levels, count);
    }
    is_leaf(header, content)
}

/// Whether the octets are objects to the end.
#[cycle(skipping)]
fn are_objects(content: &[u8], levels: usize, count: &mut HeaderCount) -> bool
    requires { attempts count.old + length content.now < 2 ^ 128 }
    ensures found { IsTrue result → (ts : Trees) × AreObjects levels ts × (content.now ≡ all_octets ts)
        × (attempts count.new ≡ attempts count.old + all_count ts) }
    ensures only { (ts : Trees) → AreObjects levels ts → content.now ≡ all_octets ts → IsTrue result }
    ensures grows { attempts count.old ≤ attempts count.new }
    ensures at_most { attempts count.new ≤ attempts count.old + length content.now }
{
    let mut rest = content;
    while !rest.is_empty() {
        match skip_object_counted(rest, levels, count) {
            Some(after) => rest = after,
            None => return false,
        }
    }
    true
}
