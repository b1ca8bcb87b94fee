//! Cutting a content into its elements.

ghost use Rattle.std.specs.Prelude.{◌≡◌, ◌+◌, ◌^◌, ◌<◌, ◌≤◌, ◌++◌, All, IfOk, IfSome, IfNone, length, min};
ghost use Rattle.asn1_core.specs.Counts.{attempts};
ghost use Rattle.asn1_any.specs.Cutting.{IsCutting, IsPiece, attempts_at};
ghost use Rattle.asn1_any.specs.CutViews.{HasCountedContent, IsLongerThanContent, piece_of, pieces_of};
ghost use Rattle.asn1_any.specs.DerElements.{HasElement};

use crate::any::Any;
use crate::read;
use asn1_core::{HeaderCount, OutOfMemory};
use std::alloc::Global;

/// An element with all its octets, those of its header included.
#[derive(Clone, Copy, Debug, PartialEq, Eq)]
pub struct Element<'a> {
    /// Header and content octets, a window of the content that was cut.
    pub octets: &'a [u8],
    /// The element as `Any::from_der` reads it.
    pub any: Any<'a>,
}

/// The elements of a content, in order, and the octets after the last.
#[derive(Debug, Drop, PartialEq, Eq)]
pub struct Elements<'a> {
    /// The elements.
    pub items: Vec<Element<'a>>,
    /// The octets after the last element; no element begins there. Empty if the content is elements
    /// to its end.
    pub tail: &'a [u8],
}

/// Cuts a content into the elements that `Any::from_der` reads one after another, and the octets at
/// which it fails. Malformed octets are no error: they are the tail. The only error is
/// `OutOfMemory`. Time is linear in the content, memory in the number of elements.
pub fn cut_elements<'a>(alloc: Global, content: &'a [u8]) -> Result<Elements<'a>, OutOfMemory>
    ensures cut { IfOk result (λ cut. IsCutting content.now (pieces_of cut.items.items) cut.tail.now) }
    ensures lengths { IfOk result (λ cut. All HasCountedContent cut.items.items) }
    ensures longer { IfOk result (λ cut. All IsLongerThanContent cut.items.items) }
{
    let mut count = HeaderCount::new();
    cut_elements_counted(alloc, content, &mut count)
}

/// Cuts a content as `cut_elements` does, and adds to `count` one header attempt for each element,
/// and one for a tail that isn't empty. If memory runs out, the attempts are at most one for each
/// octet.
pub fn cut_elements_counted<'a>(
    alloc: Global,
    content: &'a [u8],
    count: &mut HeaderCount,
) -> Result<Elements<'a>, OutOfMemory>
    requires { attempts count.old + length content.now < 2 ^ 128 }
    ensures cut { IfOk result (λ cut. IsCutting content.now (pieces_of cut.items.items) cut.tail.now) }
    ensures lengths { IfOk result (λ cut. All HasCountedContent cut.items.items) }
    ensures longer { IfOk result (λ cut. All IsLongerThanContent cut.items.items) }
    ensures counted { IfOk result (λ cut. attempts count.new ≡ attempts count.old + attempts_at (pieces_of cut.items.items) cut.tail.now) }
    ensures least { attempts count.old ≤ attempts count.new }
    ensures most { attempts count.new ≤ attempts count.old + length content.now }
{
    let mut items = Vec::new(alloc);
    let mut tail = content;
    'elements: while !tail.is_empty() {
        let Ok((rest, any)) = read::der_element_counted(tail, count) else {
            return Ok(Elements { items, tail });
        };
        let (octets, _) = tail.split_at(tail.len() - rest.len());
        items.push(Element { octets, any })?;
        tail = rest;
    }
    Ok(Elements { items, tail })
}

/// Reads one element from the front of `content` and adds one header attempt to `count`. Returns
/// `(rest, element)`; `None` if `Any::from_der` fails there, and for no octets, where nothing is
/// tried.
///
/// Called until it returns `None`, it cuts a content as `cut_elements_counted` does, one element at
/// a time and without memory.
#[inline(always)]
pub fn first_element_counted<'a>(
    octets: &'a [u8],
    count: &mut HeaderCount,
) -> Option<(&'a [u8], Element<'a>)>
    requires { attempts count.old + 1 < 2 ^ 128 }
    ensures counted { attempts count.new ≡ attempts count.old + min 1 (length octets.now) }
    ensures found { IfSome result (λ r. IsPiece (piece_of r.1)) }
    ensures whole { IfSome result (λ r. octets.now ≡ r.1.octets.now ++ r.0.now) }
    ensures none { IfNone result (¬ HasElement octets.now) }
    ensures shorter { IfSome result (λ r. length r.0.now + 2 ≤ length octets.now) }
    ensures length { IfSome result (λ r. HasCountedContent r.1) }
    ensures longer { IfSome result (λ r. IsLongerThanContent r.1) }
{
    if octets.is_empty() {
        return None;
    }
    let Ok((rest, any)) = read::der_element_counted(octets, count) else {
        return None;
    };
    let (front, _) = octets.split_at(octets.len() - rest.len());
    Some((rest, Element { octets: front, any }))
}
