//! Cutting octets into items.

ghost use Rattle.std.specs.Prelude.{◌≡◌, ℕ, IfOk};
ghost use Rattle.cert_framing.specs.Framing.{IsFraming};
ghost use Rattle.certpath_c.specs.Framing.{spans_of, end_number, end_place, FrameAnswer};

use crate::status::{DONE, OUT_OF_MEMORY, TOO_SMALL};
use crate::writing::put;
use cert_framing::{Bundle, End, Items};
use std::alloc::{AllocError, Global};

/// A part of octets.
#[repr(C)]
#[derive(Clone, Copy, Debug)]
pub struct Span {
    pub offset: usize,
    pub length: usize,
}

/// How octets were cut.
#[repr(C)]
#[derive(Clone, Copy, Debug)]
pub struct Framed {
    pub count: usize,
    pub at: usize,
    pub end: u32,
}

/// How many octets are looked at before the rest is copied.
const FRONT: usize = 65536;

/// The items of octets, of at most so many content octets. The only error is out of memory. If a
/// fault is among the first octets, as in a text, no others are copied.
pub(crate) fn items_of(alloc: Global, octets: &[u8], limit: u32) -> Result<Items, AllocError>
    ensures { IfOk result (λ items. IsFraming limit octets.now items.items items.end) }
{
    let (front, rest) = octets.split_at(FRONT.min(octets.len()));
    let mut bundle = Bundle::new(alloc, limit);
    if bundle.feed(front).is_err() {
        return Err(AllocError);
    }
    if bundle.feed(rest).is_err() {
        return Err(AllocError);
    }
    let Ok(items) = bundle.finish() else {
        unreachable!()
    };
    Ok(items)
}

/// Where each item lies.
fn spans_of(alloc: Global, items: &Items) -> Result<Vec<Span>, AllocError>
    ensures { IfOk result (λ spans. spans.items ≡ spans_of 0 items.now.items) }
{
    let mut spans = Vec::with_capacity(alloc, items.len())?;
    let mut offset = 0;
    for k in 0..items.len() {
        let length = items.get(k).len();
        spans.push(Span { offset, length })?;
        offset += length;
    }
    Ok(spans)
}

fn end_number(end: End) -> u32
    ensures { result ≡ end_number end }
{
    match end {
        End::Clean => 0,
        End::Cut(_) => 1,
        End::Fault(_) => 2,
    }
}

fn end_place(end: End, octets: usize) -> usize
    ensures { result ≡ end_place octets end }
{
    match end {
        End::Clean => octets,
        End::Cut(at) => at,
        End::Fault(at) => at,
    }
}

/// `certpath_frame` of the header.
#[unsafe(no_mangle)]
pub extern "C" fn certpath_frame(
    alloc: Global,
    octets: &[u8],
    limit: u32,
    spans: &mut [Span],
    framed: &mut Framed,
) -> i32
    ensures { FrameAnswer octets.now limit spans.old spans.new framed.old framed.new result }
{
    let Ok(items) = items_of(alloc, octets, limit) else {
        return OUT_OF_MEMORY;
    };
    let Ok(found) = spans_of(alloc, &items) else {
        return OUT_OF_MEMORY;
    };
    *framed = Framed {
        count: items.len(),
        at: end_place(items.end(), octets.len()),
        end: end_number(items.end()),
    };
    if put(spans, &found) { DONE } else { TOO_SMALL }
}
