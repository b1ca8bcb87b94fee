//! What a block holds, as far as it has to be kept: an item is short, and a block may be long.

ghost use Rattle.std.specs.Prelude.{◌≡◌, ◌==◌, ◌||◌, not, length, Bool, IfOk};
ghost use Rattle.base64.specs.GeneralPurpose.{IsBytes};
ghost use Rattle.certpath_pem.specs.Lines.{lines_of};
ghost use Rattle.certpath_pem.specs.Blocks.{content_of};
ghost use Rattle.certpath_pem.specs.Contents.{start_view};
ghost use Rattle.certpath_files.specs.Rows.{Spot};
ghost use Rattle.certpath_files.specs.Sequences.{Wanted};
ghost use Rattle.certpath_files.specs.Blocks.{content_rows};
ghost use Rattle.certpath_files.specs.Firsts.{begins_high, is_enough, HoldsOctets, start_rows};

use crate::front::MOST_OCTETS;
use certpath_pem::{Block, Content, Start, start_of};
use std::alloc::{AllocError, Global};

/// So many octets of a block are kept: the content of the largest item, and before it the longest
/// header of a SEQUENCE, two octets and 126 of its length.
const FIRST_OCTETS: usize = MOST_OCTETS + 128;

/// Whether octets begin with a tag in the high form of a constructed element of universal class.
fn begins_high(octets: &[u8]) -> bool
    ensures { result ≡ begins_high octets.now }
{
    match octets {
        [0x3f, ..] => true,
        _ => false,
    }
}

/// Whether the first of so many octets say what all of them begin with.
fn is_enough_of(first: &[u8], count: usize) -> bool
    ensures value { result ≡ ((count == length first.now) || not (begins_high first.now)) }
    ensures octets { IsBytes first.now }
{
    count == first.len() || !begins_high(first)
}

/// Whether the octets that are kept say what all of them begin with.
fn is_enough(start: &Start) -> bool
    ensures value { result ≡ is_enough (start_view start.now) }
    ensures octets { HoldsOctets (start_view start.now) }
{
    match &start.content {
        Content::Octets(first) => is_enough_of(first, start.count),
        Content::Unended => true,
        Content::Headers => true,
        Content::Empty => true,
        Content::NoBase64 => true,
    }
}

/// What a block holds, with as many of its octets as its rows depend on.
///
/// That is all of them if the block begins with a tag in the high form, which no item does: its
/// octets have no bound.
pub(crate) fn start_of_block(alloc: Global, block: Block<'_>) -> Result<Start, AllocError>
    ensures { IfOk result (λ start. (wanted : Wanted) (may_go_on : Bool) (spot : Spot)
        → start_rows wanted may_go_on spot (start_view start) ≡ content_rows wanted may_go_on spot (content_of (lines_of block.entry.body.now) block.entry.is_ended)) }
{
    let start = start_of(alloc, block.body, block.is_ended, FIRST_OCTETS)?;
    if is_enough(&start) {
        return Ok(start);
    }
    let whole = start_of(alloc, block.body, block.is_ended, usize::MAX)?;
    Ok(whole)
}
