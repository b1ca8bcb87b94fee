//! Base64 that is decoded piece by piece, so that a long block takes no more memory than its
//! octets.

ghost use Rattle.std.specs.Prelude.{◌≡◌, ◌≢◌, ◌++◌, ◌+◌, ◌-◌, ◌≤◌, ℕ, List, [], IfOk, OnOk, IfSome, IfNone, filter, length, take};
ghost use Rattle.base64.specs.Engines.{standard};
ghost use Rattle.base64.specs.GeneralPurpose.{IsBytes, encode_of};
ghost use Rattle.certpath_pem.specs.Blocks.{is_symbol, by_symbols};
ghost use Rattle.certpath_pem.specs.Starts.{start_of};
ghost use Rattle.certpath_pem.specs.Contents.{start_view};

use crate::content::{Content, Start, uncounted};
use crate::octets::is_white;
use base64::DecodeAllocError;
use base64::engine::general_purpose::STANDARD;
use std::alloc::{AllocError, Global};

/// So many symbols are decoded at once: whole groups of four.
const PIECE: usize = 4096;

/// Copies the next symbols into a piece, without the white space between them, until it is full.
/// Returns how many they are, and the octets from the next symbol on; none if it was the last.
fn next_symbols<'a>(text: &'a [u8], piece: &mut [u8; PIECE]) -> (usize, &'a [u8])
    ensures within { result.0 ≤ PIECE }
    ensures symbols { filter is_symbol text.now ≡ take result.0 piece.new ++ filter is_symbol result.1.now }
    ensures full { result.1.now ≢ [] → result.0 ≡ PIECE }
    ensures more { result.1.now ≢ [] → filter is_symbol result.1.now ≢ [] }
    ensures shorter { length result.1.now + result.0 ≤ length text.now }
{
    let mut used = 0;
    for (place, octet) in text.iter().enumerate() {
        if !is_white(*octet) {
            if used == PIECE {
                return (used, &text[place..]);
            }
            piece[used] = *octet;
            used += 1;
        }
    }
    (used, &[])
}

/// The octets that symbols are the base64 of, if they are.
fn octets_of(alloc: Global, symbols: &[u8]) -> Result<Option<Vec<u8>>, AllocError>
    ensures some { IfOk result (λ found. IfSome found (λ octets. IsBytes octets.items × (symbols.now ≡ encode_of standard octets.items))) }
    ensures none { IfOk result (λ found. IfNone found ((o : List ℕ) → IsBytes o → symbols.now ≢ encode_of standard o)) }
{
    match STANDARD.decode(alloc, symbols) {
        Ok(octets) => Ok(Some(octets)),
        Err(DecodeAllocError::DecodeError(_)) => Ok(None),
        Err(DecodeAllocError::OutOfMemory) => Err(AllocError),
    }
}

/// Appends octets, as many as there is room for below the limit.
fn push_first(first: &mut Vec<u8>, limit: usize, octets: &[u8]) -> Result<(), AllocError>
    requires { length first.old.items ≤ limit }
    ensures { OnOk result (first.new.items ≡ first.old.items ++ take (limit - length first.old.items) octets.now) }
{
    let room = limit - first.len();
    let count = octets.len().min(room);
    first.extend_from_slice(&octets[..count])
}

/// What a body without header lines holds, with the first `limit` of its octets at most.
pub(crate) fn decoded(alloc: Global, body: &[u8], limit: usize) -> Result<Start, AllocError>
    ensures { IfOk result (λ start. start_view start ≡ start_of limit (by_symbols (filter is_symbol body.now))) }
{
    let mut first = Vec::with_capacity(alloc, limit.min(body.len() / 4 * 3 + 3))?;
    let mut count = 0;
    let mut piece = [0; PIECE];
    let mut rest = body;
    loop {
        let (used, after) = next_symbols(rest, &mut piece);
        if used == 0 {
            return Ok(uncounted(Content::Empty));
        }
        let octets = match octets_of(alloc, &piece[..used])? {
            Some(octets) => octets,
            None => return Ok(uncounted(Content::NoBase64)),
        };
        push_first(&mut first, limit, &octets)?;
        count += octets.len();
        if after.is_empty() {
            return Ok(Start {
                content: Content::Octets(first),
                count,
            });
        }
        if octets.len() % 3 != 0 {
            return Ok(uncounted(Content::NoBase64));
        }
        rest = after;
    }
}
