//! Reading elements from the front of a slice.
//!
//! Each reader returns what a function on lists of `specs/Reading.antt` returns, errors included;
//! the meaning is in the contracts of the public readers of `Any`.

ghost use Rattle.std.specs.Prelude.{◌≡◌, ◌+◌, ◌-◌, ◌^◌, ◌<◌, length, option_map, IfOk};
ghost use Rattle.asn1_core.specs.Answers.{Gives};
ghost use Rattle.asn1_core.specs.Counts.{attempts};
ghost use Rattle.asn1_core.specs.Views.{IsDefinite, length_of, head_of, ber_head_of};
ghost use Rattle.asn1_any.specs.Reading.{part_at, end_at, past_contents, indefinite_at, content_at, der_element_at, ber_element_at};
ghost use Rattle.asn1_any.specs.Views.{any_of, ber_any_of};

use crate::any::Any;
use asn1_core::{Err as Refusal, Error, Header, HeaderCount, Length, Needed, ParseResult};

/// How many elements `Any::from_ber` nests, the outermost counted: 50. Elements in a definite
/// content don't count.
pub const MAX_RECURSION: usize = 50;

// Reads `n` octets, whatever they are; returns `(rest, octets)`.
#[inline(always)]
fn part(n: usize, octets: &[u8]) -> ParseResult<'_, &[u8]>
    ensures { Gives (λ r. (r.1.now, r.0.now)) result (part_at n octets.now) }
{
    if octets.len() < n {
        return Err(Refusal::Incomplete(Needed::Size(n - octets.len())));
    }
    let (content, rest) = octets.split_at(n);
    Ok((rest, content))
}

// The element of a header of definite length, whose content begins here.
#[inline(always)]
fn definite<'a>(header: Header, after: &'a [u8]) -> ParseResult<'a, Any<'a>>
    requires { IsDefinite (length_of header) }
    ensures exact { Gives (λ r. (any_of r.1, r.0.now)) result (content_at (head_of header) after.now) }
    ensures length { IfOk result (λ r. length_of r.1.header ≡ Length.Definite (length r.1.content.now)) }
{
    let Length::Definite(n) = header.length() else {
        unreachable!();
    };
    let (rest, content) = part(n, after)?;
    Ok((rest, Any { header, content }))
}

/// Reads an element of definite length.
#[inline(always)]
#[tactic(auto, unfolding(crate::specs::Reading::der_element_at))]
pub(crate) fn der_element(i: &[u8]) -> ParseResult<'_, Any<'_>>
    ensures exact { Gives (λ r. (any_of r.1, r.0.now)) result (der_element_at i.now) }
    ensures length { IfOk result (λ r. length_of r.1.header ≡ Length.Definite (length r.1.content.now)) }
{
    let (after, header) = Header::from_der(i)?;
    definite(header, after)
}

/// Reads an element of definite length, and adds one header attempt to `count`.
#[inline(always)]
#[tactic(auto, unfolding(crate::specs::Reading::der_element_at))]
pub(crate) fn der_element_counted<'a>(
    i: &'a [u8],
    count: &mut HeaderCount,
) -> ParseResult<'a, Any<'a>>
    requires { attempts count.old + 1 < 2 ^ 128 }
    ensures count { attempts count.new ≡ attempts count.old + 1 }
    ensures exact { Gives (λ r. (any_of r.1, r.0.now)) result (der_element_at i.now) }
    ensures length { IfOk result (λ r. length_of r.1.header ≡ Length.Definite (length r.1.content.now)) }
{
    let (after, header) = Header::from_der_counted(i, count)?;
    definite(header, after)
}

// The octets after end-of-contents octets, if these begin them (X.690, 8.1.5).
fn after_end(octets: &[u8]) -> Option<&[u8]>
    ensures { option_map (λ r. r.now) result ≡ end_at octets.now }
{
    match octets {
        [0, 0, rest @ ..] => Some(rest),
        _ => None,
    }
}

// The octets after the end-of-contents octets of an element of the indefinite form, whose content
// begins here (X.690, 8.1.3.6). `nested` elements are open, and `levels` are left for those within
// the innermost.
fn after_contents(octets: &[u8], within: usize) -> Result<&[u8], Refusal<Error>>
    requires { within + 1 < 2 ^ 64 }
    ensures { Gives (λ r. r.now) result (past_contents (length octets.now) within 1 octets.now) }
{
    let mut rest = octets;
    let mut nested = 1usize;
    let mut levels = within;
    while nested > 0 {
        match after_end(rest) {
            Some(after) => {
                rest = after;
                nested -= 1;
                levels += 1;
            }
            None => {
                let (after, header) = Header::from_ber(rest)?;
                if levels == 0 {
                    return Err(Refusal::Error(Error::BerMaxDepth));
                }
                match header.length() {
                    Length::Definite(n) => {
                        let (behind, _) = part(n, after)?;
                        rest = behind;
                    }
                    Length::Indefinite => {
                        rest = after;
                        nested += 1;
                        levels -= 1;
                    }
                }
            }
        }
    }
    Ok(rest)
}

// Reads the content of an element with this header, of the indefinite form; returns `(rest,
// element)`.
fn indefinite<'a>(header: Header, after: &'a [u8], levels: usize) -> ParseResult<'a, Any<'a>>
    requires { levels + 1 < 2 ^ 64 }
    ensures { Gives (λ r. (ber_any_of r.1, r.0.now)) result
        (indefinite_at (ber_head_of header) after.now (past_contents (length after.now) levels 1 after.now)) }
{
    let rest = after_contents(after, levels)?;
    let (content, _) = after.split_at(after.len() - rest.len() - 2);
    Ok((rest, Any { header, content }))
}

/// Reads an element of definite length or of the indefinite form, with at most `levels` nested in
/// it.
#[tactic(auto, unfolding(crate::specs::Reading::ber_element_at))]
pub(crate) fn ber_element(i: &[u8], levels: usize) -> ParseResult<'_, Any<'_>>
    requires { levels + 1 < 2 ^ 64 }
    ensures { Gives (λ r. (ber_any_of r.1, r.0.now)) result (ber_element_at levels i.now) }
{
    let (after, header) = Header::from_ber(i)?;
    match header.length() {
        Length::Definite(n) => {
            let (rest, content) = part(n, after)?;
            Ok((rest, Any { header, content }))
        }
        Length::Indefinite => indefinite(header, after, levels),
    }
}
