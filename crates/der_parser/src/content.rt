//! The content after a header.

ghost use Rattle.std.specs.Prelude.{◌≡◌, ◌<◌, ◌≤◌, ◌-◌, ℕ, length, IfOk, IfErr, IsErrAnd};
ghost use Rattle.asn1_core.specs.Views.{length_of};
ghost use Rattle.der_parser.specs.Outcome.{ReadsOrWants};
ghost use Rattle.der_parser.specs.Typed.{ReadsContent};
ghost use Rattle.der_tree.specs.Lengths.{HoldsDefinite};
ghost use Rattle.der_tree.specs.Outcome.{IsNotCut};
ghost use Rattle.der_tree.specs.View.{content_view};

use asn1_core::{Err as Refusal, Error, Header, Length, Needed, Tag};
use der_tree::{BerObjectContent, BerResult, content_under};
use std::alloc::Global;

/// Reads the content after a header from the front of `i`, as many octets as the header says, by
/// the rules of universal tag number `tag`. Returns `(rest, content)`, of an object of at most
/// `levels` levels. The header's class and tag number aren't compared. The content of another tag
/// number is returned as raw octets.
///
/// # Errors
///
/// The first that applies: `BerMaxDepth` if `levels` is 0; `IndefiniteLengthUnexpected`;
/// `Incomplete` with the number of octets that are missing; `Failure(OutOfMemory)`; else an error,
/// if the type doesn't allow the content or the constructed bit.
pub fn parse_der_content<'a>(
    alloc: Global,
    i: &'a [u8],
    tag: Tag,
    header: Header,
    levels: usize,
) -> BerResult<'a, BerObjectContent<'a>>
    ensures lengths { IfOk result (λ p. HoldsDefinite (length_of header) p.1 (content_view p.1)) }
    ensures read { ReadsOrWants content_view (ReadsContent levels tag.0 header) i.now result }

    // which refusal
    ensures no_level { levels ≡ 0 → IsErrAnd result (λ e. e ≡ Refusal.Error Error.BerMaxDepth) }
    ensures no_length { 0 < levels → length_of header ≡ Length.Indefinite
        → IsErrAnd result (λ e. e ≡ Refusal.Error Error.IndefiniteLengthUnexpected) }
    ensures cut { (n : ℕ) → 0 < levels → length_of header ≡ Length.Definite n → length i.now < n
        → IsErrAnd result (λ e. e ≡ Refusal.Incomplete (Needed.Size (n - length i.now))) }
    ensures whole { (n : ℕ) → length_of header ≡ Length.Definite n → n ≤ length i.now → IfErr result IsNotCut }
{
    if levels == 0 {
        return Err(Refusal::Error(Error::BerMaxDepth));
    }
    let Length::Definite(size) = header.length() else {
        return Err(Refusal::Error(Error::IndefiniteLengthUnexpected));
    };
    if i.len() < size {
        return Err(Refusal::Incomplete(Needed::Size(size - i.len())));
    }
    let (octets, rest) = i.split_at(size);
    let content = content_under(alloc, header.with_tag(tag), octets, levels - 1)?;
    Ok((rest, content))
}
