//! One strict element cut off the front of octets.

ghost use Rattle.std.specs.Prelude.{◌≡◌, ◌+◌, ◌<◌, ◌^◌, ℕ, List, ◌++◌, length, IfOk, IfErr, IsOkAnd};
ghost use Rattle.asn1_core.specs.Counts.{attempts};
ghost use Rattle.asn1_core.specs.Answers.{Gives, TakesNoMemory};
ghost use Rattle.asn1_core.specs.Elements.{Element, head_of_element};
ghost use Rattle.asn1_core.specs.Missing.{IsMissing};
ghost use Rattle.asn1_core.specs.Views.{head_of, length_of};
ghost use Rattle.der_tree.specs.Object.{IsCut, HasCut};
ghost use Rattle.der_tree.specs.Outcome.{cut_at};
ghost use Rattle.der_tree.specs.View.{element_under};

use crate::object::{BerResult, MAX_OBJECT_SIZE};
use asn1_core::{Err as Refusal, Error, Header, HeaderCount, Length, Needed};

/// An element: its header, its content octets, and all its octets.
#[derive(Clone, Copy)]
pub(crate) struct Cut<'a> {
    pub header: Header,
    pub content: &'a [u8],
    pub raw: &'a [u8],
}

/// The strict element at the front, of at most `MAX_OBJECT_SIZE` content octets. One header is tried.
#[inline(always)]
pub(crate) fn cut_of<'a>(i: &'a [u8], count: &mut HeaderCount) -> BerResult<'a, Cut<'a>>
    requires { attempts count.old + 1 < 2 ^ 128 }
    ensures count { attempts count.new ≡ attempts count.old + 1 }
    ensures within { IfOk result (λ p. length p.1.content.now < length i.now) }
    ensures found { IfOk result (λ p. IsCut p.1.raw.now (element_under p.1.header p.1.content.now)
        × (head_of p.1.header ≡ head_of_element (element_under p.1.header p.1.content.now))
        × (i.now ≡ p.1.raw.now ++ p.0.now)) }
    ensures only { (e : Element) (s r : List ℕ) → IsCut s e → i.now ≡ s ++ r
        → IsOkAnd result (λ p. (element_under p.1.header p.1.content.now ≡ e) × (p.1.raw.now ≡ s) × (p.0.now ≡ r)) }
    ensures definite { IfOk result (λ p. length_of p.1.header ≡ Length.Definite (length p.1.content.now)) }
    ensures missing { IfErr result (IsMissing HasCut i.now) }
    ensures memory { IfErr result TakesNoMemory }
    ensures exact { Gives (λ p. (element_under p.1.header p.1.content.now, p.0.now)) result (cut_at i.now) }
{
    let (rest, header) = Header::strict_counted(i, count)?;
    let size = match header.length() {
        Length::Definite(size) => size,
        Length::Indefinite => return Err(Refusal::Error(Error::InvalidLength)),
    };
    if size > MAX_OBJECT_SIZE {
        return Err(Refusal::Error(Error::InvalidLength));
    }
    if rest.len() < size {
        return Err(Refusal::Incomplete(Needed::Size(size - rest.len())));
    }
    let (content, after) = rest.split_at(size);
    let raw = &i[..i.len() - after.len()];
    Ok((
        after,
        Cut {
            header,
            content,
            raw,
        },
    ))
}
