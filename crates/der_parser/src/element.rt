//! An element found by its tag number.

ghost use Rattle.std.specs.Prelude.{◌≡◌, ℕ, List, ◌++◌, length, IfOk, IfErr, IsOkAnd};
ghost use Rattle.asn1_core.specs.Answers.{Gives, TakesNoMemory};
ghost use Rattle.asn1_core.specs.Elements.{Element, head_of_element};
ghost use Rattle.asn1_core.specs.Missing.{IsMissing};
ghost use Rattle.asn1_core.specs.Views.{head_of, length_of};
ghost use Rattle.der_parser.specs.Refusals.{tagged_at};
ghost use Rattle.der_parser.specs.Tagged.{IsTagged, HasTagged};
ghost use Rattle.der_tree.specs.View.{element_under};

use asn1_core::{Err as Refusal, Error, Header, Length, Needed, Tag};
use der_tree::BerResult;

/// An element: its header, its content octets, and all its octets.
#[derive(Clone, Copy)]
pub(crate) struct Tagged<'a> {
    pub header: Header,
    pub content: &'a [u8],
    pub raw: &'a [u8],
}

/// Reads an element of this tag number and any class.
pub(crate) fn element_of_tag(i: &[u8], tag: Tag) -> BerResult<'_, Tagged<'_>>
    ensures found { IfOk result (λ p. IsTagged tag.0 p.1.raw.now (element_under p.1.header p.1.content.now)
        × (head_of p.1.header ≡ head_of_element (element_under p.1.header p.1.content.now))
        × (i.now ≡ p.1.raw.now ++ p.0.now)) }
    ensures only { (e : Element) (s r : List ℕ) → IsTagged tag.0 s e → i.now ≡ s ++ r
        → IsOkAnd result (λ p. (element_under p.1.header p.1.content.now ≡ e) × (p.1.raw.now ≡ s) × (p.0.now ≡ r)) }
    ensures definite { IfOk result (λ p. length_of p.1.header ≡ Length.Definite (length p.1.content.now)) }
    ensures missing { IfErr result (IsMissing (HasTagged tag.0) i.now) }
    ensures memory { IfErr result TakesNoMemory }
    ensures exact { Gives (λ p. (element_under p.1.header p.1.content.now, p.0.now)) result (tagged_at tag.0 i.now) }
{
    let (after, header) = Header::from_der(i)?;
    if let Err(e) = header.assert_tag(tag) {
        return Err(Refusal::Error(e));
    }
    let Length::Definite(size) = header.length() else {
        unreachable!();
    };
    if after.len() < size {
        return Err(Refusal::Incomplete(Needed::Size(size - after.len())));
    }
    let (content, rest) = after.split_at(size);
    let raw = &i[..i.len() - rest.len()];
    Ok((
        rest,
        Tagged {
            header,
            content,
            raw,
        },
    ))
}
