//! The first fault of elements (X.690, 8, 10 and 11).

ghost use Rattle.std.specs.Prelude.{◌≡◌, ◌==◌, ◌++◌, ℕ, List, MatchOption, IfOk, false};
ghost use Rattle.asn1_core.specs.Answers.{Gives};
ghost use Rattle.asn1_core.specs.Views.{class_number, head_of};
ghost use Rattle.der_tree.specs.Object.{IsCut};
ghost use Rattle.der_tree.specs.Outcome.{cut_at};
ghost use Rattle.der_tree.specs.Tree.{Tree, Trees, octets, all_octets};
ghost use Rattle.der_tree.specs.Shape.{IsObject, AreObjects, BeginsWithObject};
ghost use Rattle.der_tree.specs.View.{element_under};
ghost use Rattle.cert_faults.specs.Elements.{header_wants, content_wants, is_holder, IsBroken};

use crate::places::Expected;
use crate::steps::{Blame, Place, unlike};
use asn1_core::{Class, Err as Refusal, Error, Header, HeaderCount, Length, Needed, ParseResult};
use der_tree::{MAX_OBJECT_SIZE, skip_object_counted};

/// An element: its header and its content octets.
#[derive(Clone, Copy)]
struct Cut<'a> {
    header: Header,
    content: &'a [u8],
}

/// The strict element at the front, of at most `MAX_OBJECT_SIZE` content octets, and the rest.
fn cut_of<'a>(octets: &'a [u8]) -> ParseResult<'a, Cut<'a>>
    ensures exact { Gives (λ p. (element_under p.1.header p.1.content.now, p.0.now)) result (cut_at octets.now) }
    ensures found { IfOk result (λ p. (front : List ℕ) × IsCut front (element_under p.1.header p.1.content.now) × (octets.now ≡ front ++ p.0.now)) }
{
    let (rest, header) = Header::strict(octets)?;
    let size = match header.length() {
        Length::Definite(size) => size,
        Length::Indefinite => return Err(Refusal::Error(Error::InvalidLength)),
    };
    if size > MAX_OBJECT_SIZE {
        return Err(Refusal::Error(Error::InvalidLength));
    }
    if rest.len() < size {
        return Err(Refusal::Incomplete(Needed::Size(size - rest.len())));
    }
    let (content, after) = rest.split_at(size);
    Ok((after, Cut { header, content }))
}

/// What is expected of a header that is refused.
fn header_wants(refusal: Refusal<Error>) -> Expected
    ensures { result ≡ header_wants refusal }
{
    match refusal {
        Refusal::Incomplete(_) => Expected::WholeElement,
        Refusal::Error(error) => match error {
            Error::InvalidTag => Expected::ShortTag,
            Error::InvalidLength => Expected::ShortLength,
            _ => Expected::DefiniteLength,
        },
        Refusal::Failure(_) => Expected::DefiniteLength,
    }
}

/// What the content of an element must be, by its tag number.
fn content_wants(header: Header, content: &[u8]) -> Expected
    ensures { result ≡ content_wants (element_under header content.now) }
{
    if header.constructed() {
        return Expected::Primitive;
    }
    match header.tag().0 {
        1 => Expected::BooleanContent,
        2 => Expected::IntegerContent,
        3 => Expected::BitStringContent,
        5 => Expected::NullContent,
        6 | 13 => Expected::IdentifierContent,
        10 => Expected::EnumeratedContent,
        16 | 17 => Expected::Constructed,
        23 | 24 => Expected::TimeContent,
        0 => Expected::NoEndOfContents,
        _ => Expected::Characters,
    }
}

fn is_universal(class: Class) -> bool
    ensures { result ≡ (class_number class == 0) }
{
    class == Class::Universal
}

/// Whether an element is a constructed SEQUENCE or SET.
fn is_holder(header: Header, content: &[u8]) -> bool
    ensures { result ≡ is_holder (element_under header content.now) }
{
    header.constructed()
        && is_universal(header.class())
        && (header.tag().0 == 16 || header.tag().0 == 17)
}

/// The octets after the object that begins octets, or none.
fn skip(i: &[u8], levels: usize) -> Option<&[u8]>
    ensures { MatchOption result (BeginsWithObject levels i.now → ⊥)
        (λ rest. (t : Tree) × IsObject levels t × (i.now ≡ octets t ++ rest.now)) }
{
    let mut count = HeaderCount::new();
    skip_object_counted(i, levels, &mut count)
}

/// The octets after the objects that begin octets, as many as there are.
fn after_objects(content: &[u8], levels: usize) -> &[u8]
    ensures objects { (ts : Trees) × AreObjects levels ts × (content.now ≡ all_octets ts ++ result.now) }
    ensures over { BeginsWithObject levels result.now → ⊥ }
{
    let mut others = content;
    while let Some(rest) = skip(others, levels) {
        others = rest;
    }
    others
}

/// The first fault of octets that don't begin with a DER object of at most so many levels.
pub(crate) fn first_broken(place: Place, octets: &[u8], left: usize, levels: usize) -> Blame
    requires { BeginsWithObject levels octets.now → ⊥ }
    ensures { IsBroken levels place octets.now left result }
{
    if levels == 0 {
        return unlike(place, Expected::FewLevels, left);
    }
    let (after, cut) = match cut_of(octets) {
        Ok(found) => found,
        Err(refusal) => return unlike(place, header_wants(refusal), left),
    };
    if !is_holder(cut.header, cut.content) {
        return unlike(place, content_wants(cut.header, cut.content), left);
    }
    let others = after_objects(cut.content, levels - 1);
    let before = octets.len().saturating_sub(after.len());
    let before = before.saturating_sub(others.len());
    first_broken(place, others, left.saturating_sub(before), levels - 1)
}
