//! The questions of items and anchors.

ghost use Rattle.std.specs.Prelude.{◌≡◌, ◌++◌, List, map, length, IfOk, OnOk};
ghost use Rattle.cert_judge.specs.Classed.{AreClassed};
ghost use Rattle.cert_judge.specs.Revoking.{Item};
ghost use Rattle.cert_questions.specs.Questions.{AreQuestions};
ghost use Rattle.cert_questions.specs.Places.{places_of, holder_at, asked_of};

use crate::firsts::KeyHolders;
use crate::names::{Shown, all_shown};
use crate::question::{KeyHolder, Question};
use asn1_core::OutOfMemory;
use cert_framing::Items;
use cert_graph::Place;
use std::alloc::{AllocError, Global};

/// The key holders among items, then those among anchors.
fn holders_of<'a>(
    alloc: Global,
    items: &[Shown<'a>],
    anchors: &[Shown<'a>],
) -> Result<Vec<Place<'a>>, AllocError>
    ensures { IfOk result (λ holders. holders.items ≡ places_of items.now ++ places_of anchors.now) }
{
    let mut holders = Vec::new(alloc);
    for item in items {
        holders.push(item.holder)?;
    }
    for anchor in anchors {
        holders.push(anchor.holder)?;
    }
    Ok(holders)
}

/// The key holder at a place: one of so many items, or an anchor after them.
fn holder_at(items: usize, place: usize) -> KeyHolder
    ensures { result ≡ holder_at items place }
{
    if place < items {
        KeyHolder::Item(place)
    } else {
        KeyHolder::Anchor(place - items)
    }
}

/// The questions of one item.
fn push_questions(
    questions: &mut Vec<Question>,
    items: usize,
    item: usize,
    holders: &[usize],
) -> Result<(), AllocError>
    ensures { OnOk result (questions.new.items ≡ questions.old.items ++ map (asked_of items item) holders.now) }
{
    for place in holders {
        let holder = holder_at(items, *place);
        questions.push(Question { item, holder })?;
    }
    Ok(())
}

/// Returns all questions of items and anchors: for each certificate and list among the items, each
/// key that a certificate among the items or the anchors has under the name of its issuer. Equal
/// keys are asked once, by the first holder. They come in the order of the items, and for each item
/// its holders among the items come first.
///
/// The only error is out of memory. Each item is read once, by trees. It takes as many comparisons
/// of names and keys as look-ups in sorted maps of them, and a step for each question. Of n items
/// of one name there may be n times n questions.
pub fn questions<'a>(
    alloc: Global,
    items: &'a Items,
    anchors: &'a Items,
) -> Result<Vec<Question>, OutOfMemory>
    ensures { IfOk result (λ questions. (classed classed_anchors : List Item) × AreClassed items.now.items classed × AreClassed anchors.now.items classed_anchors
        × AreQuestions classed classed_anchors questions.items) }
{
    let shown = all_shown(alloc, items)?;
    let anchors_shown = all_shown(alloc, anchors)?;
    let all = holders_of(alloc, &shown, &anchors_shown)?;
    let holders = KeyHolders::new(alloc, &all)?;
    let mut questions = Vec::new(alloc);
    for (item, one) in shown.iter().enumerate() {
        if let Some(name) = one.issuer {
            push_questions(&mut questions, shown.len(), item, holders.under(name))?;
        }
    }
    Ok(questions)
}
