//! The questions of signatures.

ghost use Rattle.std.specs.Prelude.{◌≡◌, map, IfOk};
ghost use Rattle.certpath_c.specs.Asking.{row_of, QuestionsAnswer};

use crate::framing::items_of;
use crate::status::{DONE, OUT_OF_MEMORY, TOO_SMALL};
use crate::writing::put;
use cert_questions::{KeyHolder, Question, questions};
use std::alloc::{AllocError, Global};

/// A question.
#[repr(C)]
#[derive(Clone, Copy, Debug)]
pub struct QuestionRow {
    pub item: usize,
    pub holder: usize,
    pub is_anchor: u32,
}

fn row_of(question: &Question) -> QuestionRow
    ensures { result ≡ row_of question.now }
{
    match question.holder {
        KeyHolder::Item(holder) => QuestionRow {
            item: question.item,
            holder,
            is_anchor: 0,
        },
        KeyHolder::Anchor(holder) => QuestionRow {
            item: question.item,
            holder,
            is_anchor: 1,
        },
    }
}

fn rows_of(alloc: Global, questions: &[Question]) -> Result<Vec<QuestionRow>, AllocError>
    ensures { IfOk result (λ rows. rows.items ≡ map row_of questions.now) }
{
    questions
        .iter()
        .map(|question| row_of(question))
        .collect(alloc)
}

/// `certpath_questions` of the header.
#[unsafe(no_mangle)]
pub extern "C" fn certpath_questions(
    alloc: Global,
    bundle: &[u8],
    anchors: &[u8],
    limit: u32,
    rows: &mut [QuestionRow],
    count: &mut usize,
) -> i32
    ensures { QuestionsAnswer bundle.now anchors.now limit rows.old rows.new count.old count.new result }
{
    let Ok(items) = items_of(alloc, bundle, limit) else {
        return OUT_OF_MEMORY;
    };
    let Ok(anchor_items) = items_of(alloc, anchors, limit) else {
        return OUT_OF_MEMORY;
    };
    let Ok(asked) = questions(alloc, &items, &anchor_items) else {
        return OUT_OF_MEMORY;
    };
    let Ok(found) = rows_of(alloc, &asked) else {
        return OUT_OF_MEMORY;
    };
    *count = asked.len();
    if put(rows, &found) { DONE } else { TOO_SMALL }
}
