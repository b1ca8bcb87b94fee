//! The text of questions.

ghost use Rattle.std.specs.Prelude.{◌≡◌, ◌++◌, string_bytes, IfOk, OnOk};
ghost use Rattle.cert_questions.specs.Text.{question_line, question_lines};

use crate::question::{KeyHolder, Question};
use std::alloc::{AllocError, Global};

fn push_line(text: &mut String, question: &Question) -> Result<(), AllocError>
    ensures { OnOk result (string_bytes text.new ≡ string_bytes text.old ++ question_line question.now) }
{
    match question.holder {
        KeyHolder::Item(holder) => writeln!(text, "{} item {holder}", question.item),
        KeyHolder::Anchor(holder) => writeln!(text, "{} anchor {holder}", question.item),
    }
}

/// A line for each question: the item's position, the word `item` or `anchor`, and the key holder's
/// position. The only error is out of memory.
pub fn text_of(alloc: Global, questions: &[Question]) -> Result<String, AllocError>
    ensures { IfOk result (λ text. string_bytes text ≡ question_lines questions.now) }
{
    let mut text = String::new(alloc);
    for question in questions {
        push_line(&mut text, question)?;
    }
    Ok(text)
}
