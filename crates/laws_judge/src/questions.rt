//! Premises of the laws of questions (`cert_questions`).

ghost use Rattle.std.specs.Prelude.{false, [], ◌∷◌};
ghost use Rattle.cert_model.specs.Examples.{authority_b, issued_by_b};
ghost use Rattle.cert_judge.specs.Examples.{in_june, numbered};
ghost use Rattle.cert_judge.specs.Items.{rules_at};
ghost use Rattle.cert_questions.specs.Agreeing.{AgreeOnQuestions};
ghost use Rattle.laws_judge.specs.Worked.{under_c};

use crate::vouching::{Anything, FirstTwo};
use cert_judge::Vouch;

/// Two values that vouch for the same of two items, so on each question.
pub fn example_of_questions_by(_vouch: &FirstTwo, _other: &Anything)
    ensures { AgreeOnQuestions (rules_at in_june false (⟦<FirstTwo as Vouch>⟧.vouches_for _vouch.now)) (rules_at in_june false (⟦<Anything as Vouch>⟧.vouches_for _other.now)) (numbered 1 issued_by_b ∷ numbered 2 authority_b ∷ []) under_c }
{}
