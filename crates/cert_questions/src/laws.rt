//! Laws of questions. Each is a function that does nothing: its contract is the law.

ghost use Rattle.std.specs.Prelude.{ℕ, Bool, false, List, IsTrue, [], ◌∷◌};
ghost use Rattle.cert_model.specs.Fields.{CivilTime};
ghost use Rattle.cert_judge.specs.Items.{rules_at};
ghost use Rattle.cert_judge.specs.LawsOfItems.{rules_from};
ghost use Rattle.cert_judge.specs.Revoking.{Item};
ghost use Rattle.cert_judge.specs.Examples.{in_june, told_backwards, vouching_for_both};
ghost use Rattle.cert_questions.specs.Agreeing.{AgreeOnQuestions, SayTheSameOf};
ghost use Rattle.cert_questions.specs.Examples.{anchor_c, vouching_for_a_third};
ghost use Rattle.cert_questions.specs.Questions.{IsQuestion};

use cert_judge::Vouch;

/// Two tests that agree on each question of items and anchors have equal valid paths, equal true
/// answers and inventories, and equal adequate ones. They process no extension.
pub fn questions_suffice()
    ensures { (moment : CivilTime) (demand : Bool) (vouches others : List ℕ → List ℕ → Bool) (items anchors : List Item)
        → AgreeOnQuestions (rules_from moment demand vouches) (rules_from moment demand others) items anchors
        → SayTheSameOf (rules_from moment demand vouches) (rules_from moment demand others) items anchors }
{}

/// Two values that vouch alike on each question, and process equal extensions of certificates, have
/// equal valid paths, equal true answers and inventories, and equal adequate ones.
pub fn questions_suffice_by<V: Vouch, W: Vouch>(_vouch: &V, _other: &W)
    ensures { (moment : CivilTime) (demand : Bool) (items anchors : List Item)
        → let r = rules_at moment demand (V.vouches_for _vouch.now) in let s = rules_at moment demand (W.vouches_for _other.now) in
        AgreeOnQuestions r s items anchors → SayTheSameOf r s items anchors }
{}

/// Of a certificate after its issuer's: whether the issuer's key signed it is a question. A test
/// that vouches for a further item, which isn't among them, agrees on all questions.
pub fn example_of_questions()
    ensures question { IsQuestion told_backwards anchor_c 1 0 }
    ensures premise { AgreeOnQuestions (rules_from in_june false (vouching_for_both 1 2)) (rules_from in_june false vouching_for_a_third) told_backwards anchor_c }
    ensures more { (key : List ℕ) → IsTrue (vouching_for_a_third key (3 ∷ [])) }
    ensures before { (key : List ℕ) → IsTrue (vouching_for_both 1 2 key (3 ∷ [])) → ⊥ }
{}
