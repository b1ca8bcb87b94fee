//! Laws of evidence. Each is a function that does nothing: its contract is the law.

ghost use Rattle.std.specs.Prelude.{◌≡◌, ℕ, List, Result, codes};
ghost use Rattle.cert_graph.specs.declared.inventory.Inventory.{Inventory};
ghost use Rattle.certpath_evidence.specs.declared.reading.EvidenceError.{EvidenceError};
ghost use Rattle.certpath_evidence.specs.Answers.{AnswersEvidence, HasFirstBad, IsReadBack};
ghost use Rattle.certpath_evidence.specs.Evidence.{Told, Fits, evidence};
ghost use Rattle.certpath_evidence.specs.Examples.{three_verdicts};

/// Equal texts are written of inventories that agree.
pub fn one_inventory()
    ensures { (told other : Told) → Fits told → Fits other → evidence told ≡ evidence other → told ≡ other }
{}

/// What is written of an inventory is read back: `read_evidence` returns one that agrees with it,
/// or that memory ran out.
pub fn written_is_read()
    ensures { (told : Told) (answer : Result Inventory EvidenceError) → Fits told → AnswersEvidence (evidence told) answer → IsReadBack told answer }
{}

/// An evidence with a path and two rows, which meets the premises of both laws above; and its text.
pub fn example_of_written_is_read()
    ensures fits { Fits three_verdicts }
    ensures text { evidence three_verdicts ≡ codes "certpath evidence 1\npath 0 3 anchor 1\nnone\nno certificate\nrow\n5 upto 0\n3 any\nrow\n" }
{}

/// A text has one first bad line. So what `read_evidence` returns is a function of the text, unless memory runs out.
pub fn one_first_bad()
    ensures { (text : List ℕ) (m n : ℕ) → HasFirstBad text m → HasFirstBad text n → m ≡ n }
{}
