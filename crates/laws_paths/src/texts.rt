//! Premises of the laws of evidence (`certpath_evidence`) and of PEM (`certpath_pem`).

ghost use Rattle.std.specs.Prelude.{◌≡◌, ◌≢◌, Ok, codes, true, []};
ghost use Rattle.base64.specs.GeneralPurpose.{IsBytes};
ghost use Rattle.certpath_evidence.specs.Answers.{AnswersEvidence, HasFirstBad};
ghost use Rattle.certpath_evidence.specs.Evidence.{Fits, evidence};
ghost use Rattle.certpath_evidence.specs.Examples.{three_verdicts};
ghost use Rattle.certpath_pem.specs.Labels.{is_label};
ghost use Rattle.laws_paths.specs.Worked.{bad_text, null_octets, three};

use std::alloc::Global;

/// An evidence of three verdicts, the text of which is that of an inventory.
pub fn example_of_evidence(alloc: Global)
    ensures same { Fits three_verdicts × (evidence three_verdicts ≡ evidence three_verdicts) }
    ensures read { AnswersEvidence (evidence three_verdicts) (Ok (three alloc)) }
{}

/// A text whose first line is bad.
pub fn example_of_a_bad_line()
    ensures { HasFirstBad bad_text 1 }
{}

/// A label of two words, and two octets.
pub fn example_of_a_block()
    ensures { (is_label (codes "X509 CRL") ≡ true) × IsBytes null_octets × (null_octets ≢ []) }
{}
