//! Premises of the laws of voucher files (`cert_vouchers`).

ghost use Rattle.std.specs.Prelude.{◌≡◌, Ok, Err, [], ◌∷◌};
ghost use Rattle.std.specs.List.{concat, AllByRecursion};
ghost use Rattle.cert_vouchers.specs.Answers.{AnswersVouchers};
ghost use Rattle.cert_vouchers.specs.Reader.{Finishes, HasTaken, TakesPieces};
ghost use Rattle.cert_vouchers.specs.VoucherFile.{AreLines, IsFirstBad, IsWell, TellsPair};
ghost use Rattle.cert_vouchers.specs.declared.reading.VoucherError.TheVariants.{BadLine};
ghost use Rattle.laws_items.specs.VoucherFiles.{empty_line, letter, no_vouchers, reader_at, two_lines, zeros, zeros_line};

use std::alloc::Global;

/// A line with a pair, an empty one, and a letter, which is a bad line.
pub fn example_of_lines()
    ensures lines { AreLines (10 ∷ letter) ([] ∷ []) letter }
    ensures pair { TellsPair zeros_line zeros zeros }
    ensures well { AllByRecursion IsWell (zeros_line ∷ [] ∷ []) }
    ensures bad { IsFirstBad two_lines 2 }
    ensures answer { AnswersVouchers (10 ∷ letter) (Err (BadLine 2)) }
{}

/// An empty line, in one piece and in two: both readers finish without a pair.
pub fn example_of_cuttings(alloc: Global)
    ensures { HasTaken (reader_at alloc 1) [] × TakesPieces (reader_at alloc 1) (empty_line ∷ []) (reader_at alloc 2)
        × TakesPieces (reader_at alloc 1) ([] ∷ empty_line ∷ []) (reader_at alloc 2)
        × (concat (empty_line ∷ []) ≡ concat ([] ∷ empty_line ∷ []))
        × Finishes (reader_at alloc 2) (Ok (no_vouchers alloc)) }
{}
