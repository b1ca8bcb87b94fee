//! Laws of voucher files. Each is a function that does nothing: its contract is the law.

ghost use Rattle.std.specs.Prelude.{◌≡◌, ℕ, List, [], Result};
ghost use Rattle.std.specs.List.{concat, AllByRecursion};
ghost use Rattle.cert_vouchers.specs.declared.vouchers.Vouchers.{Vouchers};
ghost use Rattle.cert_vouchers.specs.declared.reading.VoucherError.{VoucherError};
ghost use Rattle.cert_vouchers.specs.declared.reader.VoucherReader.{VoucherReader};
ghost use Rattle.cert_vouchers.specs.Answers.{AnswersVouchers};
ghost use Rattle.cert_vouchers.specs.Reader.{HasTaken, TakesPieces, Finishes, Agree};
ghost use Rattle.cert_vouchers.specs.VoucherFile.{AreLines, IsWell, IsFirstBad, TellsPair};

/// A text has one list of lines. So what `read_vouchers` returns is a function of the text, unless
/// memory runs out.
pub fn one_list_of_lines()
    ensures { (text : List ℕ) (ended others : List (List ℕ)) (last end : List ℕ) → AreLines text ended last → AreLines text others end → (ended ≡ others) × (last ≡ end) }
{}

/// There is one first bad line, or there is none and all lines are good.
pub fn one_first_bad()
    ensures once { (lines : List (List ℕ)) (m n : ℕ) → IsFirstBad lines m → IsFirstBad lines n → m ≡ n }
    ensures none { (lines : List (List ℕ)) (n : ℕ) → AllByRecursion IsWell lines → IsFirstBad lines n → ⊥ }
{}

/// A line holds one pair.
pub fn one_pair()
    ensures { (line key item other_key other_item : List ℕ) → TellsPair line key item → TellsPair line other_key other_item → (key ≡ other_key) × (item ≡ other_item) }
{}

/// A text has one answer, unless memory is refused.
pub fn one_answer()
    ensures { (text : List ℕ) (answer other : Result Vouchers VoucherError) → AnswersVouchers text answer → AnswersVouchers text other → Agree answer other }
{}

/// However a text is cut into pieces, empty ones too, the readers that took them finish alike, unless
/// memory is refused.
pub fn any_cutting()
    ensures { (pieces others : List (List ℕ)) (start other_start last other_last : VoucherReader) (answer other : Result Vouchers VoucherError)
        → HasTaken start [] → HasTaken other_start [] → TakesPieces start pieces last → TakesPieces other_start others other_last
        → concat pieces ≡ concat others → Finishes last answer → Finishes other_last other → Agree answer other }
{}
