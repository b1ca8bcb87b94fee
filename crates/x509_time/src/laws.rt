//! Laws of times. Each is a function without an effect; its contract is the law.

ghost use Rattle.std.specs.Prelude.{◌≡◌, ◌↔◌, ◌++◌, ℕ, List, Option, Some, Ok, ℤ, pos, ◌≤ℤ◌, true};
ghost use Rattle.std.specs.Int.Digits.{AllBelowBase};
ghost use Rattle.asn1_any.specs.Cutting.{Piece};
ghost use Rattle.jiff.specs.Words.{civil_nanos};
ghost use Rattle.jiff_core.specs.declared.civil.datetime.DateTime.{DateTime};
ghost use Rattle.x509_time.specs.Calls.{is_late};
ghost use Rattle.x509_time.specs.Examples as examples;
ghost use Rattle.x509_time.specs.Reading.{general_nanos_at, time_in, time_at, validity_at, next_update_at};
ghost use Rattle.x509_time.specs.Times.{Time, Period, GeneralMoment, IsTime, ASN1Time, Validity};
ghost use Rattle.x509_time.specs.Updates.{NextUpdate};

/// Worked octets and what is read from them, whatever octets follow.
pub fn worked_times()
    ensures time { (rest : List ℕ) → ASN1Time (examples.start_octets ++ rest) examples.start rest }
    ensures validity { (rest : List ℕ) → Validity (examples.period_octets ++ rest) examples.period rest }
{}

/// The function in the contract of `ASN1Time::from_der` finds the times that begin octets, and
/// nothing else.
pub fn time_function()
    ensures found { (i : List ℕ) (v : Time) (rest : List ℕ) → AllBelowBase 256 i → time_at i ≡ Ok (v, rest) → ASN1Time i v rest }
    ensures only { (i : List ℕ) (v : Time) (rest : List ℕ) → AllBelowBase 256 i → ASN1Time i v rest → time_at i ≡ Ok (v, rest) }
{}

/// The function in the contract of `time_of` finds the time that an element means, and nothing
/// else.
pub fn element_time_function()
    ensures { (piece : Piece) (v : Time) → (time_in piece.element ≡ Some v) ↔ IsTime piece v }
{}

/// The function in the contract of `general_moment` finds the moment of a GeneralizedTime's
/// content, and nothing else.
pub fn general_moment_function()
    ensures { (content : List ℕ) (nanoseconds : ℤ) → (general_nanos_at content ≡ Some nanoseconds) ↔ GeneralMoment content nanoseconds }
{}

/// The function in the contract of `Validity::from_der` finds the validities that begin octets, and
/// nothing else.
pub fn validity_function()
    ensures found { (i : List ℕ) (v : Period) (rest : List ℕ) → AllBelowBase 256 i → validity_at i ≡ Ok (v, rest) → Validity i v rest }
    ensures only { (i : List ℕ) (v : Period) (rest : List ℕ) → AllBelowBase 256 i → Validity i v rest → validity_at i ≡ Ok (v, rest) }
{}

/// The function in the contract of `next_update` finds the time that begins octets, or that there
/// is none, and nothing else.
pub fn next_update_function()
    ensures found { (i : List ℕ) (v : Option Time) (rest : List ℕ) → AllBelowBase 256 i → next_update_at i ≡ Ok (v, rest) → NextUpdate i v rest }
    ensures only { (i : List ℕ) (v : Option Time) (rest : List ℕ) → AllBelowBase 256 i → NextUpdate i v rest → next_update_at i ≡ Ok (v, rest) }
{}

/// A moment is in a year from 2050 on exactly if it is at least 2,524,608,000 seconds after the
/// beginning of 1970.
pub fn late_moments()
    ensures { (moment : DateTime) → (is_late moment ≡ true) ↔ (pos 2_524_608_000_000_000_000 ≤ℤ civil_nanos moment) }
{}
