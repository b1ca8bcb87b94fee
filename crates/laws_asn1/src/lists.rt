//! Premises of the laws of iterators and of sets (`asn1_lists`): false and true, `01 01 00 01 01 ff`.

ghost use Rattle.std.specs.Prelude.{false, true, None, [], ◌∷◌};
ghost use Rattle.std.specs.Iterator.{YieldsThen};
ghost use Rattle.std.specs.List.Sorted.{IsPermutation};
ghost use Rattle.asn1_lists.specs.Ordered.{Ascending, encodings};
ghost use Rattle.asn1_lists.specs.Steps.{Given, Steps};
ghost use Rattle.asn1_traits.specs.Lists.{AllRead};
ghost use Rattle.laws_asn1.specs.Lists.{two_answers, two_booleans, two_encodings};

use asn1_core::Error;
use asn1_traits::{BerMeaning, DerMeaning, ToDer};

/// By DER's rules: two calls give the values, and the third nothing.
pub fn example_of_calls()
    ensures given { YieldsThen (Steps (⟦<Error as From<Error>>⟧.from_gives) (⟦<bool as DerMeaning>⟧.der_grows) (⟦<bool as DerMeaning>⟧.der_reads)) two_booleans two_answers None [] }
    ensures ends { Steps (⟦<Error as From<Error>>⟧.from_gives) (⟦<bool as DerMeaning>⟧.der_grows) (⟦<bool as DerMeaning>⟧.der_reads) [] None [] }
    ensures values { AllRead (⟦<bool as DerMeaning>⟧.der_reads) two_booleans (false ∷ true ∷ [])
        × Given (⟦<Error as From<Error>>⟧.from_gives) (⟦<bool as DerMeaning>⟧.der_grows) (⟦<bool as DerMeaning>⟧.der_reads) two_booleans two_answers }
{}

/// By BER's rules: two calls give the values, and the third nothing.
pub fn example_of_ber_calls()
    ensures given { YieldsThen (Steps (⟦<Error as From<Error>>⟧.from_gives) (⟦<bool as BerMeaning>⟧.ber_grows) (⟦<bool as BerMeaning>⟧.ber_reads)) two_booleans two_answers None [] }
    ensures ends { Steps (⟦<Error as From<Error>>⟧.from_gives) (⟦<bool as BerMeaning>⟧.ber_grows) (⟦<bool as BerMeaning>⟧.ber_reads) [] None [] }
    ensures values { AllRead (⟦<bool as BerMeaning>⟧.ber_reads) two_booleans (false ∷ true ∷ [])
        × Given (⟦<Error as From<Error>>⟧.from_gives) (⟦<bool as BerMeaning>⟧.ber_grows) (⟦<bool as BerMeaning>⟧.ber_reads) two_booleans two_answers }
{}

/// The values in both orders, and their encodings in the one that ascends.
pub fn example_of_sets()
    ensures encodings { IsPermutation (encodings (⟦<bool as ToDer>⟧.element) (true ∷ false ∷ [])) (encodings (⟦<bool as ToDer>⟧.element) (false ∷ true ∷ [])) }
    ensures one { Ascending two_encodings × Ascending two_encodings × IsPermutation two_encodings two_encodings }
{}
