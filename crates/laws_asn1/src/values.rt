//! Premises of the laws of integers (`asn1_values`) and of times (`asn1_times`).

ghost use Rattle.std.specs.Prelude.{◌≡◌, [], ◌∷◌};
ghost use Rattle.std.specs.Int.Digits.{AllBelowBase};
ghost use Rattle.asn1_times.specs.GeneralizedTimes.{GeneralizedMeans};
ghost use Rattle.asn1_times.specs.UtcTimes.{IsUtcTime, utc_octets, UtcMeans};
ghost use Rattle.asn1_traits.specs.Integers.{IsShortest, twos_complement};
ghost use Rattle.laws_asn1.specs.Times.{general_content, general_time, utc_content, utc_time};

/// 128, whose shortest content is `00 80`.
pub fn example_of_one_number()
    ensures { AllBelowBase 256 (0x00 ∷ 0x80 ∷ []) × IsShortest (0x00 ∷ 0x80 ∷ [])
        × (twos_complement (0x00 ∷ 0x80 ∷ []) ≡ twos_complement (0x00 ∷ 0x80 ∷ [])) }
{}

/// `250102030405Z`.
pub fn example_of_one_utc_time()
    ensures { UtcMeans utc_content utc_time × IsUtcTime utc_time × (utc_octets utc_time ≡ utc_octets utc_time) }
{}

/// `20250102030405Z`.
pub fn example_of_one_generalized_time()
    ensures { GeneralizedMeans general_content general_time }
{}
