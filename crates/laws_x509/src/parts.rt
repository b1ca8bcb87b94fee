//! Premises of the laws of parts of items: an algorithm, a name, a key and times.

ghost use Rattle.std.specs.Prelude.{◌≡◌, ◌<◌, ◌^◌, Ok, Some, length, [], ◌++◌};
ghost use Rattle.std.specs.Int.Digits.{AllBelowBase};
ghost use Rattle.cert_model.specs.Examples.{algorithm, common_name, key, new_year};
ghost use Rattle.cert_model.specs.Octets.{algorithm_octets, key_octets, name_octets};
ghost use Rattle.cert_model.specs.Range.{IsAlgorithm, IsKey, IsName, IsTimeField};
ghost use Rattle.x509_time.specs.Examples.{period, period_octets, start, start_octets};
ghost use Rattle.x509_time.specs.Reading.{next_update_at, time_at, validity_at};
ghost use Rattle.x509_time.specs.Times.{ASN1Time, Validity};
ghost use Rattle.x509_time.specs.Updates.{NextUpdate};

/// An algorithm without parameters, a name of one common name, a key without bits, and the beginning of 2025.
pub fn example_of_parts()
    ensures algorithm { IsAlgorithm algorithm × (length (algorithm_octets algorithm) < 2 ^ 64) }
    ensures name { IsName (common_name 0x62) × (length (name_octets (common_name 0x62)) < 2 ^ 64) }
    ensures key { IsKey key × (length (key_octets key) < 2 ^ 64) }
    ensures time { IsTimeField (new_year 2025) }
{}

/// The beginning of 2025, and the year, at the front of octets.
pub fn example_of_times()
    ensures time { AllBelowBase 256 start_octets × ASN1Time start_octets start [] × (time_at start_octets ≡ Ok (start, [])) }
    ensures validity { AllBelowBase 256 period_octets × Validity period_octets period [] × (validity_at period_octets ≡ Ok (period, [])) }
    ensures update { AllBelowBase 256 start_octets × NextUpdate start_octets (Some start) []
        × (next_update_at start_octets ≡ Ok ((Some start), [])) }
{}
