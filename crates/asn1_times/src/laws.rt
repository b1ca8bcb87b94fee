//! What is so of all times.

ghost use Rattle.std.specs.Prelude.{◌≡◌, ◌↔◌, ℕ, List, Some, Ok};
ghost use Rattle.asn1_times.specs.UtcTimes.{IsUtcTime, utc_octets, UtcMeans};
ghost use Rattle.asn1_times.specs.GeneralizedTimes.{IsGeneralizedTime, generalized_octets, GeneralizedMeans, HasSecondsAndZ};
ghost use Rattle.asn1_times.specs.Moments.{IsMomentOf};
ghost use Rattle.asn1_times.specs.Readers.{utc_time_at, generalized_time_at, der_check, der_generalized_time_at, moment_at};
ghost use Rattle.asn1_times.specs.declared.datetime.ASN1DateTime.{ASN1DateTime};
ghost use Rattle.jiff.specs.Words.{civil_nanos};
ghost use Rattle.jiff_core.specs.declared.civil.datetime.DateTime.{DateTime};

/// Content octets of a UTCTime mean at most one time.
pub fn one_utc_time()
    ensures { (content : List ℕ) (t u : ASN1DateTime) → UtcMeans content t → UtcMeans content u → t ≡ u }
{}

/// Two different UTCTimes in DER form are written as different octets.
pub fn utc_octets_differ()
    ensures { (t u : ASN1DateTime) → IsUtcTime t → IsUtcTime u → utc_octets t ≡ utc_octets u → t ≡ u }
{}

/// Content octets of a GeneralizedTime mean at most one time, by BER too.
pub fn one_generalized_time()
    ensures { (content : List ℕ) (t u : ASN1DateTime) → GeneralizedMeans content t → GeneralizedMeans content u → t ≡ u }
{}

/// DER accepts of a GeneralizedTime what is written of it in DER form, and nothing else.
pub fn der_generalized_times()
    ensures { (content : List ℕ) (t : ASN1DateTime) → (HasSecondsAndZ content × GeneralizedMeans content t) ↔ (IsGeneralizedTime t × (content ≡ generalized_octets t)) }
{}

/// The function of the reader of UTCTimes finds what content octets mean, and nothing else.
pub fn utc_time_function()
    ensures { (content : List ℕ) (t : ASN1DateTime) → (utc_time_at content ≡ Some t) ↔ UtcMeans content t }
{}

/// The functions of the reader of GeneralizedTimes, by BER and by DER, find what content octets
/// mean, and nothing else.
pub fn generalized_time_functions()
    ensures ber { (content : List ℕ) (t : ASN1DateTime) → (generalized_time_at content ≡ Some t) ↔ GeneralizedMeans content t }
    ensures allowed { (content : List ℕ) → (der_check content ≡ Ok tt) ↔ HasSecondsAndZ content }
    ensures der { (content : List ℕ) (t : ASN1DateTime) → (der_generalized_time_at content ≡ Some t) ↔ (HasSecondsAndZ content × GeneralizedMeans content t) }
{}

/// The function of the date-time calls finds the moment of a date and time, and nothing else.
pub fn moment_function()
    ensures { (year : ℕ) (t : ASN1DateTime) (r : DateTime) → (moment_at year t ≡ Some (civil_nanos r)) ↔ IsMomentOf year t r }
{}
