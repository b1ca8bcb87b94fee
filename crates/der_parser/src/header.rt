//! Headers alone.

ghost use Rattle.std.specs.Prelude.{◌≡◌, ◌+◌, ◌≤◌, ℕ, List, ◌++◌, length, IfOk, IfErr, IsOkAnd};
ghost use Rattle.asn1_core.specs.Answers.{Gives, TakesNoMemory};
ghost use Rattle.asn1_core.specs.Lenient.{SpellsHeader, BerHead, IsBerHead, SpellsBerHeader};
ghost use Rattle.asn1_core.specs.Missing.{HasHeader, HasBerHeader, IsMissing};
ghost use Rattle.asn1_core.specs.Reading.{ber_header_at, header_at};
ghost use Rattle.asn1_core.specs.Strict.{Head, IsHead};
ghost use Rattle.asn1_core.specs.Views.{IsDefinite, head_of, ber_head_of, length_of};

use asn1_core::Header;
use der_tree::BerResult;

/// Reads a header by the rules of BER (X.690, 8.1.2 and 8.1.3) from the front of `i`. Returns
/// `(rest, header)`. Its errors are those of `Header::from_ber`.
pub fn ber_read_element_header(i: &[u8]) -> BerResult<'_, Header>
    ensures found { IfOk result (λ r. IsBerHead (ber_head_of r.1)
        × ((octets : List ℕ) × SpellsBerHeader octets (ber_head_of r.1) × (i.now ≡ octets ++ r.0.now))) }
    ensures only { (octets rest : List ℕ) (h : BerHead) → IsBerHead h → SpellsBerHeader octets h
        → i.now ≡ octets ++ rest → IsOkAnd result (λ r. (ber_head_of r.1 ≡ h) × (r.0.now ≡ rest)) }
    ensures shorter { IfOk result (λ r. length r.0.now + 2 ≤ length i.now) }
    ensures missing { IfErr result (IsMissing HasBerHeader i.now) }
    ensures memory { IfErr result TakesNoMemory }
    ensures exact { Gives (λ r. (ber_head_of r.1, r.0.now)) result (ber_header_at i.now) }
{
    Header::from_ber(i)
}

/// Reads a header of definite length, in any of its forms, from the front of `i` (X.690, 8.1.2 and
/// 8.1.3). Returns `(rest, header)`. Its errors are those of `Header::from_der`.
pub fn der_read_element_header(i: &[u8]) -> BerResult<'_, Header>
    ensures found { IfOk result (λ r. IsHead (head_of r.1)
        × ((octets : List ℕ) × SpellsHeader octets (head_of r.1) × (i.now ≡ octets ++ r.0.now))) }
    ensures definite { IfOk result (λ r. IsDefinite (length_of r.1)) }
    ensures only { (octets rest : List ℕ) (h : Head) → IsHead h → SpellsHeader octets h
        → i.now ≡ octets ++ rest → IsOkAnd result (λ r. (head_of r.1 ≡ h) × (r.0.now ≡ rest)) }
    ensures shorter { IfOk result (λ r. length r.0.now + 2 ≤ length i.now) }
    ensures missing { IfErr result (IsMissing HasHeader i.now) }
    ensures memory { IfErr result TakesNoMemory }
    ensures exact { Gives (λ r. (head_of r.1, r.0.now)) result (header_at i.now) }
{
    Header::from_der(i)
}
