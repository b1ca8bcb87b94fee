//! Laws of unsigned integers, for proofs.
ghost use Rattle.std.specs.Prelude.{◌≡◌, ◌↔◌, ℕ, List};
ghost use Rattle.asn1_unsigned.specs.declared.unsigned.UnsignedBytes.{UnsignedBytes};
ghost use Rattle.asn1_unsigned.specs.Numbers.{number_of, octets_of};

/// Equal numbers have equal octets, and equal octets are equal numbers.
pub fn one_spelling()
    ensures { (v w : UnsignedBytes) → number_of v ≡ number_of w ↔ octets_of v ≡ octets_of w }
{}
