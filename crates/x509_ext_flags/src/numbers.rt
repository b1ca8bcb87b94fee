//! Unsigned numbers of 32 bits.

ghost use Rattle.std.specs.Prelude.{◌≡◌};
ghost use Rattle.x509_ext_flags.specs.Reading.{number_in};

use asn1_values::Integer;
use x509_core::check_shortest;

/// The unsigned number of 32 bits with this content, in its shortest form (X.690, 8.3); else
/// `None`.
#[tactic(auto, unfolding(crate::specs::Reading::number_in))]
pub fn number_of(content: &[u8]) -> Option<u32>
    ensures { result ≡ number_in content.now }
{
    if check_shortest(content).is_err() {
        return None;
    }
    match Integer::new(content).as_u32() {
        Ok(number) => Some(number),
        Err(_) => None,
    }
}
