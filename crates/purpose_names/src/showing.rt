//! A purpose as it is shown.

ghost use Rattle.std.specs.Prelude.{◌≡◌, ◌++◌, List, ℕ, OnOk, string_bytes};
ghost use Rattle.purpose_names.specs.Showing.{IsShown};

use crate::naming::named;
use asn1_core::OutOfMemory;
use asn1_oid::Oid;
use std::alloc::Global;

/// Appends a purpose, by the content octets of its identifier: its name in RFC 5280, or else its
/// numbers, as `1.3.6.1.4.1.311.10.3.4`. Octets that spell no numbers of 64 bits are shown in
/// hexadecimal. The only error is out of memory.
pub fn push_purpose(alloc: Global, text: &mut String, identifier: &[u8]) -> Result<(), OutOfMemory>
    ensures { OnOk result ((shown : List ℕ) × IsShown identifier.now shown × (string_bytes text.new ≡ string_bytes text.old ++ shown)) }
{
    match named(identifier) {
        Some(purpose) => text.push_str(purpose.name())?,
        None => {
            let number = Oid::new(identifier).to_id_string(alloc)?;
            text.push_str(number.as_str())?;
        }
    }
    Ok(())
}
