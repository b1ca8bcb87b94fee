//! Names as text.

ghost use Rattle.std.specs.Prelude.{IfSome, IfNone, IfOk, string_bytes};
ghost use Rattle.certpath_c.specs.Naming.{IsNameText, IsNoName, NameAnswer};

use crate::status::{BAD_NAME, DONE, OUT_OF_MEMORY, TOO_SMALL};
use crate::writing::put;
use asn1_core::{Err as Refusal, OutOfMemory};
use asn1_traits::FromDer;
use std::alloc::Global;
use x509_names::X509Name;

/// The text of a name, if the octets are one.
fn text_of(alloc: Global, name: &[u8]) -> Result<Option<String>, OutOfMemory>
    ensures found { IfOk result (λ r. IfSome r (λ text. IsNameText name.now (string_bytes text))) }
    ensures none { IfOk result (λ r. IfNone r (IsNoName name.now)) }
{
    match X509Name::from_der(alloc, name) {
        Ok((rest, found)) => {
            if !rest.is_empty() {
                return Ok(None);
            }
            let text = found.to_string(alloc)?;
            Ok(Some(text))
        }
        Err(Refusal::Failure(_)) => Err(OutOfMemory),
        Err(Refusal::Error(_)) => Ok(None),
        Err(Refusal::Incomplete(_)) => Ok(None),
    }
}

/// `certpath_name` of the header.
#[unsafe(no_mangle)]
pub extern "C" fn certpath_name(
    alloc: Global,
    name: &[u8],
    text: &mut [u8],
    length: &mut usize,
) -> i32
    ensures { NameAnswer name.now text.old text.new length.old length.new result }
{
    let Ok(found) = text_of(alloc, name) else {
        return OUT_OF_MEMORY;
    };
    let Some(shown) = found else {
        return BAD_NAME;
    };
    let octets = shown.as_bytes();
    *length = octets.len();
    if put(text, octets) { DONE } else { TOO_SMALL }
}
