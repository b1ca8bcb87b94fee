//! Values one after another, read by DER's rules.

ghost use Rattle.asn1_traits.specs.Lists.{ReadsAll};

use crate::read::{DerMeaning, FromDer};
use asn1_core::{Err, Error, ErrorKind};
use std::alloc::Global;

/// Reads the values in `octets` to their end by DER's rules. Returns them in order, in an
/// allocation of their own.
///
/// # Errors
///
/// `NomError(Many0)` for a value that takes no octet; the error of a value that `T` rejects; an
/// `Incomplete` in one is an error, since the octets are whole. Out of memory is
/// `Failure(OutOfMemory)`.
pub fn read_items<'a, E: From<Error>, T: FromDer<'a, E> + DerMeaning + Drop>(
    alloc: Global,
    octets: &'a [u8],
) -> Result<Vec<T>, Err<E>>
    ensures { ReadsAll E.from_gives (λ v. v.items) T.der_reads octets.now result }
{
    let mut items = Vec::new(alloc);
    let mut rest = octets;
    while !rest.is_empty() {
        match T::from_der(alloc, rest) {
            Ok((after, item)) => {
                if after.len() >= rest.len() {
                    return Err(Err::from(Error::NomError(ErrorKind::Many0)));
                }
                match items.push(item) {
                    Ok(()) => rest = after,
                    Err(_) => return Err(Err::from(Error::OutOfMemory)),
                }
            }
            Err(e) => return Err(Err::within(e)),
        }
    }
    Ok(items)
}
