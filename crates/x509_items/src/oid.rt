//! The reader of an OBJECT IDENTIFIER at the front.

ghost use Rattle.std.specs.Prelude.{◌≡◌, ◌<◌, length, IfOk, IfErr};
ghost use Rattle.x509_core.specs.Answers.{Gives};
ghost use Rattle.x509_core.specs.Fronts.{TakesNoMemory};
ghost use Rattle.x509_items.specs.Reading.{oid_at};

use crate::answers::taken;
use crate::begins::Begins;
use asn1_core::{HeaderCount, OutOfMemory};
use std::alloc::Global;
use x509_core::{Oid, X509Result, front_element, oid_of};

/// Reads one OBJECT IDENTIFIER, of any content, from the front of `i`. Returns `(rest,
/// identifier)`.
pub fn first_oid<'a>(i: &'a [u8]) -> X509Result<'a, Oid<'a>>
    ensures read { Gives (λ r. (r.1, r.0.now)) result (oid_at i.now) }
    ensures memory { IfErr result TakesNoMemory }
    ensures shorter { IfOk result (λ r. length r.0.now < length i.now) }
{
    let mut count = HeaderCount::new();
    let (rest, element) = front_element(i, &mut count)?;
    let oid = oid_of(element)?;
    Ok((rest, oid))
}

impl<'a> Begins<'a> for Oid<'a> {
    ghost use Rattle.std.specs.Prelude.{List, ℕ};
    ghost use Rattle.x509_items.specs.Reading.{oid_at};

    ghost Data = { List ℕ };

    ghost stands_for = { λ oid. oid };

    ghost reader = { oid_at };

    ghost IsCounted = { λ _. Unit {0} };

    fn begin(_alloc: Global, i: &'a [u8]) -> Result<Option<(&'a [u8], Oid<'a>)>, OutOfMemory> {
        taken(first_oid(i))
    }
}
