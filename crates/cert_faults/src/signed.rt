//! The fields after the first part, which certificates and lists have alike (RFC 5280, 4.1.1 and 5.1.1).

ghost use Rattle.std.specs.Prelude.{◌≡◌};
ghost use Rattle.cert_faults.specs.Steps.{at_view};
ghost use Rattle.cert_faults.specs.Items.{signed_end};

use crate::fields::{next_algorithm, next_bits};
use crate::places::Field;
use crate::steps::{At, Blame, end, whole};

/// The end of the first part after its extensions; then the algorithm and the signature.
pub(crate) fn signed_end(field: Field, inner: At<'_, '_>, outer: At<'_, '_>) -> Result<(), Blame>
    ensures { result ≡ signed_end field (at_view inner.entry) (at_view outer.entry) }
{
    end(whole(field), inner)?;
    let algorithm = next_algorithm(Field::SignatureAlgorithm, outer)?;
    let value = next_bits(whole(Field::SignatureValue), algorithm)?;
    end(whole(Field::Item), value)
}
