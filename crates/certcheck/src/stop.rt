//! Why a reader has no value: the octets are of another form, which makes the item other, or
//! memory ran out, which is an error. `settled` takes the two apart.

ghost use Rattle.std.specs.Prelude.{◌≡◌};
ghost use Rattle.certcheck.specs.Stopping.{settled};

use asn1_core::OutOfMemory;
use std::alloc::AllocFailed;

/// Why no value came.
#[derive(Clone, Copy)]
pub(crate) enum Stop {
    /// The octets are of another form.
    Other,
    /// Memory ran out.
    OutOfMemory,
}

impl From<OutOfMemory> for Stop {
    ghost use Rattle.std.specs.Prelude.{◌≡◌};
    ghost use Rattle.certcheck.specs.declared.stop.Stop.TheVariants as stops;

    ghost from_gives = { λ _ stop. stop ≡ stops.OutOfMemory };

    fn from(_refused: OutOfMemory) -> Stop {
        Stop::OutOfMemory
    }
}

impl<T: Drop> From<AllocFailed<T>> for Stop {
    ghost use Rattle.std.specs.Prelude.{◌≡◌};
    ghost use Rattle.certcheck.specs.declared.stop.Stop.TheVariants as stops;

    ghost from_gives = { λ _ stop. stop ≡ stops.OutOfMemory };

    fn from(_refused: AllocFailed<T>) -> Stop {
        Stop::OutOfMemory
    }
}

/// The value, or none where the octets are of another form.
pub(crate) fn settled<T>(found: Result<T, Stop>) -> Result<Option<T>, OutOfMemory>
    ensures { result ≡ settled found }
{
    match found {
        Ok(value) => Ok(Some(value)),
        Err(stop) => match stop {
            Stop::Other => Ok(None),
            Stop::OutOfMemory => Err(OutOfMemory),
        },
    }
}
