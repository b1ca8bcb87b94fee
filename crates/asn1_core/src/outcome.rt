//! What readers return.

use crate::error::{Error, Needed};
use crate::memory::OutOfMemory;
use std::alloc::{AllocError, AllocFailed};
use std::{error, fmt};

/// Why a reader returned no value.
#[derive(Clone, Copy, Debug, PartialEq, Eq)]
pub enum Err<E> {
    /// The input ends early: with more octets it may be accepted.
    Incomplete(Needed),
    /// The octets are rejected; another reader may accept them.
    Error(E),
    /// An allocation failed: no other reader is tried.
    Failure(E),
}

/// The rest of the input and the value, or why there is none.
pub type IResult<I, O, E = Error> = Result<(I, O), Err<E>>;

/// The result of a reader of octets: `(rest, value)`, or why there is none.
pub type ParseResult<'a, T, E = Error> = Result<(&'a [u8], T), Err<E>>;

impl<E> Err<E> {
    ghost use Rattle.std.specs.Prelude.{◌≡◌, ◌↔◌, IsTrue};
    ghost use Rattle.asn1_core.specs.Conversions.{Converts, IsIncomplete, TellsWhole};

    /// Returns whether the input ends early.
    pub fn is_incomplete(&self) -> bool
        ensures { IsTrue result ↔ IsIncomplete self.now }
    {
        matches!(self, Err::Incomplete(_))
    }

    /// Returns the refusal with its error converted by `From`; missing octets remain as they are.
    pub fn convert<F>(refusal: Err<F>) -> Err<E>
    where
        E: From<F>,
        ensures { Converts E.from_gives refusal result }
    {
        match refusal {
            Err::Incomplete(needed) => Err::Incomplete(needed),
            Err::Error(e) => Err::Error(E::from(e)),
            Err::Failure(e) => Err::Failure(E::from(e)),
        }
    }

    /// Returns the refusal of a part as the refusal of the whole element around it: an `Incomplete`
    /// becomes an error (`Error::Incomplete`), since no octet after a whole element can complete
    /// its part.
    pub fn within(refusal: Err<E>) -> Err<E>
    where
        E: From<Error>,
        ensures { TellsWhole E.from_gives refusal result }
    {
        match refusal {
            Err::Incomplete(needed) => Err::Error(E::from(Error::Incomplete(needed))),
            Err::Error(e) => Err::Error(e),
            Err::Failure(e) => Err::Failure(e),
        }
    }
}

/// Writes `incomplete N`, `incomplete unknown`, `error NAME` or `failure NAME`.
impl<E: fmt::Display> fmt::Display for Err<E> {
    ghost use Rattle.asn1_core.specs.Texts.{refusal_text};

    ghost output = { λ r. refusal_text E.output r };

    fn fmt<W: fmt::Write>(&self, f: &mut fmt::Formatter<W>) -> fmt::Result {
        match self {
            Err::Incomplete(Needed::Unknown) => f.write_str("incomplete unknown"),
            Err::Incomplete(Needed::Size(n)) => write!(f, "incomplete {n}"),
            Err::Error(e) => write!(f, "error {e}"),
            Err::Failure(e) => write!(f, "failure {e}"),
        }
    }
}

impl<E: fmt::Debug + fmt::Display + Drop> error::Error for Err<E> {}

/// `OutOfMemory` becomes a failure, every other error an `Err::Error`.
impl<E: From<Error>> From<Error> for Err<E> {
    ghost use Rattle.asn1_core.specs.Conversions.{RefusesFor};

    ghost from_gives = { RefusesFor E.from_gives };

    fn from(e: Error) -> Err<E> {
        match e {
            Error::OutOfMemory => Err::Failure(E::from(Error::OutOfMemory)),
            _ => Err::Error(E::from(e)),
        }
    }
}

impl<E: From<Error>> From<OutOfMemory> for Err<E> {
    ghost use Rattle.asn1_core.specs.Conversions.{FailsForMemory};

    ghost from_gives = { λ _ r. FailsForMemory E.from_gives r };

    fn from(_refused: OutOfMemory) -> Err<E> {
        Err::Failure(E::from(Error::OutOfMemory))
    }
}

impl<E: From<Error>> From<AllocError> for Err<E> {
    ghost use Rattle.asn1_core.specs.Conversions.{FailsForMemory};

    ghost from_gives = { λ _ r. FailsForMemory E.from_gives r };

    fn from(_refused: AllocError) -> Err<E> {
        Err::Failure(E::from(Error::OutOfMemory))
    }
}

impl<T: Drop, E: From<Error>> From<AllocFailed<T>> for Err<E> {
    ghost use Rattle.asn1_core.specs.Conversions.{FailsForMemory};

    ghost from_gives = { λ _ r. FailsForMemory E.from_gives r };

    fn from(_refused: AllocFailed<T>) -> Err<E> {
        Err::Failure(E::from(Error::OutOfMemory))
    }
}
