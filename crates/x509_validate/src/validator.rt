//! `Validator`, and chains of two.

ghost use Rattle.std.specs.Prelude.{◌≡◌, List, IfOk, IfErr, OnOk};
ghost use Rattle.x509_validate.specs.Logging.{TakesAll, TakesSome};
ghost use Rattle.x509_validate.specs.Messages.{Message, all_pass};

use crate::logger::{LogError, Logger};
use std::alloc::Global;

/// Validates values of one type.
pub trait Validator<'a>: Sized {
    /// The type of values that it validates.
    type Item;

    /// The messages of a value: warnings, errors, and fatal ones. A function of validator and
    /// value.
    ghost messages: { Self → Self.Item → List Message };

    /// Hands the messages of the value to a logger in order; `true` if none is fatal.
    ///
    /// # Errors
    ///
    /// The logger's error, or out of memory for a text. Messages before it were handed over.
    fn validate<L: Logger>(
        &self,
        alloc: Global,
        item: &Self::Item,
        l: &mut L,
    ) -> Result<bool, LogError>
        ensures taken { OnOk result (TakesAll L.warns L.errs l.old (messages self.now item.now) l.new) }
        ensures answer { IfOk result (λ answer. answer ≡ all_pass (messages self.now item.now)) }
        ensures refused { IfErr result (λ e. TakesSome L.warns L.errs l.old (messages self.now item.now) e l.new) };

    /// Makes a validator with the messages of this one, then those of `other`.
    final fn chain<V: Validator<'a, Item = Self::Item>>(self, other: V) -> ChainValidator<Self, V>
        ensures { result ≡ record { first = self; second = other } }
    {
        ChainValidator {
            first: self,
            second: other,
        }
    }
}

/// Two validators of one type of values, in a chain.
#[derive(Clone, Copy, Debug)]
pub struct ChainValidator<A, B> {
    first: A,
    second: B,
}

impl<'a, A: Validator<'a>, B: Validator<'a, Item = A::Item>> Validator<'a>
    for ChainValidator<A, B> {
    ghost use Rattle.std.specs.Prelude.{◌++◌};

    type Item = A::Item;

    ghost messages = { λ v item. A.messages v.first item ++ B.messages v.second item };

    #[tactic(auto, using(crate::proofs::Told::joined, crate::proofs::Told::first_refused, crate::proofs::Told::second_refused, crate::proofs::Told::both_pass))]
    fn validate<L: Logger>(
        &self,
        alloc: Global,
        item: &A::Item,
        l: &mut L,
    ) -> Result<bool, LogError> {
        let first = self.first.validate(alloc, item, l)?;
        let second = self.second.validate(alloc, item, l)?;
        Ok(first && second)
    }
}
