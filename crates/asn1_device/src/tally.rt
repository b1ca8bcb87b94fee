//! A count that only proofs read. It takes no memory, and its methods do nothing at run time.
ghost use Rattle.std.specs.Prelude.{◌≡◌, ℕ, ◌+◌};
ghost use Rattle.std.specs.Borrow.{ftrue};

use std::marker::{Model, PhantomData};

/// A count for proofs: a clause reads it as `count`.
#[derive(Drop)]
pub struct Tally {
    of: PhantomData<u8>,
    pub ghost count: { ℕ },
}

impl Model for Tally {
    ghost also_owns = { λ _. ftrue };
}

impl Tally {
    /// Returns a count of 0.
    pub fn new() -> Tally
        ensures { result.count ≡ 0 }
    {
        Tally { of: PhantomData }
    }

    /// Returns the count with one added.
    pub fn next(&self) -> Tally
        ensures { result.count ≡ self.now.count + 1 }
    {
        Tally { of: PhantomData }
    }
}
