//! Numbers of texts, looked up by the texts' last octets.

ghost use Rattle.std.specs.Prelude.{◌≡◌, List, ℕ, None, Some, OnOk, OnErr};
ghost use Rattle.std.specs.Borrow.{Bor};
ghost use Rattle.cert_graph.specs.Texts.{number_of};

use crate::endings::tail_of;
use std::alloc::{AllocError, Global};
use std::collections::BTreeMap;

/// A sorted map from texts to numbers.
///
/// Texts are compared by their last eight octets, and whole if these are equal, so a look-up seldom
/// reads more than one text. It costs as many comparisons as one in a `BTreeMap` of the texts.
#[derive(Drop)]
pub struct TextNumbers<'a> {
    known: BTreeMap<(u64, &'a [u8]), usize>,
}

impl<'a> TextNumbers<'a> {
    /// Numbers of no text.
    pub fn new(alloc: Global) -> TextNumbers<'a>
        ensures { (q : Bor (List ℕ)) → number_of result q ≡ None }
    {
        TextNumbers {
            known: BTreeMap::new(alloc),
        }
    }

    /// Returns the number of a text, if it has one.
    pub fn get(&self, text: &'a [u8]) -> Option<usize>
        ensures { result ≡ number_of self.now text.entry }
    {
        match self.known.get(&(tail_of(text), text)) {
            Some(number) => Some(*number),
            None => None,
        }
    }

    /// Gives a text a number, in place of the one that it had. The only error is out of memory;
    /// then all texts have the numbers that they had.
    pub fn insert(&mut self, text: &'a [u8], number: usize) -> Result<(), AllocError>
        ensures own { OnOk result ((q : Bor (List ℕ)) → text.now ≡ q.now → number_of self.new q ≡ Some number) }
        ensures others { OnOk result ((q : Bor (List ℕ)) → (text.now ≡ q.now → ⊥) → number_of self.new q ≡ number_of self.old q) }
        ensures refused { OnErr result ((q : Bor (List ℕ)) → number_of self.new q ≡ number_of self.old q) }
    {
        self.known.insert((tail_of(text), text), number)?;
        Ok(())
    }
}
