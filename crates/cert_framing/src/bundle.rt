//! A stream that arrives in pieces.
ghost use Rattle.std.specs.Prelude.{◌≡◌, ℕ, ◌≤◌, ◌↔◌, true, false, List, [], ◌++◌, length, IsErr, IfOk, IfErr, OnOk, OnErr, IsErrOf};
ghost use Rattle.cert_framing.specs.Framing.{IsFraming};
ghost use Rattle.cert_framing.specs.Held.{StandsFor};
ghost use Rattle.cert_framing.specs.Advance.{Advances};

use crate::ending::End;
use crate::front::{Front, front_of};
use crate::items::Items;
use std::alloc::{AllocError, Global};
use std::marker::Model;
use thiserror::Error;

/// Why a bundle rejected a call.
#[derive(Clone, Copy, Debug, PartialEq, Eq, Hash, Error)]
pub enum BundleError {
    /// An allocation for a piece failed, and the piece is lost.
    #[error("OutOfMemory")]
    OutOfMemory,
    /// An earlier piece was lost.
    #[error("Failed")]
    Failed,
}

/// What a bundle can still do.
#[derive(Clone, Copy, Debug, PartialEq, Eq)]
enum State {
    /// It takes octets.
    Reading,
    /// It met octets that neither are nor begin an item: what follows is accepted and not kept.
    Faulted,
    /// It lost a piece.
    Failed,
}

/// Cuts items off a stream of octets that arrives piece by piece, as soon as they are complete.
///
/// An item is a SEQUENCE whose header is in its one shortest form (X.690, 8.9.1 and 10.1) and has
/// at most `limit` content octets. Each octet is copied once. Octets after a fault are accepted and
/// not kept.
#[derive(Debug, Drop)]
pub struct Bundle {
    limit: u32,
    // the items' octets, joined, and then those of an item that is not complete
    octets: Vec<u8>,
    // where each item ends
    ends: Vec<usize>,
    // where the last item ends
    at: usize,
    state: State,
}

impl Model for Bundle {
    ghost use Rattle.cert_framing.specs.Held.{Held};

    ghost Value = { Held };

    ghost use Rattle.cert_framing.specs.Views.{held_of, IsSound};

    ghost view = { held_of };

    ghost invariant = { IsSound };
}

impl Bundle {
    /// Returns a bundle of no octets, whose items have at most `limit` content octets. It takes no
    /// memory.
    pub fn new(alloc: Global, limit: u32) -> Bundle
        ensures limit { result.limit ≡ limit }
        ensures empty { StandsFor result [] }
    {
        Bundle {
            limit,
            octets: Vec::new(alloc),
            ends: Vec::new(alloc),
            at: 0,
            state: State::Reading,
        }
    }

    /// Takes the next octets of the stream, any number of them. Time and memory are linear in the
    /// octets that were fed.
    ///
    /// # Errors
    ///
    /// `OutOfMemory` if an allocation fails: the piece is lost, and each later call returns
    /// `Failed`.
    pub fn feed(&mut self, piece: &[u8]) -> Result<(), BundleError>
        ensures ok { OnOk result
            ((stream : List ℕ) → StandsFor self.old stream → StandsFor self.new (stream ++ piece.now)) }
        ensures sound { OnOk result (self.new.has_failed ≡ false) }
        ensures limit { self.new.limit ≡ self.old.limit }
        ensures failed { IsErrOf result BundleError.Failed ↔ (self.old.has_failed ≡ true) }
        ensures spent { OnErr result (self.new.has_failed ≡ true) }
    {
        match self.state {
            State::Failed => Err(BundleError::Failed),
            State::Faulted => Ok(()),
            State::Reading => self.extend(piece),
        }
    }

    /// Takes the next octets of a bundle that met no fault and lost no piece.
    fn extend(&mut self, piece: &[u8]) -> Result<(), BundleError>
        requires reads { self.old.has_fault ≡ false }
        requires sound { self.old.has_failed ≡ false }
        ensures ok { OnOk result
            ((stream : List ℕ) → StandsFor self.old stream → StandsFor self.new (stream ++ piece.now)) }
        ensures sound { OnOk result (self.new.has_failed ≡ false) }
        ensures limit { self.new.limit ≡ self.old.limit }
        ensures only { IfErr result (λ e. e ≡ BundleError.OutOfMemory) }
        ensures spent { OnErr result (self.new.has_failed ≡ true) }
    {
        if self.octets.extend_from_slice(piece).is_err() {
            self.state = State::Failed;
            return Err(BundleError::OutOfMemory);
        }
        match advance(self.limit, &self.octets, self.at, &mut self.ends) {
            Ok((at, true)) => {
                self.at = at;
                Ok(())
            }
            Ok((at, false)) => {
                self.octets.truncate(at);
                self.at = at;
                self.state = State::Faulted;
                Ok(())
            }
            Err(_) => {
                self.octets.clear();
                self.ends.clear();
                self.at = 0;
                self.state = State::Failed;
                Err(BundleError::OutOfMemory)
            }
        }
    }

    /// Returns the items of the stream, and how it ends. It takes no memory. `Failed` if an earlier
    /// `feed` returned `OutOfMemory`.
    pub fn finish(self) -> Result<Items, BundleError>
        ensures framing { IfOk result (λ items.
            (stream : List ℕ) → StandsFor self stream → IsFraming self.limit stream items.items items.end) }
        ensures failed { IsErr result ↔ (self.has_failed ≡ true) }
        ensures only { IfErr result (λ e. e ≡ BundleError.Failed) }
    {
        let Bundle {
            limit: _,
            mut octets,
            ends,
            at,
            state,
        } = self;
        let end = match state {
            State::Failed => return Err(BundleError::Failed),
            State::Faulted => End::Fault(at),
            State::Reading => {
                if at == octets.len() {
                    End::Clean
                } else {
                    End::Cut(at)
                }
            }
        };
        octets.truncate(at);
        Ok(Items::of(octets, ends, end))
    }
}

/// Adds to `ends` where the items end that begin at `from`. Returns where the last of them ends,
/// and whether the octets after it begin an item.
fn advance(
    limit: u32,
    octets: &[u8],
    from: usize,
    ends: &mut Vec<usize>,
) -> Result<(usize, bool), AllocError>
    requires { from ≤ length octets.now }
    ensures { IfOk result (λ r. Advances limit octets.now from ends.old.items ends.new.items r.0 r.1) }
{
    let mut at = from;
    loop {
        match front_of(limit, &octets[at..]) {
            Front::Whole(size) => {
                at += size;
                ends.push(at)?;
            }
            Front::Part => return Ok((at, true)),
            Front::Nothing => return Ok((at, false)),
        }
    }
}
