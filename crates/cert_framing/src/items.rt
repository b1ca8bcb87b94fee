//! The items of a stream.
ghost use Rattle.std.specs.Prelude.{◌≡◌, ℕ, ◌^◌, ◌<◌, ◌↔◌, [], Some, length, IsTrue, slice_get};
ghost use Rattle.std.specs.List.{concat};
ghost use Rattle.cert_framing.specs.Pieces.{pieces, RunsTo, start_at};

use crate::ending::End;
use std::marker::Model;

/// The items of a framed stream in their order, and how it ends.
#[derive(Debug, Drop)]
pub struct Items {
    // the items' octets, joined
    octets: Vec<u8>,
    // where each item ends
    ends: Vec<usize>,
    ending: End,
}

impl Model for Items {
    ghost use Rattle.cert_framing.specs.Held.{Framed};
    ghost use Rattle.cert_framing.specs.Pieces.{pieces, RunsTo};
    ghost use Rattle.std.specs.Prelude.{length};

    ghost Value = { Framed };

    ghost view = { λ f. record { items = pieces 0 f.ends.items f.octets.items; end = f.ending } };

    ghost invariant = { λ f. RunsTo 0 f.ends.items (length f.octets.items) };
}

impl Items {
    /// Items whose joined octets are these, each with its end among the `ends`.
    pub(crate) fn of(octets: Vec<u8>, ends: Vec<usize>, ending: End) -> Items
        requires { RunsTo 0 ends.items (length octets.items) }
        ensures items { result.items ≡ pieces 0 ends.items octets.items }
        ensures end { result.end ≡ ending }
    {
        Items {
            octets,
            ends,
            ending,
        }
    }

    /// Returns how many items there are.
    pub fn len(&self) -> usize
        ensures len { result ≡ length self.now.items }
        // so that a caller can add their sizes up to offsets
        ensures fits { length (concat self.now.items) < 2 ^ 64 }
    {
        self.ends.len()
    }

    /// Returns whether there is none.
    pub fn is_empty(&self) -> bool
        ensures { IsTrue result ↔ (self.now.items ≡ []) }
    {
        self.ends.is_empty()
    }

    /// Returns the octets of item `k`, counted from 0: a window of those in memory.
    pub fn get(&self, k: usize) -> &[u8]
        requires { k < length self.now.items }
        ensures { slice_get self.now.items k ≡ Some result.now }
    {
        let start = start_of(&self.ends, k);
        &self.octets[start..self.ends[k]]
    }

    /// Returns how the stream ends after the last item.
    pub fn end(&self) -> End
        ensures { result ≡ self.now.end }
    {
        self.ending
    }
}

/// Returns where part `k` begins, of the parts that end at `ends`.
fn start_of(ends: &[usize], k: usize) -> usize
    requires { k < length ends.now }
    ensures { result ≡ start_at 0 ends.now k }
{
    if k == 0 { 0 } else { ends[k - 1] }
}
