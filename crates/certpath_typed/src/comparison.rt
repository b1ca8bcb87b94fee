//! A sink that compares what is written with octets, and keeps none of it.

ghost use Rattle.std.specs.Prelude.{◌≡◌, ◌↔◌, ◌<◌, ◌≤◌, ℕ, nat_eq, true, false, [], ◌∷◌, drop, length, Some, IsTrue};
ghost use Rattle.std.specs.List.{starts_with};
ghost use Rattle.certpath_typed.specs.Met.{met};

use asn1_device::{DeviceFault, Sink, Tally};

/// Octets, and how far what was written is equal to them. It holds the octets that were equal, and
/// the first one that wasn't; after that one each write fails.
#[derive(Drop)]
pub(crate) struct Comparison<'a> {
    whole: &'a [u8],
    at: usize,
    differs: bool,
    other: u8,
    failures: Tally,
    flushes: Tally,
    ghost within: { at ≤ length whole.now },
    ghost apart: { differs ≡ true → starts_with nat_eq (drop at whole.now) (other ∷ []) ≡ false },
    ghost refused: { 0 < failures.count → differs ≡ true },
}

impl<'a> Comparison<'a> {
    /// Returns a comparison with these octets, before anything is written.
    pub(crate) fn new(whole: &'a [u8]) -> Comparison<'a>
        ensures whole { result.whole.now ≡ whole.now }
        ensures contents { met result.whole.now result.at result.differs result.other ≡ [] }
        ensures failures { result.failures.count ≡ 0 }
    {
        Comparison {
            whole,
            at: 0,
            differs: false,
            other: 0,
            failures: Tally::new(),
            flushes: Tally::new(),
        }
    }

    /// Returns whether what was written is equal to the octets.
    pub(crate) fn is_whole(&self) -> bool
        ensures { IsTrue result ↔ (met self.now.whole.now self.now.at self.now.differs self.now.other ≡ self.now.whole.now) }
    {
        !self.differs && self.at == self.whole.len()
    }
}

impl<'a> Sink for Comparison<'a> {
    ghost use Rattle.std.specs.Prelude.{Some};
    ghost use Rattle.certpath_typed.specs.Met.{held};

    ghost failures = { λ c. c.failures.count };

    ghost flushes = { λ c. c.flushes.count };

    ghost contents = { λ c. Some (held c.whole.now c.at c.differs c.other) };

    fn write(&mut self, octets: &[u8]) -> Result<usize, DeviceFault> {
        if self.differs {
            self.failures = self.failures.next();
            return Err(DeviceFault);
        }
        let rest = &self.whole[self.at..];
        if rest.starts_with(octets) {
            self.at += octets.len();
            return Ok(octets.len());
        }
        if rest.starts_with(&octets[..1]) {
            self.at += 1;
        } else {
            self.differs = true;
            self.other = octets[0];
        }
        Ok(1)
    }

    fn flush(&mut self) -> Result<(), DeviceFault> {
        self.flushes = self.flushes.next();
        Ok(())
    }
}
