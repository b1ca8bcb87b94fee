//! What octets are read from.
ghost use Rattle.std.specs.Prelude.{◌≡◌, ℕ, List, ◌+◌, ◌≤◌, length, max, None, IfOk};
ghost use Rattle.std.specs.declared.option.Option.{Option};
ghost use Rattle.std.specs.Io.KnownBytes.{ReadConsumes};
ghost use Rattle.asn1_device.specs.Counts.{faults_of, idle_of};

use crate::fault::DeviceFault;
use crate::tally::Tally;
use std::io::{ErrorKind, Read};

/// What octets are read from. A call fails if it returns an error.
pub trait Source {
    /// How many reads were asked for.
    ghost reads: { Self → ℕ };

    /// How many of them failed.
    ghost failures: { Self → ℕ };

    /// How many of them put no octet into a buffer that isn't empty: the end.
    ghost ends: { Self → ℕ };

    /// The length of the longest buffer that one of them was given, in octets.
    ghost widest: { Self → ℕ };

    /// The octets that reads will give from here on, if they are known.
    ghost remaining: { Self → Option (List ℕ) } = { λ _. None };

    /// Reads into the front of `buf`, and returns how many octets. 0 is the end, if `buf` has room.
    fn read(&mut self, buf: &mut [u8]) -> Result<usize, DeviceFault>
        ensures bound { IfOk result (λ n. n ≤ length buf.new) }
        ensures octets { ReadConsumes (remaining self.old) (remaining self.new) result buf.new }
        ensures reads { reads self.new ≡ reads self.old + 1 }
        ensures failures { failures self.new ≡ failures self.old + faults_of result }
        ensures ends { ends self.new ≡ ends self.old + idle_of buf.new result }
        ensures widest { widest self.new ≡ max (widest self.old) (length buf.new) };
}

/// A reader of std as a source. A read that a signal interrupts is tried again.
#[derive(Drop)]
pub struct ReadSource<R> {
    reader: R,
    widest: usize,
    reads: Tally,
    failures: Tally,
    ends: Tally,
}

impl<R: Read> ReadSource<R> {
    /// Returns the source that reads from `reader`.
    pub fn new(reader: R) -> ReadSource<R>
        ensures { ⟦<ReadSource<R> as Source>⟧.remaining result ≡ R.remaining reader }
    {
        ReadSource {
            reader,
            widest: 0,
            reads: Tally::new(),
            failures: Tally::new(),
            ends: Tally::new(),
        }
    }

    /// Returns the reader, after what was read from it.
    pub fn into_inner(self) -> R
        ensures { R.remaining result ≡ ⟦<ReadSource<R> as Source>⟧.remaining self }
    {
        let ReadSource {
            reader,
            widest: _,
            reads: _,
            failures: _,
            ends: _,
        } = self;
        reader
    }
}

impl<R: Read> Source for ReadSource<R> {
    ghost reads = { λ s. s.reads.count };

    ghost failures = { λ s. s.failures.count };

    ghost ends = { λ s. s.ends.count };

    ghost widest = { λ s. s.widest };

    ghost remaining = { λ s. R.remaining s.reader };

    fn read(&mut self, buf: &mut [u8]) -> Result<usize, DeviceFault> {
        self.reads = self.reads.next();
        self.widest = self.widest.max(buf.len());
        match read_retrying(&mut self.reader, buf) {
            Ok(count) => {
                if count == 0 && !buf.is_empty() {
                    self.ends = self.ends.next();
                }
                Ok(count)
            }
            Err(fault) => {
                self.failures = self.failures.next();
                Err(fault)
            }
        }
    }
}

// One read, tried again if a signal interrupts it.
fn read_retrying<R: Read>(reader: &mut R, buf: &mut [u8]) -> Result<usize, DeviceFault>
    ensures bound { IfOk result (λ n. n ≤ length buf.new) }
    ensures octets { ReadConsumes (R.remaining reader.old) (R.remaining reader.new) result buf.new }
{
    for _ in 0..u64::MAX {
        match reader.read(buf) {
            Ok(count) => return Ok(count),
            Err(error) => {
                if error.kind() != ErrorKind::Interrupted {
                    return Err(DeviceFault);
                }
            }
        }
    }
    Err(DeviceFault)
}
