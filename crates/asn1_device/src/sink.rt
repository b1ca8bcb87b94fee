//! What octets are written to.
ghost use Rattle.std.specs.Prelude.{◌≡◌, ℕ, List, ◌+◌, ◌≤◌, length, None, IfOk, OnOk, OnErr};
ghost use Rattle.std.specs.declared.option.Option.{Option};
ghost use Rattle.std.specs.Io.KnownBytes.{Appends, Keeps, WriteAppends};
ghost use Rattle.asn1_device.specs.Counts.{faults_of, write_faults_of, AppendsFront};

use crate::fault::DeviceFault;
use crate::tally::Tally;
use std::io::{ErrorKind, Write};

/// What octets are written to. A call fails by an error, or if a write takes 0 of some octets.
pub trait Sink {
    /// How many calls failed.
    ghost failures: { Self → ℕ };

    /// How many times it was flushed.
    ghost flushes: { Self → ℕ };

    /// The octets that were written to it, if they are known.
    ghost contents: { Self → Option (List ℕ) } = { λ _. None };

    /// Writes octets from the front of `octets`, and returns their number.
    fn write(&mut self, octets: &[u8]) -> Result<usize, DeviceFault>
        ensures bound { IfOk result (λ n. n ≤ length octets.now) }
        ensures octets { WriteAppends (contents self.old) (contents self.new) result octets.now }
        ensures failures { failures self.new ≡ failures self.old + write_faults_of octets.now result }
        ensures flushes { flushes self.new ≡ flushes self.old };

    /// Passes on what the device may have kept in a buffer.
    fn flush(&mut self) -> Result<(), DeviceFault>
        ensures octets { Keeps (contents self.old) (contents self.new) }
        ensures failures { failures self.new ≡ failures self.old + faults_of result }
        ensures flushes { flushes self.new ≡ flushes self.old + 1 };
}

/// Writes all of `octets`, by as many writes as it takes, and doesn't flush. Fails if one of them
/// fails; some octets from the front may have been written then.
pub fn write_octets<W: Sink>(writer: &mut W, octets: &[u8]) -> Result<(), DeviceFault>
    ensures ok { OnOk result (Appends (W.contents writer.old) (W.contents writer.new) octets.now) }
    ensures err { OnErr result (AppendsFront (W.contents writer.old) (W.contents writer.new) octets.now) }
    ensures failures { W.failures writer.new ≡ W.failures writer.old + faults_of result }
    ensures flushes { W.flushes writer.new ≡ W.flushes writer.old }
{
    let mut rest = octets;
    while !rest.is_empty() {
        let count = writer.write(rest)?;
        if count == 0 {
            return Err(DeviceFault);
        }
        rest = &rest[count..];
    }
    Ok(())
}

/// A writer of std as a sink. A write that a signal interrupts is tried again.
#[derive(Drop)]
pub struct WriteSink<W> {
    writer: W,
    failures: Tally,
    flushes: Tally,
}

impl<W: Write> WriteSink<W> {
    /// Returns the sink that writes to `writer`.
    pub fn new(writer: W) -> WriteSink<W>
        ensures { ⟦<WriteSink<W> as Sink>⟧.contents result ≡ W.contents writer }
    {
        WriteSink {
            writer,
            failures: Tally::new(),
            flushes: Tally::new(),
        }
    }

    /// Returns the writer, after what was written to it.
    pub fn into_inner(self) -> W
        ensures { W.contents result ≡ ⟦<WriteSink<W> as Sink>⟧.contents self }
    {
        let WriteSink {
            writer,
            failures: _,
            flushes: _,
        } = self;
        writer
    }
}

impl<W: Write> Sink for WriteSink<W> {
    ghost failures = { λ s. s.failures.count };

    ghost flushes = { λ s. s.flushes.count };

    ghost contents = { λ s. W.contents s.writer };

    fn write(&mut self, octets: &[u8]) -> Result<usize, DeviceFault> {
        match write_retrying(&mut self.writer, octets) {
            Ok(count) => {
                if count == 0 && !octets.is_empty() {
                    self.failures = self.failures.next();
                }
                Ok(count)
            }
            Err(fault) => {
                self.failures = self.failures.next();
                Err(fault)
            }
        }
    }

    fn flush(&mut self) -> Result<(), DeviceFault> {
        self.flushes = self.flushes.next();
        match self.writer.flush() {
            Ok(()) => Ok(()),
            Err(_) => {
                self.failures = self.failures.next();
                Err(DeviceFault)
            }
        }
    }
}

// One write, tried again if a signal interrupts it.
fn write_retrying<W: Write>(writer: &mut W, octets: &[u8]) -> Result<usize, DeviceFault>
    ensures bound { IfOk result (λ n. n ≤ length octets.now) }
    ensures octets { WriteAppends (W.contents writer.old) (W.contents writer.new) result octets.now }
{
    for _ in 0..u64::MAX {
        match writer.write(octets) {
            Ok(count) => return Ok(count),
            Err(error) => {
                if error.kind() != ErrorKind::Interrupted {
                    return Err(DeviceFault);
                }
            }
        }
    }
    Err(DeviceFault)
}
