//! `StderrLogger`, a logger that writes lines.

ghost use Rattle.std.specs.Prelude.{◌≡◌, ◌+◌, [], ◌∷◌, ◌++◌, OnOk, OnErr};
ghost use Rattle.std.specs.Io.KnownBytes.{Appends};
ghost use Rattle.asn1_device.specs.Counts.{AppendsFront, faults_of};

use crate::logger::{LogError, Logger};
use asn1_device::{DeviceFault, Sink, write_octets};

/// A logger that writes each message to a writer as a line that begins with `[W] ` or `[E] `. It
/// doesn't flush.
#[derive(Drop)]
pub struct StderrLogger<W> {
    writer: W,
}

impl<W: Sink> StderrLogger<W> {
    /// Makes a logger that writes to `writer`.
    pub fn new(writer: W) -> StderrLogger<W>
        ensures { result ≡ record { writer = writer } }
    {
        StderrLogger { writer }
    }

    /// The writer, with all that was written to it.
    pub fn into_inner(self) -> W
        ensures { result ≡ self.writer }
    {
        let StderrLogger { writer } = self;
        writer
    }
}

#[tactic(auto, using(crate::proofs::Lines::both, crate::proofs::Lines::front_first, crate::proofs::Lines::front_second))]
fn write_two<W: Sink>(writer: &mut W, first: &[u8], second: &[u8]) -> Result<(), DeviceFault>
    ensures ok { OnOk result (Appends (W.contents writer.old) (W.contents writer.new) (first.now ++ second.now)) }
    ensures err { OnErr result (AppendsFront (W.contents writer.old) (W.contents writer.new) (first.now ++ second.now)) }
    ensures failures { W.failures writer.new ≡ W.failures writer.old + faults_of result }
    ensures flushes { W.flushes writer.new ≡ W.flushes writer.old }
{
    write_octets(writer, first)?;
    write_octets(writer, second)
}

#[tactic(auto, using(crate::proofs::Lines::both, crate::proofs::Lines::front_first, crate::proofs::Lines::front_second))]
fn write_line<W: Sink>(writer: &mut W, mark: &[u8], message: &str) -> Result<(), DeviceFault>
    ensures ok { OnOk result (Appends (W.contents writer.old) (W.contents writer.new) ((mark.now ++ message.now) ++ 10 ∷ [])) }
    ensures err { OnErr result (AppendsFront (W.contents writer.old) (W.contents writer.new) ((mark.now ++ message.now) ++ 10 ∷ [])) }
    ensures failures { W.failures writer.new ≡ W.failures writer.old + faults_of result }
    ensures flushes { W.flushes writer.new ≡ W.flushes writer.old }
{
    write_two(writer, mark, message.as_bytes())?;
    write_octets(writer, b"\n")
}

impl<W: Sink> Logger for StderrLogger<W> {
    ghost use Rattle.std.specs.Prelude.{◌≡◌, codes, ◌++◌};
    ghost use Rattle.x509_validate.specs.Kept.{WritesLine};

    ghost warns = { λ old text answer new. WritesLine (W.contents old.writer) (W.contents new.writer) (W.failures old.writer) (W.failures new.writer) (codes "[W] " ++ text) answer × (W.flushes new.writer ≡ W.flushes old.writer) };

    ghost errs = { λ old text answer new. WritesLine (W.contents old.writer) (W.contents new.writer) (W.failures old.writer) (W.failures new.writer) (codes "[E] " ++ text) answer × (W.flushes new.writer ≡ W.flushes old.writer) };

    fn warn(&mut self, message: &str) -> Result<(), LogError> {
        match write_line(&mut self.writer, b"[W] ", message) {
            Ok(()) => Ok(()),
            Err(_) => Err(LogError::Write),
        }
    }

    fn err(&mut self, message: &str) -> Result<(), LogError> {
        match write_line(&mut self.writer, b"[E] ", message) {
            Ok(()) => Ok(()),
            Err(_) => Err(LogError::Write),
        }
    }
}
