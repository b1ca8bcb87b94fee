//! Vouchers from the text of a file.

ghost use Rattle.std.specs.Prelude.{◌≡◌, ◌↔◌, ◌⊎◌, ℕ, List, [], ◌∷◌, OnOk, IfErr};
ghost use Rattle.cert_vouchers.specs.Vouching.{HasPair};
ghost use Rattle.cert_vouchers.specs.VoucherFile.{line_feed, HasNoLineFeed, IsWell, TellsPair};
ghost use Rattle.cert_vouchers.specs.Answers.{AnswersVouchers, RefusesLine};
ghost use Rattle.cert_vouchers.specs.Reader.{ReadsTo, Takes, Refuses};

use crate::lines::{next_line, without_return};
use crate::pairs::pair_of;
use crate::vouchers::Vouchers;
use std::alloc::Global;
use thiserror::Error;

/// Why a text gives no vouchers.
#[derive(Clone, Copy, Debug, PartialEq, Eq, Hash, Error)]
pub enum VoucherError {
    /// This line, counted from 1, is neither empty nor a pair of digests; those before it are.
    #[error("BadLine")]
    BadLine(usize),
    /// Memory was refused. A file of 2^64 lines is refused like this, too.
    #[error("OutOfMemory")]
    OutOfMemory,
}

/// The pairs of a voucher file. A line ends at LF, and one CR right before it doesn't count, or at the end of the text; it is empty, or
/// the digest of a key element and the digest of an item (SHA-256, 64 hex digits each, in either case of letters) with a space between
/// them.
///
/// `BadLine` with the number of the first line that is of neither form, counted from 1;
/// `OutOfMemory` if a pair found no room, which a bad line after it doesn't change.
pub fn read_vouchers(alloc: Global, text: &[u8]) -> Result<Vouchers, VoucherError>
    ensures { AnswersVouchers text.now result }
{
    let mut reading = Reading::new(alloc);
    reading.feed(text)?;
    reading.finish()
}

/// The most octets of a line with a pair: two digests in hex, a space, and a CR.
const LONGEST_LINE: usize = 130;

/// How far a text was read that has no bad line so far.
#[derive(Drop)]
pub(crate) struct Reading {
    /// The pairs of the lines that are ended.
    vouchers: Vouchers,
    /// The line that isn't ended.
    line: Vec<u8>,
    /// Its number, from 1.
    number: usize,
}

impl Reading {
    /// Nothing was read.
    pub(crate) fn new(alloc: Global) -> Reading
        ensures { ReadsTo result [] }
    {
        Reading {
            vouchers: Vouchers::new(alloc),
            line: Vec::new(alloc),
            number: 1,
        }
    }

    /// Takes the next octets. What is left after an error stands for no text.
    pub(crate) fn feed(&mut self, piece: &[u8]) -> Result<(), VoucherError>
        ensures ok { OnOk result (Takes self.old self.new piece.now) }
        ensures refused { IfErr result (Refuses self.old piece.now) }
    {
        let mut rest = piece;
        while let Some((line, behind)) = next_line(rest) {
            self.keep(line)?;
            self.end_line()?;
            rest = behind;
        }
        self.keep(rest)
    }

    /// Takes octets that end no line.
    fn keep(&mut self, octets: &[u8]) -> Result<(), VoucherError>
        requires { HasNoLineFeed octets.now }
        ensures ok { OnOk result (Takes self.old self.new octets.now) }
        ensures refused { IfErr result (Refuses self.old octets.now) }
    {
        if octets.len() > LONGEST_LINE.saturating_sub(self.line.len()) {
            return Err(VoucherError::BadLine(self.number));
        }
        if self.line.extend_from_slice(octets).is_err() {
            return Err(VoucherError::OutOfMemory);
        }
        Ok(())
    }

    /// Takes the LF of the line.
    fn end_line(&mut self) -> Result<(), VoucherError>
        ensures ok { OnOk result (Takes self.old self.new (line_feed ∷ [])) }
        ensures refused { IfErr result (Refuses self.old (line_feed ∷ [])) }
    {
        push_line(&mut self.vouchers, without_return(&self.line), self.number)?;
        let Some(next) = self.number.checked_add(1) else {
            return Err(VoucherError::OutOfMemory);
        };
        self.number = next;
        self.line.clear();
        Ok(())
    }

    /// The text ends here, and its last line with it.
    pub(crate) fn finish(self) -> Result<Vouchers, VoucherError>
        ensures { (text : List ℕ) → ReadsTo self text → AnswersVouchers text result }
    {
        let Reading {
            mut vouchers,
            line,
            number,
        } = self;
        push_line(&mut vouchers, &line, number)?;
        Ok(vouchers)
    }
}

/// The pair of a line, if it holds one, beside the others.
fn push_line(vouchers: &mut Vouchers, line: &[u8], number: usize) -> Result<(), VoucherError>
    ensures well { OnOk result (IsWell line.now) }
    ensures pairs { OnOk result ((key item : List ℕ) → HasPair vouchers.new.pairs key item ↔ (HasPair vouchers.old.pairs key item ⊎ TellsPair line.now key item)) }
    ensures refused { IfErr result (RefusesLine line.now number) }
{
    if line.is_empty() {
        return Ok(());
    }
    let Some(pair) = pair_of(line) else {
        return Err(VoucherError::BadLine(number));
    };
    let key = pair.0;
    let item = pair.1;
    if vouchers.push(key, item).is_err() {
        return Err(VoucherError::OutOfMemory);
    }
    Ok(())
}
