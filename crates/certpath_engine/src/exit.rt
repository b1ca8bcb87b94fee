//! What the program ends with: a status, and what it says on standard error.

ghost use Rattle.std.specs.Prelude.{◌≡◌, [], Some};
ghost use Rattle.certpath_engine.specs.Exits.{message_text, words_exit_of, words_of};

use crate::refusals::host_reason;
use crate::words::WordFault;
use host_names::Refusal;
use purpose_names::PurposeRefusal;
use std::fmt;

/// All was done; for `recheck`, the check said yes.
pub(crate) const DONE: u8 = 0;

/// All was written, and it says that something is missing or wrong.
pub(crate) const NOT_ALL: u8 = 1;

/// The words of the command line are refused, or ask for help.
pub(crate) const BAD_WORDS: u8 = 2;

/// The target is no certificate.
pub(crate) const NO_TARGET: u8 = 3;

/// A file can't be opened, created or read.
pub(crate) const CANNOT_READ: u8 = 4;

/// A line of the vouchers is bad.
pub(crate) const BAD_VOUCHERS: u8 = 5;

/// Memory was refused.
pub(crate) const OUT_OF_MEMORY: u8 = 6;

/// Standard output failed, or the file of the evidence.
pub(crate) const CANNOT_WRITE: u8 = 7;

/// A line of the evidence is bad.
pub(crate) const BAD_EVIDENCE: u8 = 8;

/// What is said on standard error: `clap`'s text, the lines of a bundle, or one line.
#[derive(Debug, Drop)]
pub enum Message<'a> {
    /// Why the words are refused, or their help.
    Usage(String),
    /// What was left out of a bundle, line by line.
    LeftOut(String),
    /// A number is not of its form.
    BadNumber,
    /// A moment is not of its form.
    BadMoment,
    /// A text is no host.
    BadHost(Refusal),
    /// A text is no purpose that can be asked for.
    BadPurpose(PurposeRefusal),
    /// This file can't be opened or read, or it is too long.
    CannotRead(&'a str),
    /// This file can't be created.
    CannotCreate(&'a str),
    /// This line of the vouchers is bad.
    VouchersLine(usize),
    /// This line of the evidence is bad.
    EvidenceLine(usize),
    /// The evidence is for another purpose, for one and none is asked for, or for none.
    OtherPurpose,
    /// Memory was refused.
    OutOfMemory,
    /// Standard output failed.
    CannotWrite,
    /// This file can't be written.
    CannotWriteTo(&'a str),
}

/// How the program ends.
#[derive(Debug, Drop)]
pub struct Exit<'a> {
    /// The exit status.
    pub status: u8,
    /// What is said on standard error.
    pub message: Option<Message<'a>>,
}

impl fmt::Display for Message<'_> {
    ghost output = { λ m. Some (message_text m) };

    fn fmt<W: fmt::Write>(&self, f: &mut fmt::Formatter<W>) -> fmt::Result {
        match self {
            Message::Usage(text) => f.write_str(text.as_str()),
            Message::LeftOut(text) => f.write_str(text.as_str()),
            Message::BadNumber => f.write_str("bad number\n"),
            Message::BadMoment => f.write_str("bad moment\n"),
            Message::BadHost(reason) => {
                let reason = host_reason(*reason);
                write!(f, "bad host: {reason}\n")
            }
            Message::BadPurpose(reason) => {
                let reason = reason.reason();
                write!(f, "bad purpose: {reason}\n")
            }
            Message::CannotRead(word) => write!(f, "cannot read {word}\n"),
            Message::CannotCreate(word) => write!(f, "cannot create {word}\n"),
            Message::VouchersLine(number) => write!(f, "vouchers line {number}\n"),
            Message::EvidenceLine(number) => write!(f, "evidence line {number}\n"),
            Message::OtherPurpose => f.write_str("the evidence is for another purpose\n"),
            Message::OutOfMemory => f.write_str("out of memory\n"),
            Message::CannotWrite => f.write_str("cannot write\n"),
            Message::CannotWriteTo(word) => write!(f, "cannot write {word}\n"),
        }
    }
}

/// The status for a command line that names nothing to do, and what is printed on standard error.
///
/// Status 2 with `clap`'s text, `bad number`, `bad moment`, `bad host` or `bad purpose`; status 6
/// if memory was refused.
pub fn words_status<'a>(fault: WordFault) -> Exit<'a>
    ensures status { result.status ≡ (words_exit_of fault).0 }
    ensures words { words_of result.message ≡ (words_exit_of fault).1 }
{
    match fault {
        WordFault::Refused(text) => ended(BAD_WORDS, Message::Usage(text)),
        WordFault::Number => ended(BAD_WORDS, Message::BadNumber),
        WordFault::Moment => ended(BAD_WORDS, Message::BadMoment),
        WordFault::Host(reason) => ended(BAD_WORDS, Message::BadHost(reason)),
        WordFault::Purpose(reason) => ended(BAD_WORDS, Message::BadPurpose(reason)),
        WordFault::OutOfMemory => ended(OUT_OF_MEMORY, Message::OutOfMemory),
    }
}

/// An end that says nothing.
pub(crate) fn silent<'a>(status: u8) -> Exit<'a>
    ensures status { result.status ≡ status }
    ensures words { words_of result.message ≡ [] }
{
    Exit {
        status,
        message: None,
    }
}

/// An end with a message.
pub(crate) fn ended<'a>(status: u8, message: Message<'a>) -> Exit<'a>
    ensures status { result.status ≡ status }
    ensures message { result.message ≡ Some message.entry }
{
    Exit {
        status,
        message: Some(message),
    }
}
