//! What the program ends with after `recheck`.
ghost use Rattle.std.specs.Prelude.{◌≡◌};
ghost use Rattle.certpath_engine.specs.Exits.{words_of};
ghost use Rattle.certpath_engine.specs.RecheckExits.{recheck_exit, said_exit_of, said_status_of, unsaid_exit_of};

use crate::exit::{BAD_EVIDENCE, CANNOT_READ, DONE, Exit, Message, NOT_ALL, ended, silent};
use crate::path_exit::{PathFiles, refused_exit};
use certpath_recheck::RecheckError;

/// The files of `recheck`, by their words.
#[derive(Clone, Copy, Debug, PartialEq, Eq)]
pub struct RecheckFiles<'a> {
    /// Those that a search had, too.
    pub searched: PathFiles<'a>,
    /// What the search wrote.
    pub evidence: &'a str,
}

/// How far the command `recheck` came.
#[derive(Debug, Drop)]
pub enum RecheckOutcome<'a> {
    /// This file can't be opened.
    Unopened(&'a str),
    /// These files were opened, and the run over them answered this.
    Ran(RecheckFiles<'a>, Result<bool, RecheckError>),
}

/// Returns the status of `recheck`, and what it says on standard error.
///
/// Status 0 if the check says yes, 1 if it says no or the evidence is for another purpose; 8 with
/// `evidence line N`; else as of `path_status`, with the evidence among the files.
pub fn recheck_status<'a>(outcome: RecheckOutcome<'a>) -> Exit<'a>
    ensures status { result.status ≡ (recheck_exit outcome.entry).0 }
    ensures words { words_of result.message ≡ (recheck_exit outcome.entry).1 }
{
    match outcome {
        RecheckOutcome::Unopened(file) => ended(CANNOT_READ, Message::CannotRead(file)),
        RecheckOutcome::Ran(files, answer) => said_exit(files, answer),
    }
}

/// How the program ends if the files were opened.
fn said_exit<'a>(files: RecheckFiles<'a>, answer: Result<bool, RecheckError>) -> Exit<'a>
    ensures status { result.status ≡ (said_exit_of files.entry answer).0 }
    ensures words { words_of result.message ≡ (said_exit_of files.entry answer).1 }
{
    match answer {
        Ok(said) => silent(said_status(said)),
        Err(error) => unsaid_exit(files, error),
    }
}

/// The status if the check said this.
fn said_status(said: bool) -> u8
    ensures { result ≡ said_status_of said }
{
    if said { DONE } else { NOT_ALL }
}

/// How the program ends if nothing was said of the evidence.
fn unsaid_exit<'a>(files: RecheckFiles<'a>, error: RecheckError) -> Exit<'a>
    ensures status { result.status ≡ (unsaid_exit_of files.entry error).0 }
    ensures words { words_of result.message ≡ (unsaid_exit_of files.entry error).1 }
{
    match error {
        RecheckError::Run(error) => refused_exit(files.searched, error),
        RecheckError::Read | RecheckError::TooLong => {
            ended(CANNOT_READ, Message::CannotRead(files.evidence))
        }
        RecheckError::BadLine(number) => ended(BAD_EVIDENCE, Message::EvidenceLine(number)),
        RecheckError::OtherPurpose => ended(NOT_ALL, Message::OtherPurpose),
    }
}
