//! What the program ends with after `path`, `why` and `paths`.
ghost use Rattle.std.specs.Prelude.{◌≡◌};
ghost use Rattle.certpath_engine.specs.Exits.{words_of};
ghost use Rattle.certpath_engine.specs.PathExits.{path_exit, paths_exit, found_exit, ran_exit_of, all_exit_of, refused_exit_of, status_of, all_status_of, word_of};

use crate::exit::{
    BAD_VOUCHERS, CANNOT_READ, CANNOT_WRITE, DONE, Exit, Message, NO_TARGET, NOT_ALL,
    OUT_OF_MEMORY, ended, silent,
};
use certpath_run::{AllOutcome, Input, Outcome, RunError};

/// The files of `path`, `why` and `paths`, by their words.
#[derive(Clone, Copy, Debug, PartialEq, Eq)]
pub struct PathFiles<'a> {
    /// The bundle.
    pub bundle: &'a str,
    /// The anchors.
    pub anchors: &'a str,
    /// The vouchers.
    pub vouchers: &'a str,
}

impl<'a> PathFiles<'a> {
    /// The word of an input's file.
    pub fn word(self, input: Input) -> &'a str
        ensures { result.now ≡ word_of self.entry input }
    {
        match input {
            Input::Bundle => self.bundle,
            Input::Anchors => self.anchors,
            Input::Vouchers => self.vouchers,
        }
    }
}

/// How far a command over three files came that returns a T.
#[derive(Debug, Drop)]
pub enum PathOutcome<'a, T> {
    /// This file can't be opened.
    Unopened(&'a str),
    /// These files were opened, and the run over them answered this.
    Ran(PathFiles<'a>, Result<T, RunError>),
}

/// How far `paths` came.
#[derive(Debug, Drop)]
pub enum PathsOutcome<'a> {
    /// The file of the evidence was written, or none was asked for, or the run came not so far.
    Found(PathOutcome<'a, AllOutcome>),
    /// This file of the evidence can't be created.
    Uncreated(&'a str),
    /// This file of the evidence was created, and isn't written whole.
    Unwritten(&'a str),
}

/// Returns the status of `path` and `why`, and what they say on standard error.
///
/// Status 0 if there is a path, 1 if there is none, 3 if the target is no certificate; 4 with
/// `cannot read FILE`, 5 with `vouchers line N`, 6 with `out of memory`, 7 with `cannot write`.
pub fn path_status<'a>(outcome: PathOutcome<'a, Outcome>) -> Exit<'a>
    ensures status { result.status ≡ (path_exit outcome.entry).0 }
    ensures words { words_of result.message ≡ (path_exit outcome.entry).1 }
{
    match outcome {
        PathOutcome::Unopened(file) => ended(CANNOT_READ, Message::CannotRead(file)),
        PathOutcome::Ran(files, answer) => ran_exit(files, answer),
    }
}

/// Returns the status of `paths`, and what it says on standard error.
///
/// Status 0 if each certificate has a path, 1 if not; else as of [`path_status`], or 4 with `cannot
/// create FILE` and 7 with `cannot write FILE`, of the file of the evidence.
pub fn paths_status<'a>(outcome: PathsOutcome<'a>) -> Exit<'a>
    ensures status { result.status ≡ (paths_exit outcome.entry).0 }
    ensures words { words_of result.message ≡ (paths_exit outcome.entry).1 }
{
    match outcome {
        PathsOutcome::Found(outcome) => found_exit(outcome),
        PathsOutcome::Uncreated(file) => ended(CANNOT_READ, Message::CannotCreate(file)),
        PathsOutcome::Unwritten(file) => ended(CANNOT_WRITE, Message::CannotWriteTo(file)),
    }
}

/// How the program ends if all items are asked about.
fn found_exit<'a>(outcome: PathOutcome<'a, AllOutcome>) -> Exit<'a>
    ensures status { result.status ≡ (found_exit outcome.entry).0 }
    ensures words { words_of result.message ≡ (found_exit outcome.entry).1 }
{
    match outcome {
        PathOutcome::Unopened(file) => ended(CANNOT_READ, Message::CannotRead(file)),
        PathOutcome::Ran(files, answer) => all_exit(files, answer),
    }
}

/// How the program ends if the files were opened.
fn ran_exit<'a>(files: PathFiles<'a>, answer: Result<Outcome, RunError>) -> Exit<'a>
    ensures status { result.status ≡ (ran_exit_of files.entry answer).0 }
    ensures words { words_of result.message ≡ (ran_exit_of files.entry answer).1 }
{
    match answer {
        Ok(outcome) => silent(outcome_status(outcome)),
        Err(error) => refused_exit(files, error),
    }
}

/// How it ends if they were opened, and all items are asked about.
fn all_exit<'a>(files: PathFiles<'a>, answer: Result<AllOutcome, RunError>) -> Exit<'a>
    ensures status { result.status ≡ (all_exit_of files.entry answer).0 }
    ensures words { words_of result.message ≡ (all_exit_of files.entry answer).1 }
{
    match answer {
        Ok(outcome) => silent(all_status(outcome)),
        Err(error) => refused_exit(files, error),
    }
}

/// The status if the run has an answer.
fn outcome_status(outcome: Outcome) -> u8
    ensures { result ≡ status_of outcome }
{
    match outcome {
        Outcome::Path => DONE,
        Outcome::NoPath => NOT_ALL,
        Outcome::NoTarget => NO_TARGET,
    }
}

/// The status if it has one for all items.
fn all_status(outcome: AllOutcome) -> u8
    ensures { result ≡ all_status_of outcome }
{
    match outcome {
        AllOutcome::Each => DONE,
        AllOutcome::NotEach => NOT_ALL,
    }
}

/// How the program ends if it has none.
pub(crate) fn refused_exit<'a>(files: PathFiles<'a>, error: RunError) -> Exit<'a>
    ensures status { result.status ≡ (refused_exit_of files.entry error).0 }
    ensures words { words_of result.message ≡ (refused_exit_of files.entry error).1 }
{
    match error {
        RunError::Read(input) | RunError::TooLong(input) => {
            ended(CANNOT_READ, Message::CannotRead(files.word(input)))
        }
        RunError::BadLine(number) => ended(BAD_VOUCHERS, Message::VouchersLine(number)),
        RunError::OutOfMemory => ended(OUT_OF_MEMORY, Message::OutOfMemory),
        RunError::Write => ended(CANNOT_WRITE, Message::CannotWrite),
    }
}
