//! What the program ends with after `frame` and `questions`, which are over items alone.

ghost use Rattle.std.specs.Prelude.{◌≡◌};
ghost use Rattle.certpath_engine.specs.Exits.{words_of};
ghost use Rattle.certpath_engine.specs.ItemsExits.{frame_exit, framed_exit_of, end_status_of, one_file, questions_exit, asked_exit_of, items_exit_of, item_word_of};

use crate::exit::{
    CANNOT_READ, CANNOT_WRITE, DONE, Exit, Message, NOT_ALL, OUT_OF_MEMORY, ended, silent,
};
use cert_framing::End;
use certpath_run::{ItemInput, ItemsError};

/// The files of `questions`, by their words.
#[derive(Clone, Copy, Debug, PartialEq, Eq)]
pub struct ItemFiles<'a> {
    /// The bundle.
    pub bundle: &'a str,
    /// The anchors.
    pub anchors: &'a str,
}

impl<'a> ItemFiles<'a> {
    /// The one file of `frame`.
    fn one(file: &'a str) -> ItemFiles<'a>
        ensures { result ≡ one_file file.entry }
    {
        ItemFiles {
            bundle: file,
            anchors: file,
        }
    }

    /// The word of an input's file.
    pub fn word(self, input: ItemInput) -> &'a str
        ensures { result.now ≡ item_word_of self.entry input }
    {
        match input {
            ItemInput::Bundle => self.bundle,
            ItemInput::Anchors => self.anchors,
        }
    }
}

/// How far the command `frame` came.
#[derive(Debug, Drop)]
pub enum FrameOutcome<'a> {
    /// This file can't be opened.
    Unopened(&'a str),
    /// This file was opened, and framing it answered this.
    Framed(&'a str, Result<End, ItemsError>),
}

/// How far the command `questions` came.
#[derive(Debug, Drop)]
pub enum QuestionsOutcome<'a> {
    /// This file can't be opened.
    Unopened(&'a str),
    /// These files were opened, and the run over them answered this.
    Asked(ItemFiles<'a>, Result<(), ItemsError>),
}

/// Returns the status of `frame`, and what it says on standard error.
///
/// Status 0 if the stream ends cleanly, 1 if not; 4 with `cannot read FILE`, 6 with `out of
/// memory`, 7 with `cannot write`.
pub fn frame_status<'a>(outcome: FrameOutcome<'a>) -> Exit<'a>
    ensures status { result.status ≡ (frame_exit outcome.entry).0 }
    ensures words { words_of result.message ≡ (frame_exit outcome.entry).1 }
{
    match outcome {
        FrameOutcome::Unopened(file) => ended(CANNOT_READ, Message::CannotRead(file)),
        FrameOutcome::Framed(file, answer) => framed_exit(file, answer),
    }
}

/// Returns the status of `questions`, and what it says on standard error.
///
/// Status 0 if all was written; else as of [`frame_status`], with the file that the error is of.
pub fn questions_status<'a>(outcome: QuestionsOutcome<'a>) -> Exit<'a>
    ensures status { result.status ≡ (questions_exit outcome.entry).0 }
    ensures words { words_of result.message ≡ (questions_exit outcome.entry).1 }
{
    match outcome {
        QuestionsOutcome::Unopened(file) => ended(CANNOT_READ, Message::CannotRead(file)),
        QuestionsOutcome::Asked(files, answer) => asked_exit(files, answer),
    }
}

/// How the program ends if the file to be framed was opened.
fn framed_exit<'a>(file: &'a str, answer: Result<End, ItemsError>) -> Exit<'a>
    ensures status { result.status ≡ (framed_exit_of file.entry answer).0 }
    ensures words { words_of result.message ≡ (framed_exit_of file.entry answer).1 }
{
    match answer {
        Ok(end) => silent(end_status(end)),
        Err(error) => items_exit(ItemFiles::one(file), error),
    }
}

/// The status if the stream was framed.
fn end_status(end: End) -> u8
    ensures { result ≡ end_status_of end }
{
    match end {
        End::Clean => DONE,
        End::Cut(_) | End::Fault(_) => NOT_ALL,
    }
}

/// How the program ends if the files of `questions` were opened.
fn asked_exit<'a>(files: ItemFiles<'a>, answer: Result<(), ItemsError>) -> Exit<'a>
    ensures status { result.status ≡ (asked_exit_of files.entry answer).0 }
    ensures words { words_of result.message ≡ (asked_exit_of files.entry answer).1 }
{
    match answer {
        Ok(()) => silent(DONE),
        Err(error) => items_exit(files, error),
    }
}

/// How the program ends if not all was written.
fn items_exit<'a>(files: ItemFiles<'a>, error: ItemsError) -> Exit<'a>
    ensures status { result.status ≡ (items_exit_of files.entry error).0 }
    ensures words { words_of result.message ≡ (items_exit_of files.entry error).1 }
{
    match error {
        ItemsError::Read(input) | ItemsError::TooLong(input) => {
            ended(CANNOT_READ, Message::CannotRead(files.word(input)))
        }
        ItemsError::OutOfMemory => ended(OUT_OF_MEMORY, Message::OutOfMemory),
        ItemsError::Write => ended(CANNOT_WRITE, Message::CannotWrite),
    }
}
