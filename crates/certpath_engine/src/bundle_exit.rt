//! What the program ends with after `bundle`.
ghost use Rattle.std.specs.Prelude.{◌≡◌};
ghost use Rattle.certpath_engine.specs.Exits.{words_of};
ghost use Rattle.certpath_engine.specs.BundleExits.{bundle_exit, bundled_exit_of, unread_exit_of, said_exit_of, unwritten_exit_of, left_out_status_of};

use crate::exit::{CANNOT_READ, CANNOT_WRITE, DONE, Exit, Message, NOT_ALL, OUT_OF_MEMORY, ended};
use certpath_bundle::{BundleError, Said};
use certpath_inputs::InputError;

/// How far the command `bundle` came.
#[derive(Debug, Drop)]
pub enum BundleOutcome<'a> {
    /// This file can't be opened.
    Unopened(&'a str),
    /// This file was opened, and not read to its end.
    Unread(&'a str, InputError),
    /// The files were read, and writing their items answered this.
    Bundled(Result<Said, BundleError>),
}

/// Returns the status of `bundle`, and what it says on standard error.
///
/// Status 0 if nothing was left out, 1 if something was; 4 with `cannot read FILE`, 6 with `out of
/// memory`, 7 with `cannot write`.
pub fn bundle_status<'a>(outcome: BundleOutcome<'a>) -> Exit<'a>
    ensures status { result.status ≡ (bundle_exit outcome.entry).0 }
    ensures words { words_of result.message ≡ (bundle_exit outcome.entry).1 }
{
    match outcome {
        BundleOutcome::Unopened(file) => ended(CANNOT_READ, Message::CannotRead(file)),
        BundleOutcome::Unread(file, error) => unread_exit(file, error),
        BundleOutcome::Bundled(answer) => bundled_exit(answer),
    }
}

/// How the program ends if the files were read.
fn bundled_exit<'a>(answer: Result<Said, BundleError>) -> Exit<'a>
    ensures status { result.status ≡ (bundled_exit_of answer).0 }
    ensures words { words_of result.message ≡ (bundled_exit_of answer).1 }
{
    match answer {
        Ok(said) => said_exit(said),
        Err(error) => unwritten_exit(error),
    }
}

/// How the program ends if a file was not read.
fn unread_exit<'a>(file: &'a str, error: InputError) -> Exit<'a>
    ensures status { result.status ≡ (unread_exit_of file.now error).0 }
    ensures words { words_of result.message ≡ (unread_exit_of file.now error).1 }
{
    match error {
        InputError::Read | InputError::TooLong => ended(CANNOT_READ, Message::CannotRead(file)),
        InputError::OutOfMemory => ended(OUT_OF_MEMORY, Message::OutOfMemory),
    }
}

/// The status if so often something was left out.
fn left_out_status(count: usize) -> u8
    ensures { result ≡ left_out_status_of count }
{
    if count == 0 { DONE } else { NOT_ALL }
}

/// How the program ends if all was written.
fn said_exit<'a>(said: Said) -> Exit<'a>
    ensures status { result.status ≡ (said_exit_of said).0 }
    ensures words { words_of result.message ≡ (said_exit_of said).1 }
{
    let status = left_out_status(said.left_out);
    ended(status, Message::LeftOut(said.text))
}

/// How the program ends if not all was written.
fn unwritten_exit<'a>(error: BundleError) -> Exit<'a>
    ensures status { result.status ≡ (unwritten_exit_of error).0 }
    ensures words { words_of result.message ≡ (unwritten_exit_of error).1 }
{
    match error {
        BundleError::OutOfMemory => ended(OUT_OF_MEMORY, Message::OutOfMemory),
        BundleError::Write => ended(CANNOT_WRITE, Message::CannotWrite),
    }
}
