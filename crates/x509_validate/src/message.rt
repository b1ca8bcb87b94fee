//! `Message`, what a validator reports.

ghost use Rattle.std.specs.Prelude.{◌≡◌, [], ◌∷◌, ◌++◌, OnOk, OnErr, map};
ghost use Rattle.std.specs.List.{list_all};
ghost use Rattle.x509_validate.specs.Messages as messages;
ghost use Rattle.x509_validate.specs.Messages.{all_pass};
ghost use Rattle.x509_validate.specs.View.{message_view, weight_view};

use std::alloc::{AllocError, Global};

/// The weight of a message.
#[derive(Clone, Copy, Debug, PartialEq, Eq)]
pub enum Weight {
    /// Logged as a warning.
    Warning,
    /// Logged as an error.
    Fault,
    /// Logged as an error, and validation returns `false`.
    Fatal,
}

/// A message of a validator.
#[derive(Debug, Drop)]
pub struct Message {
    /// The weight of a message.
    pub weight: Weight,
    /// Its text, as it is logged.
    pub text: String,
}

impl Message {
    /// Whether the message isn't fatal.
    fn passes(&self) -> bool
        ensures { result ≡ messages.passes (message_view self.now) }
    {
        match self.weight {
            Weight::Warning | Weight::Fault => true,
            Weight::Fatal => false,
        }
    }
}

fn each_passes(all: &[Message]) -> bool
    ensures { result ≡ list_all (λ m. messages.passes (message_view m)) all.now }
{
    all.iter().all(|message| message.passes())
}

/// Whether no message is fatal.
#[tactic(auto, using(crate::proofs::Told::passes_each))]
pub(crate) fn all_pass(all: &[Message]) -> bool
    ensures { result ≡ messages.all_pass (map message_view all.now) }
{
    each_passes(all)
}

/// Appends a message with this text.
///
/// # Errors
///
/// Out of memory, for the text or the vector.
pub fn push_text(
    alloc: Global,
    weight: Weight,
    text: &str,
    said: &mut Vec<Message>,
) -> Result<(), AllocError>
    ensures added { OnOk result (map message_view said.new.items ≡ map message_view said.old.items ++ (messages.message (weight_view weight) text.now ∷ [])) }
    ensures refused { OnErr result (said.new.items ≡ said.old.items) }
{
    let text = String::from_str(alloc, text)?;
    said.push(Message { weight, text })?;
    Ok(())
}
