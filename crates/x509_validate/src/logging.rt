//! Hands the messages of a validator to a logger, in their order.

ghost use Rattle.std.specs.Prelude.{◌≡◌, IfOk, IfErr, OnOk, OnErr, Ok, Err, map};
ghost use Rattle.x509_validate.specs.Logging.{TellsWeight, TakesAll, TakesSome};
ghost use Rattle.x509_validate.specs.Messages as messages;
ghost use Rattle.x509_validate.specs.View.{message_view, weight_view};

use crate::logger::{LogError, Logger};
use crate::message::{Message, Weight, all_pass};

/// Hands one message to the logger's method for its weight.
fn log<L: Logger>(message: &Message, l: &mut L) -> Result<(), LogError>
    ensures { TellsWeight L.warns L.errs (weight_view message.now.weight) l.old (message_view message.now).text result l.new }
{
    match message.weight {
        Weight::Warning => l.warn(&message.text),
        Weight::Fault | Weight::Fatal => l.err(&message.text),
    }
}

/// Hands over messages one after the other, up to the first that the logger refuses.
#[tactic(auto, using(crate::proofs::Told::begun, crate::proofs::Told::further, crate::proofs::Told::done, crate::proofs::Told::refused))]
fn log_each<L: Logger>(all: &[Message], l: &mut L) -> Result<(), LogError>
    ensures taken { OnOk result (TakesAll L.warns L.errs l.old (map message_view all.now) l.new) }
    ensures refused { IfErr result (λ e. TakesSome L.warns L.errs l.old (map message_view all.now) e l.new) }
{
    let mut rest = all;
    while let Some((message, after)) = rest.split_first() {
        log(message, l)?;
        rest = after;
    }
    Ok(())
}

/// Hands messages to a logger one after the other; `true` if none of them is fatal. It ends at the first message that the logger refuses, with
/// the logger's error.
pub fn log_all<L: Logger>(all: &[Message], l: &mut L) -> Result<bool, LogError>
    ensures taken { OnOk result (TakesAll L.warns L.errs l.old (map message_view all.now) l.new) }
    ensures answer { IfOk result (λ answer. answer ≡ messages.all_pass (map message_view all.now)) }
    ensures refused { IfErr result (λ e. TakesSome L.warns L.errs l.old (map message_view all.now) e l.new) }
{
    log_each(all, l)?;
    Ok(all_pass(all))
}
