//! `CallbackLogger`, a logger that calls closures.

ghost use Rattle.std.specs.Prelude.{◌≡◌};

use crate::logger::{LogError, Logger};

/// A closure that takes warnings.
pub type OnWarning = Box<dyn FnMut(&str)>;

/// A closure that takes errors.
pub type OnError = Box<dyn FnMut(&str)>;

/// A logger that hands warnings to one closure and errors to another.
#[derive(Drop)]
pub struct CallbackLogger {
    warn: OnWarning,
    err: OnError,
    ghost can_warn: { OnWarning.IsAlwaysCallable warn },
    ghost can_err: { OnError.IsAlwaysCallable err },
}

impl CallbackLogger {
    /// Makes a logger of two closures. They must accept any text, also after each call.
    pub fn new(warn: OnWarning, err: OnError) -> CallbackLogger
        requires warn { OnWarning.IsAlwaysCallable warn }
        requires err { OnError.IsAlwaysCallable err }
        ensures warnings { result.warn ≡ warn }
        ensures errors { result.err ≡ err }
    {
        CallbackLogger { warn, err }
    }

    /// The closures for warnings and for errors, in their present states.
    pub fn into_parts(self) -> (OnWarning, OnError)
        ensures { result ≡ (self.warn, self.err) }
    {
        let CallbackLogger { warn, err } = self;
        (warn, err)
    }
}

impl Logger for CallbackLogger {
    ghost use Rattle.std.specs.Prelude.{◌≡◌, ℕ, List, Ok};
    ghost use Rattle.std.specs.Borrow.{Bor};

    ghost warns = { λ old text answer new. (answer ≡ Ok tt) × (new.err ≡ old.err) × ((p : Bor (List ℕ)) × (p.now ≡ text) × OnWarning.step old.warn p tt new.warn) };

    ghost errs = { λ old text answer new. (answer ≡ Ok tt) × (new.warn ≡ old.warn) × ((p : Bor (List ℕ)) × (p.now ≡ text) × OnError.step old.err p tt new.err) };

    fn warn(&mut self, message: &str) -> Result<(), LogError> {
        (self.warn)(message);
        Ok(())
    }

    fn err(&mut self, message: &str) -> Result<(), LogError> {
        (self.err)(message);
        Ok(())
    }
}
