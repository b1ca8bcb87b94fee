//! What is said of a value.

use rows_hex::Added;
use x509_parser::validate::{LogError, Validate, VecLogger};

/// Adds the answer, the warnings and the errors.
pub(crate) fn add_messages(
    text: &mut String,
    answer: bool,
    warnings: &[String],
    errors: &[String],
) -> Added {
    write!(text, "{answer}")?;
    for warning in warnings {
        write!(text, "; W {warning}")?;
    }
    for error in errors {
        write!(text, "; E {error}")?;
    }
    Ok(())
}

/// Adds the answer and what the logger was told.
pub(crate) fn add_log(text: &mut String, answer: Result<bool, LogError>, l: &VecLogger) -> Added {
    match answer {
        Ok(answer) => add_messages(text, answer, l.warnings(), l.errors()),
        Err(_) => text.push_str("refused"),
    }
}

/// Adds what the value says of itself.
pub(crate) fn add_by_itself<T: Validate>(text: &mut String, value: &T) -> Added {
    match value.validate_to_vec(*text.allocator()) {
        Ok((answer, warnings, errors)) => add_messages(text, answer, &warnings, &errors),
        Err(_) => text.push_str("refused"),
    }
}
