//! Loggers that keep nothing themselves.

use rows_hex::Added;
use std::cell::RefCell;
use std::rc::Rc;
use x509_parser::prelude::{
    CallbackLogger, LogError, StderrLogger, Validate, WriteSink, X509Certificate,
};

/// Adds the answer, and the lines that are written, `/` for the end of each.
pub(crate) fn add_written(text: &mut String, certificate: &X509Certificate<'_>) -> Added {
    let alloc = *text.allocator();
    let mut l = StderrLogger::new(WriteSink::new(Vec::new(alloc)));
    match certificate.validate(alloc, &mut l) {
        Ok(answer) => {
            write!(text, "{answer} ")?;
            add_lines(text, &l.into_inner().into_inner())
        }
        Err(_) => text.push_str("refused"),
    }
}

fn add_lines(text: &mut String, octets: &[u8]) -> Added {
    let Ok(lines) = str::from_utf8(octets) else {
        return text.push_str("no text");
    };
    for letter in lines.chars() {
        text.push(if letter == '\n' { '/' } else { letter })?;
    }
    Ok(())
}

/// Adds the answer, and what two closures are handed, in order.
pub(crate) fn add_handed(text: &mut String, certificate: &X509Certificate<'_>) -> Added {
    let alloc = *text.allocator();
    let kept = Rc::new(alloc, RefCell::new(String::new(alloc)))?;
    let of_warnings = Rc::clone(&kept)?;
    let of_errors = Rc::clone(&kept)?;
    let on_warning = Box::new(alloc, move |text: &str| keep(&of_warnings, "W", text))?;
    let on_error = Box::new(alloc, move |text: &str| keep(&of_errors, "E", text))?;
    let mut l = CallbackLogger::new(on_warning, on_error);
    match certificate.validate(alloc, &mut l) {
        Ok(answer) => add_kept(text, answer, &kept),
        Err(_) => text.push_str("refused"),
    }
}

fn add_kept(text: &mut String, answer: bool, kept: &RefCell<String>) -> Added {
    write!(text, "{answer}")?;
    match kept.try_replace(String::new(*text.allocator())) {
        Ok(texts) => text.push_str(&texts),
        Err(_) => text.push_str("lent"),
    }
}

/// Adds why a message isn't taken, as text, by the name of the case.
pub(crate) fn add_log_error(text: &mut String, name: &str) -> Added {
    let error = if name == "memory" {
        LogError::OutOfMemory
    } else {
        LogError::Write
    };
    write!(text, "{error}")
}

fn keep(kept: &RefCell<String>, mark: &str, text: &str) {
    if let Ok(mut texts) = kept.try_borrow_mut() {
        if write!(texts, "; {mark} {text}").is_err() {
            texts.clear();
        }
    }
}
