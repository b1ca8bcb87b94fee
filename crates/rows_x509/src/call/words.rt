//! Calls on words.

use crate::call::flags::add_key_usage;
use crate::call::names::add_built_name;
use crate::call::warned::add_validated;
use crate::kinds::OnWords;
use crate::validator::loggers::add_log_error;
use rows_hex::Added;

/// Adds what the call answers of the words.
pub(crate) fn add_on_words(text: &mut String, call: OnWords, words: &str) -> Added {
    match call {
        OnWords::BuiltName => add_built_name(text, words),
        OnWords::KeyUsage => add_key_usage(text, words),
        OnWords::Validate => add_validated(text, words),
        OnWords::Refusal => add_log_error(text, words),
    }
}
