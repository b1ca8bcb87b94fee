//! A type of one's own that is validated.

use crate::validator::messages::{add_by_itself, add_log};
use rows_hex::Added;
use std::alloc::Global;
use x509_parser::validate::{LogError, Logger, Validate, Validator, VecLogger};

/// A number that warns of itself where it is above 10.
#[derive(Clone, Copy, Debug)]
struct Small {
    number: u32,
}

impl Validate for Small {
    ghost use Rattle.rows_x509.specs.Warned.{warnings_of};

    ghost messages = { λ small. warnings_of small.number };

    fn validate<L: Logger>(&self, _alloc: Global, l: &mut L) -> Result<bool, LogError> {
        if self.number > 10 {
            l.warn("a is greater than 10")?;
        }
        Ok(true)
    }
}

/// Says of such a number what it says of itself.
#[derive(Clone, Copy, Debug)]
struct SmallValidator;

impl<'a> Validator<'a> for SmallValidator {
    ghost use Rattle.rows_x509.specs.Warned.{warnings_of};

    type Item = Small;

    ghost messages = { λ v small. warnings_of small.number };

    fn validate<L: Logger>(
        &self,
        alloc: Global,
        item: &Small,
        l: &mut L,
    ) -> Result<bool, LogError> {
        item.validate(alloc, l)
    }
}

/// Adds what is said of the number that the word spells: by itself, and by its validator.
pub(crate) fn add_validated(text: &mut String, word: &str) -> Added {
    let Ok(number) = word.parse::<u32>() else {
        return text.push_str("no number");
    };
    let small = Small { number };
    text.push_str("itself ")?;
    add_by_itself(text, &small)?;
    text.push_str("; its validator ")?;
    add_by_validator(text, &small)
}

fn add_by_validator(text: &mut String, small: &Small) -> Added {
    let alloc = *text.allocator();
    let mut l = VecLogger::new(alloc);
    let answer = SmallValidator.validate(alloc, small, &mut l);
    add_log(text, answer, &l)
}
