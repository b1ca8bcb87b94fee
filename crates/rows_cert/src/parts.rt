//! The parts that fields have in common, each as one piece of a line.

use asn1_core::Class;
use cert_model::fields::{AlgField, AnyField, AttrField, BitField, ExtField, NameFields};
use jiff::civil::DateTime;
use rows_hex::{Added, add_hex};

/// A part that has words.
pub(crate) trait Words {
    /// Adds the part to the text.
    fn add_words(&self, text: &mut String) -> Added;
}

/// Adds a line of a field: its name, and what stands in it.
pub(crate) fn add<T: Words>(text: &mut String, name: &str, part: &T) -> Added {
    add_line(text, name)?;
    part.add_words(text)
}

/// Begins a line of a field.
pub(crate) fn add_line(text: &mut String, name: &str) -> Added {
    write!(text, "\n  {name} ")
}

impl Words for DateTime {
    fn add_words(&self, text: &mut String) -> Added {
        write!(text, "{self}")
    }
}

impl Words for AnyField<'_> {
    /// An element: class, form, tag number and content.
    fn add_words(&self, text: &mut String) -> Added {
        let class = match self.class {
            Class::Universal => "universal",
            Class::Application => "application",
            Class::ContextSpecific => "context",
            Class::Private => "private",
        };
        let form = if self.constructed {
            "constructed"
        } else {
            "primitive"
        };
        write!(text, "{class} {form} {} ", self.tag.0)?;
        add_hex(text, self.content)
    }
}

impl Words for AlgField<'_> {
    /// An algorithm's identifier, and its parameters where they stand.
    fn add_words(&self, text: &mut String) -> Added {
        add_hex(text, self.identifier)?;
        match &self.parameters {
            Some(parameters) => {
                text.push_str(", ")?;
                parameters.add_words(text)
            }
            None => Ok(()),
        }
    }
}

impl Words for BitField<'_> {
    /// The number of unused bits, and the octets.
    fn add_words(&self, text: &mut String) -> Added {
        write!(text, "{} unused of ", self.unused)?;
        add_hex(text, self.octets)
    }
}

impl Words for AttrField<'_> {
    /// An attribute's identifier and value, in parentheses.
    fn add_words(&self, text: &mut String) -> Added {
        text.push('(')?;
        add_hex(text, self.identifier)?;
        text.push_str(", ")?;
        self.value.add_words(text)?;
        text.push(')')
    }
}

impl Words for NameFields<'_> {
    /// The sets of a name in brackets; `empty` of none.
    fn add_words(&self, text: &mut String) -> Added {
        if self.sets.is_empty() {
            return text.push_str("empty");
        }
        for set in &self.sets {
            add_set(text, set)?;
        }
        Ok(())
    }
}

/// Adds a set in brackets.
fn add_set(text: &mut String, set: &[AttrField<'_>]) -> Added {
    text.push('[')?;
    for attribute in set {
        attribute.add_words(text)?;
    }
    text.push(']')
}

impl Words for ExtField<'_> {
    /// An extension: its identifier, whether it is critical, and its value.
    fn add_words(&self, text: &mut String) -> Added {
        add_hex(text, self.identifier)?;
        text.push_str(if self.critical { ", critical, " } else { ", " })?;
        add_hex(text, self.value)
    }
}
