//! Algorithms, attributes and names.

use crate::call::names::add_registered;
use crate::called::Called;
use crate::kinds::{AttributeType, Check, OfName};
use crate::validator::certificate::add_judged;
use crate::words::{Words, add_element, add_error, add_words_before};
use asn1_any::Any;
use asn1_oid::Oid;
use rows_hex::{Added, add_hex};
use x509_names::{
    AlgorithmIdentifier, AttributeTypeAndValue, AttributesOf, RelativeDistinguishedName, X509Name,
};

impl Words for AlgorithmIdentifier<'_> {
    fn add_words(&self, text: &mut String) -> Added {
        write!(text, "{}", self.oid())?;
        match self.parameters() {
            Some(parameters) => {
                text.push_str(", ")?;
                add_element(text, parameters)
            }
            None => Ok(()),
        }
    }
}

impl Words for AttributeTypeAndValue<'_> {
    fn add_words(&self, text: &mut String) -> Added {
        write!(text, "{}, ", self.attr_type())?;
        add_element(text, self.attr_value())
    }
}

impl Words for RelativeDistinguishedName<'_> {
    fn add_words(&self, text: &mut String) -> Added {
        for attribute in self.iter() {
            add_attribute(text, attribute)?;
        }
        Ok(())
    }
}

impl Words for X509Name<'_> {
    fn add_words(&self, text: &mut String) -> Added {
        for set in self.iter_rdn() {
            add_set(text, set)?;
        }
        text.push_str(" of ")?;
        add_hex(text, self.as_raw())
    }
}

/// Adds a set in brackets.
fn add_set(text: &mut String, set: &RelativeDistinguishedName<'_>) -> Added {
    text.push_str("[")?;
    set.add_words(text)?;
    text.push_str("]")
}

/// Adds what `as_str` answers of an attribute whose value is the element.
pub(crate) fn add_as_str(text: &mut String, octets: &[u8]) -> Added {
    let Some(attribute) = attribute_with(octets) else {
        return text.push_str("no element");
    };
    match attribute.as_str() {
        Ok(value) => text.push_str(value),
        Err(error) => add_error(text, &error),
    }
}

/// Adds what `as_slice` answers of an attribute whose value is the element.
pub(crate) fn add_as_slice(text: &mut String, octets: &[u8]) -> Added {
    match attribute_with(octets) {
        Some(attribute) => add_hex(text, attribute.as_slice()),
        None => text.push_str("no element"),
    }
}

/// An attribute of the type 2.5.4.3 whose value is the element.
fn attribute_with(octets: &[u8]) -> Option<AttributeTypeAndValue<'_>> {
    match Any::from_der(octets) {
        Ok((_, value)) => Some(AttributeTypeAndValue::new(Oid::new(b"\x55\x04\x03"), value)),
        Err(_) => None,
    }
}

impl Called<OfName> for X509Name<'_> {
    fn add_called(&self, text: &mut String, call: OfName, rest: &[u8]) -> Added {
        match call {
            OfName::Words => add_words_before(text, self, rest),
            OfName::Shown => write!(text, "{self}"),
            OfName::Registered => add_registered(text, self),
            OfName::Structure => add_judged(text, Check::Structure, self),
            OfName::Attributes => add_attributes(text, self),
            OfName::Iter(of_type) => add_attributes_by(text, attributes_by(self, of_type)),
        }
    }
}

fn add_attributes(text: &mut String, name: &X509Name<'_>) -> Added {
    for attribute in name.iter_attributes() {
        add_attribute(text, attribute)?;
    }
    Ok(())
}

fn add_attributes_by(text: &mut String, attributes: AttributesOf<'_, '_>) -> Added {
    for attribute in attributes {
        add_attribute(text, attribute)?;
    }
    Ok(())
}

/// What the call of a name goes over, one attribute behind the other.
fn attributes_by<'n, 'a>(name: &'n X509Name<'a>, of_type: AttributeType) -> AttributesOf<'n, 'a> {
    match of_type {
        AttributeType::CommonName => name.iter_common_name(),
        AttributeType::Country => name.iter_country(),
        AttributeType::Organization => name.iter_organization(),
        AttributeType::OrganizationalUnit => name.iter_organizational_unit(),
        AttributeType::StateOrProvince => name.iter_state_or_province(),
        AttributeType::Locality => name.iter_locality(),
        AttributeType::Email => name.iter_email(),
    }
}

/// Adds an attribute in parentheses.
fn add_attribute(text: &mut String, attribute: &AttributeTypeAndValue<'_>) -> Added {
    text.push_str("(")?;
    attribute.add_words(text)?;
    text.push_str(")")
}
