//! `X509NameStructureValidator` (RFC 5280, 4.1.2.4).

ghost use Rattle.std.specs.Prelude.{◌≡◌, ◌++◌, IfOk, OnOk, map, codes};
ghost use Rattle.std.specs.List.{list_any};
ghost use Rattle.asn1_oid.specs.Text.{oid_text};
ghost use Rattle.x509_names.specs.View.{attribute_view, name_view, attributes_in};
ghost use Rattle.x509_validate.specs.Messages as messages;
ghost use Rattle.x509_validate.specs.Names.{is_high, attribute_messages, name_messages};
ghost use Rattle.x509_validate.specs.Saying.{said_of_attributes};
ghost use Rattle.x509_validate.specs.View.{message_view};

use crate::logger::{LogError, Logger};
use crate::logging::log_all;
use crate::message::{Message, Weight};
use crate::validator::Validator;
use asn1_oid::Oid;
use std::alloc::{AllocError, Global};
use x509_names::{AttributeTypeAndValue, X509Name};

/// Validates names: warns of each PrintableString or IA5String with an octet outside ASCII (X.680,
/// 41).
#[derive(Clone, Copy, Debug)]
pub struct X509NameStructureValidator;

/// Whether an octet lies outside ASCII.
pub(crate) fn has_high(octets: &[u8]) -> bool
    ensures { result ≡ list_any is_high octets.now }
{
    octets.iter().any(|octet| *octet > 127)
}

fn foreign_component(alloc: Global, oid: &Oid<'_>) -> Result<Message, AllocError>
    ensures { IfOk result (λ m. message_view m ≡ messages.message messages.warning (codes "Invalid charset in X.509 Name, component " ++ oid_text oid.now)) }
{
    let mut text = String::new(alloc);
    write!(text, "Invalid charset in X.509 Name, component {oid}")?;
    Ok(Message {
        weight: Weight::Warning,
        text,
    })
}

fn push_attribute(
    alloc: Global,
    attribute: &AttributeTypeAndValue<'_>,
    said: &mut Vec<Message>,
) -> Result<(), AllocError>
    ensures { OnOk result (map message_view said.new.items ≡ map message_view said.old.items ++ attribute_messages (attribute_view attribute.now)) }
{
    let value = attribute.attr_value();
    let tag = value.tag().0;
    if (tag == 19 || tag == 22) && has_high(value.content) {
        said.push(foreign_component(alloc, attribute.attr_type())?)?;
    }
    Ok(())
}

/// Adds the messages of a name's attributes.
fn push_attributes(
    alloc: Global,
    name: &X509Name<'_>,
    said: &mut Vec<Message>,
) -> Result<(), AllocError>
    ensures { OnOk result (map message_view said.new.items ≡ map message_view said.old.items ++ said_of_attributes (attributes_in name.now.rdn_seq.items)) }
{
    let mut left = name.iter_attributes();
    while let Some(attribute) = left.next() {
        push_attribute(alloc, attribute, said)?;
    }
    Ok(())
}

/// Adds the messages of a name.
#[tactic(auto, using(crate::proofs::NameLaws::said_of_name))]
pub(crate) fn push_name(
    alloc: Global,
    name: &X509Name<'_>,
    said: &mut Vec<Message>,
) -> Result<(), AllocError>
    ensures { OnOk result (map message_view said.new.items ≡ map message_view said.old.items ++ name_messages (name_view name.now)) }
{
    push_attributes(alloc, name, said)
}

impl<'a> Validator<'a> for X509NameStructureValidator {
    ghost use Rattle.x509_names.specs.View.{name_view};
    ghost use Rattle.x509_validate.specs.Names.{name_messages};

    type Item = X509Name<'a>;

    ghost messages = { λ v name. name_messages (name_view name) };

    #[tactic(auto, using(crate::proofs::Told::untold))]
    fn validate<L: Logger>(
        &self,
        alloc: Global,
        name: &X509Name<'a>,
        l: &mut L,
    ) -> Result<bool, LogError> {
        let mut said = Vec::new(alloc);
        match push_name(alloc, name, &mut said) {
            Ok(()) => log_all(&said, l),
            Err(_) => Err(LogError::OutOfMemory),
        }
    }
}
