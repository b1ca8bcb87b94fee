//! Repeated identifiers.

ghost use Rattle.std.specs.Prelude.{◌≡◌, ◌∷◌, ◌++◌, ℕ, List, IfOk, OnOk, map};
ghost use Rattle.asn1_oid.specs.Text.{oid_text};
ghost use Rattle.x509_validate.specs.Messages as messages;
ghost use Rattle.x509_validate.specs.Messages.{Message as Said};
ghost use Rattle.x509_validate.specs.Before.{Left};
ghost use Rattle.x509_validate.specs.View.{message_view};

use crate::message::{Message, Weight};
use asn1_oid::Oid;
use std::alloc::{AllocError, Global};
use std::collections::BTreeSet;

fn repeat(alloc: Global, text: &str, oid: &Oid<'_>) -> Result<Message, AllocError>
    ensures { IfOk result (λ m. message_view m ≡ messages.message messages.fatal (text.now ++ oid_text oid.now)) }
{
    let mut said = String::new(alloc);
    write!(said, "{text}{oid}")?;
    Ok(Message {
        weight: Weight::Fatal,
        text: said,
    })
}

/// Adds a message if the identifier occurred before, else keeps it. For n identifiers of s octets
/// in all some s log n octets are compared.
pub(crate) fn push_repeat<'n>(
    alloc: Global,
    text: &str,
    oid: &'n Oid<'_>,
    seen: &mut BTreeSet<&'n [u8]>,
    said: &mut Vec<Message>,
) -> Result<(), AllocError>
    ensures { OnOk result ((whole : List Said) (rest : List (List ℕ)) → Left text.now whole (map message_view said.old.items) seen.old (oid.now ∷ rest)
        → Left text.now whole (map message_view said.new.items) seen.new rest) }
{
    let octets = oid.as_bytes();
    if seen.contains(octets) {
        said.push(repeat(alloc, text, oid)?)?;
    } else {
        seen.insert(octets)?;
    }
    Ok(())
}
