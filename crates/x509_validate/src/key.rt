//! `X509PublicKeyValidator` (RFC 5280, 4.1.2.7).

ghost use Rattle.std.specs.Prelude.{◌≡◌, ◌++◌, OnOk, map};
ghost use Rattle.x509_names.specs.View.{key_view, public_key_view, rsa_view};
ghost use Rattle.x509_validate.specs.Keys.{sign_messages, rsa_messages, value_messages, key_messages, AreKeyMessages};
ghost use Rattle.x509_validate.specs.View.{message_view};

use crate::logger::{LogError, Logger};
use crate::logging::log_all;
use crate::message::{Message, Weight, push_text};
use crate::validator::Validator;
use std::alloc::{AllocError, Global};
use x509_names::{PublicKey, RSAPublicKey, SubjectPublicKeyInfo};

/// Validates public keys. `Invalid public key`, which is fatal: the octets are no key of the
/// algorithm. Warnings: an unknown algorithm; an RSA key with a negative number.
#[derive(Clone, Copy, Debug)]
pub struct X509PublicKeyValidator;

impl Default for X509PublicKeyValidator {
    fn default() -> X509PublicKeyValidator {
        X509PublicKeyValidator
    }
}

/// Adds a warning with this text if the number is negative.
fn push_sign(
    alloc: Global,
    text: &str,
    content: &[u8],
    said: &mut Vec<Message>,
) -> Result<(), AllocError>
    ensures { OnOk result (map message_view said.new.items ≡ map message_view said.old.items ++ sign_messages text.now content.now) }
{
    match content {
        [first, ..] if *first > 127 => push_text(alloc, Weight::Warning, text, said),
        _ => Ok(()),
    }
}

fn push_rsa(
    alloc: Global,
    key: &RSAPublicKey<'_>,
    said: &mut Vec<Message>,
) -> Result<(), AllocError>
    ensures { OnOk result (map message_view said.new.items ≡ map message_view said.old.items ++ rsa_messages (rsa_view key.now)) }
{
    push_sign(
        alloc,
        "Public key: (RSA) modulus is negative",
        key.modulus,
        said,
    )?;
    push_sign(
        alloc,
        "Public key: (RSA) exponent is negative",
        key.exponent,
        said,
    )
}

fn push_value(alloc: Global, key: &PublicKey<'_>, said: &mut Vec<Message>) -> Result<(), AllocError>
    ensures { OnOk result (map message_view said.new.items ≡ map message_view said.old.items ++ value_messages (public_key_view key.now)) }
{
    match key {
        PublicKey::RSA(key) => push_rsa(alloc, key, said),
        PublicKey::Unknown(_) => push_text(alloc, Weight::Warning, "Unknown public key type", said),
        _ => Ok(()),
    }
}

/// Adds the messages of a key with these octets.
fn push_parsed(
    alloc: Global,
    key: &SubjectPublicKeyInfo<'_>,
    octets: &[u8],
    said: &mut Vec<Message>,
) -> Result<(), AllocError>
    requires { octets.now ≡ key.now.subject_public_key.content.now }
    ensures { OnOk result (map message_view said.new.items ≡ map message_view said.old.items ++ key_messages (key_view key.now)) }
{
    match key.parsed() {
        Ok(value) => push_value(alloc, &value, said),
        Err(_) => push_text(alloc, Weight::Fatal, "Invalid public key", said),
    }
}

/// Adds the messages of a key.
pub(crate) fn push_key(
    alloc: Global,
    key: &SubjectPublicKeyInfo<'_>,
    said: &mut Vec<Message>,
) -> Result<(), AllocError>
    ensures { OnOk result (map message_view said.new.items ≡ map message_view said.old.items ++ key_messages (key_view key.now)) }
{
    push_parsed(alloc, key, key.subject_public_key.content, said)
}

/// The messages of a key are those of its parsed value, or that there is none. A law: the function
/// has no effect.
pub fn messages_of_key(key: &SubjectPublicKeyInfo<'_>, octets: &[u8])
    requires { octets.now ≡ key.now.subject_public_key.content.now }
    ensures { AreKeyMessages (key_view key.now) (key_messages (key_view key.now)) }
{}

impl<'a> Validator<'a> for X509PublicKeyValidator {
    ghost use Rattle.x509_names.specs.View.{key_view};
    ghost use Rattle.x509_validate.specs.Keys.{key_messages};

    type Item = SubjectPublicKeyInfo<'a>;

    ghost messages = { λ v key. key_messages (key_view key) };

    #[tactic(auto, using(crate::proofs::Told::untold))]
    fn validate<L: Logger>(
        &self,
        alloc: Global,
        key: &SubjectPublicKeyInfo<'a>,
        l: &mut L,
    ) -> Result<bool, LogError> {
        let mut said = Vec::new(alloc);
        match push_key(alloc, key, &mut said) {
            Ok(()) => log_all(&said, l),
            Err(_) => Err(LogError::OutOfMemory),
        }
    }
}
