//! Why a text is no host: the first reason that applies.

ghost use Rattle.std.specs.Prelude.{◌≡◌};
ghost use Rattle.host_names.specs.Refusals.{refusal_of, refusal_of_colons, refusal_of_octets, refusal_of_labels};

use crate::labels::{Fault, some_label_has};
use crate::octets::{has, has_far, has_port, has_strange, is_number, last_part};
use crate::refusal::Refusal;

/// The most octets of a name, without its final dot (RFC 1035, 2.3.4).
const LONGEST_NAME: usize = 253;

fn refusal_of_labels(name: &[u8]) -> Option<Refusal>
    ensures { result ≡ refusal_of_labels name.now }
{
    if some_label_has(Fault::NoOctet, name) {
        Some(Refusal::EmptyLabel)
    } else if some_label_has(Fault::TooLong, name) {
        Some(Refusal::LongLabel)
    } else if some_label_has(Fault::HyphenAtEnd, name) {
        Some(Refusal::Hyphen)
    } else if is_number(last_part(name, b'.')) {
        Some(Refusal::Number)
    } else {
        None
    }
}

fn refusal_of_octets(name: &[u8]) -> Option<Refusal>
    ensures { result ≡ refusal_of_octets name.now }
{
    if has_far(name) {
        Some(Refusal::NotAscii)
    } else if has_strange(name) {
        Some(Refusal::Character)
    } else if name.len() > LONGEST_NAME {
        Some(Refusal::LongName)
    } else {
        refusal_of_labels(name)
    }
}

fn refusal_of_colons(name: &[u8]) -> Option<Refusal>
    ensures { result ≡ refusal_of_colons name.now }
{
    if has(name, b':') && has(name, b'%') {
        Some(Refusal::Zone)
    } else if has_port(name) {
        Some(Refusal::Port)
    } else if has(name, b':') || (has(name, b'[') || has(name, b']')) {
        Some(Refusal::NoAddress)
    } else {
        refusal_of_octets(name)
    }
}

/// The first reason that applies to a text without its final dot.
pub(crate) fn refusal_of(name: &[u8]) -> Option<Refusal>
    ensures { result ≡ refusal_of name.now }
{
    if name.is_empty() {
        Some(Refusal::Empty)
    } else if has(name, b'/') {
        Some(Refusal::Url)
    } else if has(name, b'@') {
        Some(Refusal::EmailAddress)
    } else if has(name, b'*') {
        Some(Refusal::Wildcard)
    } else {
        refusal_of_colons(name)
    }
}
