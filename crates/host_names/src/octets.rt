//! Octets of texts.

ghost use Rattle.std.specs.Prelude.{◌≡◌, ◌==◌, ◌&&◌, ◌||◌, count_by};
ghost use Rattle.std.specs.List.{list_any, list_all};
ghost use Rattle.host_names.specs.Hosts.{is_name_octet};
ghost use Rattle.host_names.specs.HostNames.{has, last_part, is_number, without_dot};
ghost use Rattle.host_names.specs.Refusals.{has_port, is_some_number, is_far, is_strange, begins_with, ends_in};

pub(crate) fn is_name_octet(octet: u8) -> bool
    ensures { result ≡ is_name_octet octet }
{
    octet.is_ascii_alphanumeric() || (octet == b'-' || octet == b'_')
}

pub(crate) fn has(text: &[u8], octet: u8) -> bool
    ensures { result ≡ has octet text.now }
{
    for one in text {
        if *one == octet {
            return true;
        }
    }
    false
}

/// Returns whether an octet is outside ASCII.
pub(crate) fn has_far(text: &[u8]) -> bool
    ensures { result ≡ list_any is_far text.now }
{
    for one in text {
        if *one > 127 {
            return true;
        }
    }
    false
}

fn is_strange(octet: u8) -> bool
    ensures { result ≡ is_strange octet }
{
    !(is_name_octet(octet) || octet == b'.')
}

/// Returns whether an octet is in no name of a host.
pub(crate) fn has_strange(text: &[u8]) -> bool
    ensures { result ≡ list_any is_strange text.now }
{
    for one in text {
        if is_strange(*one) {
            return true;
        }
    }
    false
}

pub(crate) fn is_number(text: &[u8]) -> bool
    ensures { result ≡ is_number text.now }
{
    for one in text {
        if !one.is_ascii_digit() {
            return false;
        }
    }
    true
}

/// What follows the last separator.
#[tactic(auto, using(crate::proofs::LastFacts::settled_at, crate::proofs::LastFacts::settled_all))]
pub(crate) fn last_part(text: &[u8], separator: u8) -> &[u8]
    ensures { result.now ≡ last_part separator text.now }
{
    let mut last = text;
    for (place, octet) in text.iter().enumerate() {
        if *octet == separator {
            last = &text[place + 1..];
        }
    }
    last
}

fn is_some_number(text: &[u8]) -> bool
    ensures { result ≡ is_some_number text.now }
{
    !text.is_empty() && is_number(text)
}

fn count(text: &[u8], octet: u8) -> usize
    ensures { result ≡ count_by (λ x. x == octet) text.now }
{
    text.iter().filter(|one| **one == octet).count()
}

/// Whether a port follows the last colon.
pub(crate) fn has_port(text: &[u8]) -> bool
    ensures { result ≡ has_port text.now }
{
    has(text, b':')
        && (is_some_number(last_part(text, b':')) && (count(text, b':') < 2 || has(text, b']')))
}

pub(crate) fn begins_with(text: &[u8], octet: u8) -> bool
    ensures { result ≡ begins_with octet text.now }
{
    match text {
        [first, ..] => *first == octet,
        _ => false,
    }
}

pub(crate) fn ends_in(text: &[u8], octet: u8) -> bool
    ensures { result ≡ ends_in octet text.now }
{
    match text {
        [.., last] => *last == octet,
        _ => false,
    }
}

/// A text without its final dot.
#[tactic(auto, using(crate::proofs::EndFacts::some_end, crate::proofs::EndFacts::dotted, crate::proofs::EndFacts::undotted))]
pub(crate) fn without_dot(text: &[u8]) -> &[u8]
    ensures { result.now ≡ without_dot text.now }
{
    if ends_in(text, b'.') {
        &text[..text.len() - 1]
    } else {
        text
    }
}
