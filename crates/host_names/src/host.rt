//! Hosts as they are asked for.

ghost use Rattle.std.specs.Prelude.{◌≡◌, ◌∷◌, ◌++◌, [], ℕ, List, IfSome, IsSomeAnd, MatchOption, MatchResult};
ghost use Rattle.host_names.specs.Addresses.{IsAddressText, IsNoAddress};
ghost use Rattle.host_names.specs.Asked.{AsksFor};
ghost use Rattle.host_names.specs.Refusals.{IsRefusedFor};

use crate::octets::{ends_in, without_dot};
use crate::reasons::refusal_of;
use crate::refusal::Refusal;
use std::net::{IpAddr, Ipv6Addr};

/// A host whose certificate is asked for: a name of the DNS, in ASCII and without a final dot, or
/// an address (RFC 9525, 6.1).
#[derive(Clone, Copy, Debug)]
pub enum Host<'a> {
    Name(&'a [u8]),
    Address(IpAddr),
}

/// What follows an opening bracket.
fn behind_bracket(text: &[u8]) -> Option<&[u8]>
    ensures found { IfSome result (λ r. text.now ≡ 91 ∷ r.now) }
    ensures only { (rest : List ℕ) → text.now ≡ 91 ∷ rest → IsSomeAnd result (λ r. r.now ≡ rest) }
{
    match text {
        [b'[', rest @ ..] => Some(rest),
        _ => None,
    }
}

/// What is before a closing bracket at the end.
#[tactic(auto, using(crate::proofs::EndFacts::some_end, crate::proofs::EndFacts::before_end))]
fn before_bracket(text: &[u8]) -> Option<&[u8]>
    ensures found { IfSome result (λ r. text.now ≡ r.now ++ 93 ∷ []) }
    ensures only { (front : List ℕ) → text.now ≡ front ++ 93 ∷ [] → IsSomeAnd result (λ r. r.now ≡ front) }
{
    if ends_in(text, b']') {
        Some(&text[..text.len() - 1])
    } else {
        None
    }
}

/// What is between brackets.
fn in_brackets(text: &[u8]) -> Option<&[u8]>
    ensures found { IfSome result (λ r. text.now ≡ 91 ∷ (r.now ++ 93 ∷ [])) }
    ensures only { (inner : List ℕ) → text.now ≡ 91 ∷ (inner ++ 93 ∷ []) → IsSomeAnd result (λ r. r.now ≡ inner) }
{
    let rest = behind_bracket(text)?;
    before_bracket(rest)
}

/// The address that a text writes.
fn address_of(text: &[u8]) -> Option<IpAddr>
    ensures { MatchOption result (IsNoAddress text.now) (IsAddressText text.now) }
{
    if let Ok(address) = IpAddr::parse_ascii(text) {
        return Some(address);
    }
    let inner = in_brackets(text)?;
    match Ipv6Addr::parse_ascii(inner) {
        Ok(address) => Some(IpAddr::V6(address)),
        Err(_) => None,
    }
}

impl<'a> Host<'a> {
    /// Returns the host that a text in ASCII asks for: an IPv4 address of four decimal octets, an
    /// IPv6 address (RFC 4291, 2.2) with or without brackets, or else a name of at most 253 octets
    /// with labels of 1 to 63 letters, digits, hyphens and underscores, of which none begins or
    /// ends with a hyphen and the last isn't a number. One final dot is removed from a name. A
    /// wildcard is no host. Linear time, no memory.
    ///
    /// # Errors
    ///
    /// For any other text the first reason that applies, in the order of `Refusal`.
    pub fn parse(text: &'a [u8]) -> Result<Host<'a>, Refusal>
        ensures { MatchResult result (AsksFor text.now) (IsRefusedFor text.now) }
    {
        if let Some(address) = address_of(text) {
            return Ok(Host::Address(address));
        }
        let name = without_dot(text);
        match refusal_of(name) {
            Some(refusal) => Err(refusal),
            None => Ok(Host::Name(name)),
        }
    }
}
