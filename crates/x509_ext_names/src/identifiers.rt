//! An authorityKeyIdentifier: which key of the issuer signed (RFC 5280, 4.2.1.1).

ghost use Rattle.std.specs.Prelude.{◌≡◌, ◌<◌, ℕ, List, length, IfOk, IfErr};
ghost use Rattle.asn1_any.specs.CutViews.{piece_of};
ghost use Rattle.asn1_any.specs.Views.{any_of};
ghost use Rattle.asn1_traits.specs.Elements.{EndsWithinElement};
ghost use Rattle.asn1_traits.specs.Reads.{Reads};
ghost use Rattle.x509_core.specs.Answers.{Gives, ElseMemory};
ghost use Rattle.x509_core.specs.Errors.{told};
ghost use Rattle.x509_core.specs.Fronts.{TakesNoMemory, TellsMissing, one_rest};
ghost use Rattle.std.specs.Prelude.{map, option_map, Ok};
ghost use Rattle.x509_core.specs.Grammar.{Holds};
ghost use Rattle.x509_ext_flags.specs.View.{key_identifier_view};
ghost use Rattle.x509_items.specs.Reading.{maybe_of};
ghost use Rattle.x509_ext_names.specs.Extensions as grammar;
ghost use Rattle.x509_ext_names.specs.Reading.{tagged_at, serial_at, authority_key_parts_at, authority_key_in, authority_key_at};
ghost use Rattle.x509_ext_names.specs.Values as values;
ghost use Rattle.x509_ext_names.specs.View.{IsCountedIdentifier, authority_key_view};

use crate::alternative::next_many_names;
use crate::general_name::GeneralName;
use asn1_any::Element;
use asn1_core::{Err as Refusal, HeaderCount, OutOfMemory};
use asn1_traits::{DerMeaning, FromDer, check_shortest};
use std::alloc::Global;
use x509_core::{X509Error, X509Result, front_element, leaf_of};
use x509_ext_flags::KeyIdentifier;
use x509_items::{content_of, copy_some, optional};

/// An authorityKeyIdentifier: which key of the issuer signed (RFC 5280, 4.2.1.1).
#[derive(Debug, Drop, PartialEq, Eq)]
pub struct AuthorityKeyIdentifier<'a> {
    /// The identifier of the issuer's key.
    pub key_identifier: Option<KeyIdentifier<'a>>,
    /// The names of the issuer of the key's certificate.
    pub authority_cert_issuer: Option<Vec<GeneralName<'a>>>,
    /// The serial number of the key's certificate: the content octets of an INTEGER.
    pub authority_cert_serial: Option<&'a [u8]>,
}

impl<'a> AuthorityKeyIdentifier<'a> {
    /// A copy that borrows the same octets as the value.
    ///
    /// # Errors
    ///
    /// Out of memory.
    pub fn clone(&self, alloc: Global) -> Result<AuthorityKeyIdentifier<'a>, OutOfMemory>
        ensures { IfOk result (λ copy. authority_key_view copy ≡ authority_key_view self.now) }
    {
        let key_identifier = match &self.key_identifier {
            Some(key) => Some(KeyIdentifier(key.0)),
            None => None,
        };
        let authority_cert_issuer = copy_some(alloc, &self.authority_cert_issuer)?;
        Ok(AuthorityKeyIdentifier {
            key_identifier,
            authority_cert_issuer,
            authority_cert_serial: self.authority_cert_serial,
        })
    }
}

fn key_at_front<'a>(i: &'a [u8]) -> X509Result<'a, KeyIdentifier<'a>>
    ensures { Gives (λ r. (key_identifier_view r.1, r.0.now)) result (tagged_at 0 i.now) }
{
    let mut count = HeaderCount::new();
    let (rest, element) = front_element(i, &mut count)?;
    let content = content_of(0, element.any)?;
    Ok((rest, KeyIdentifier(content)))
}

fn next_key<'a>(i: &'a [u8]) -> X509Result<'a, Option<KeyIdentifier<'a>>>
    ensures { Gives (λ r. (option_map key_identifier_view r.1, r.0.now)) result (Ok (maybe_of (tagged_at 0) i.now)) }
{
    optional(i, key_at_front(i))
}

// The content of an INTEGER, in the fewest octets.
fn serial_at_front<'a>(i: &'a [u8]) -> X509Result<'a, &'a [u8]>
    ensures { Gives (λ r. (r.1.now, r.0.now)) result (serial_at i.now) }
{
    let mut count = HeaderCount::new();
    let (rest, element) = front_element(i, &mut count)?;
    let content = leaf_of(2, element.any)?;
    match check_shortest(content) {
        Ok(()) => Ok((rest, content)),
        Err(e) => Err(Refusal::Error(X509Error::Der(e))),
    }
}

fn next_serial<'a>(i: &'a [u8]) -> X509Result<'a, Option<&'a [u8]>>
    ensures { Gives (λ r. (option_map (λ c. c.now) r.1, r.0.now)) result (Ok (maybe_of serial_at i.now)) }
{
    optional(i, serial_at_front(i))
}

#[tactic(auto, unfolding(crate::specs::Reading::authority_key_parts_at))]
fn authority_key_parts<'a>(alloc: Global, i: &'a [u8]) -> X509Result<'a, AuthorityKeyIdentifier<'a>>
    ensures read { Gives (λ r. (authority_key_view r.1, r.0.now)) result (authority_key_parts_at i.now) }
    ensures counted { IfOk result (λ r. IsCountedIdentifier r.1) }
{
    let (i, key_identifier) = next_key(i)?;
    let (i, authority_cert_issuer) = next_many_names(alloc, 1, i)?;
    let (i, authority_cert_serial) = next_serial(i)?;
    Ok((
        i,
        AuthorityKeyIdentifier {
            key_identifier,
            authority_cert_issuer,
            authority_cert_serial,
        },
    ))
}

fn authority_key_of<'a>(
    alloc: Global,
    element: Element<'a>,
) -> Result<AuthorityKeyIdentifier<'a>, Refusal<X509Error>>
    ensures read { Gives authority_key_view result (authority_key_in (piece_of element.entry)) }
    ensures counted { IfOk result IsCountedIdentifier }
{
    let content = content_of(16, element.any)?;
    let (_, value) = authority_key_parts(alloc, content)?;
    Ok(value)
}

impl<'b> DerMeaning for AuthorityKeyIdentifier<'b> {
    ghost der_reads = { λ i v r. grammar.AuthorityKeyIdentifier i (authority_key_view v) r };

    ghost der_cut = { EndsWithinElement };

    ghost der_grows = { Unit {0} };

    ghost one_rest = { λ i v w r s left right. one_rest (Holds 16 grammar.AuthorityKeyIdentifierParts) i (authority_key_view v) (authority_key_view w) r s left right };
}

impl<'a> FromDer<'a, X509Error> for AuthorityKeyIdentifier<'a> {
    /// Reads one authorityKeyIdentifier from the front of `bytes`. Returns `(rest, identifier)`. A
    /// malformed field counts as absent, and so do the fields after it.
    ///
    /// # Errors
    ///
    /// `Incomplete` if `bytes` ends inside the element; an `Error` if it isn't a SEQUENCE; out of
    /// memory.
    fn from_der(alloc: Global, bytes: &'a [u8]) -> X509Result<'a, AuthorityKeyIdentifier<'a>>
        ensures reads { Reads (λ given e. e ≡ told given) (Unit {0}) EndsWithinElement (λ i. i.now)
            (λ i v r. grammar.AuthorityKeyIdentifier i (authority_key_view v) r) bytes.now result }
        ensures exact { Gives (λ r. (authority_key_view r.1, r.0.now)) result (authority_key_at bytes.now) }
        ensures found { IfOk result (λ r. grammar.AuthorityKeyIdentifier bytes.now (authority_key_view r.1) r.0.now) }
        ensures only { (v : values.AuthorityKeyIdentifier) (rest : List ℕ) → grammar.AuthorityKeyIdentifier bytes.now v rest
            → ElseMemory result (λ r. (authority_key_view r.1 ≡ v) × (r.0.now ≡ rest)) }
        ensures counted { IfOk result (λ r. IsCountedIdentifier r.1) }
    {
        authority_key_at_front(alloc, bytes)
    }
}

fn authority_key_at_front<'a>(
    alloc: Global,
    i: &'a [u8],
) -> X509Result<'a, AuthorityKeyIdentifier<'a>>
    ensures exact { Gives (λ r. (authority_key_view r.1, r.0.now)) result (authority_key_at i.now) }
    ensures counted { IfOk result (λ r. IsCountedIdentifier r.1) }
    ensures missing { TellsMissing i.now result }
    ensures shorter { IfOk result (λ r. length r.0.now < length i.now) }
{
    let mut count = HeaderCount::new();
    let (rest, element) = front_element(i, &mut count)?;
    match authority_key_of(alloc, element) {
        Ok(value) => Ok((rest, value)),
        Err(refusal) => Err(Refusal::within(refusal)),
    }
}
