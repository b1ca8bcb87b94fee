//! Parsing the values of an attribute by its type (RFC 2985, 5.4).

ghost use Rattle.std.specs.Prelude.{◌≡◌, ◌≤◌, length, All, IfOk, map, string_bytes};
ghost use Rattle.asn1_any.specs.Views.{any_of};
ghost use Rattle.x509_core.specs.Answers.{Gives};
ghost use Rattle.x509_ext.specs.Values.{deeply};
ghost use Rattle.x509_ext.specs.View.{extension_view, IsCountedExtension, WantsNoMemory};
ghost use Rattle.x509_requests.specs.Reading.{requested_at, password_in, password_at, values_at};
ghost use Rattle.x509_requests.specs.View.{values_view, HasCountedRequest, ValuesWantNoMemory};

use crate::attribute::{ChallengePassword, ExtensionRequest, ParsedCriAttribute};
use asn1_any::Any;
use asn1_core::{Err as Refusal, Error, HeaderCount, Tag};
use asn1_oid::Oid;
use asn1_strings::{PrintableString, Utf8String};
use asn1_traits::FromLeaf;
use std::alloc::Global;
use x509_core::{X509Error, X509Result, front_element};
use x509_ext::extension_list_of;

/// extensionRequest, 1.2.840.113549.1.9.14.
const EXTENSION_REQUEST: &[u8] = b"\x2a\x86\x48\x86\xf7\x0d\x01\x09\x0e";

/// challengePassword, 1.2.840.113549.1.9.7.
const CHALLENGE_PASSWORD: &[u8] = b"\x2a\x86\x48\x86\xf7\x0d\x01\x09\x07";

/// The text of a UTF8String or PrintableString.
#[tactic(auto, unfolding(crate::specs::Reading::password_in))]
fn text_of<'a>(alloc: Global, any: Any<'a>) -> Result<&'a str, Refusal<X509Error>>
    ensures read { Gives (λ text. text.now) result (password_in (any_of any.entry)) }
{
    if any.header.is_constructed() {
        return Err(Refusal::Error(X509Error::Der(Error::ConstructUnexpected)));
    }
    if any.tag().0 == Tag::Utf8String.0 {
        return match Utf8String::from_content(alloc, any.content) {
            Ok(string) => Ok(string.text),
            Err(e) => Err(Refusal::Error(X509Error::Der(e))),
        };
    }
    if any.tag().0 == Tag::PrintableString.0 {
        return match PrintableString::from_content(alloc, any.content) {
            Ok(string) => Ok(string.text),
            Err(e) => Err(Refusal::Error(X509Error::Der(e))),
        };
    }
    Err(Refusal::Error(X509Error::Der(Error::InvalidTag)))
}

/// Reads a challenge password from the front. Returns `(rest, password)`.
fn front_password<'a>(alloc: Global, i: &'a [u8]) -> X509Result<'a, ChallengePassword>
    ensures read { Gives (λ r. (string_bytes r.1.0, r.0.now)) result (password_at i.now) }
    ensures shorter { IfOk result (λ r. length r.0.now ≤ length i.now) }
{
    let mut count = HeaderCount::new();
    let (rest, element) = front_element(i, &mut count)?;
    let text = text_of(alloc, element.any)?;
    match String::from_str(alloc, text) {
        Ok(text) => Ok((rest, ChallengePassword(text))),
        Err(e) => Err(Refusal::Failure(X509Error::from(e))),
    }
}

/// Reads an extension request from the front. Returns `(rest, request)`.
fn front_request<'a>(alloc: Global, i: &'a [u8]) -> X509Result<'a, ExtensionRequest<'a>>
    ensures read { Gives (λ r. (map extension_view r.1.extensions.items, r.0.now)) result (requested_at deeply i.now) }
    ensures counted { IfOk result (λ r. All IsCountedExtension r.1.extensions.items) }
    ensures memory { IfOk result (λ r. All WantsNoMemory r.1.extensions.items) }
    ensures shorter { IfOk result (λ r. length r.0.now ≤ length i.now) }
{
    let mut count = HeaderCount::new();
    let (rest, element) = front_element(i, &mut count)?;
    let extensions = extension_list_of(alloc, element, true, &mut count)?;
    Ok((rest, ExtensionRequest { extensions }))
}

/// Reads the first value after the header of a SET. Returns `(rest, value)`.
#[tactic(auto, unfolding(crate::specs::Reading::values_at))]
pub(crate) fn values_of<'a>(
    alloc: Global,
    oid: &Oid<'_>,
    i: &'a [u8],
) -> X509Result<'a, ParsedCriAttribute<'a>>
    ensures read { Gives (λ r. (values_view r.1, r.0.now)) result (values_at deeply oid.now i.now) }
    ensures counted { IfOk result (λ r. HasCountedRequest r.1) }
    ensures memory { IfOk result (λ r. ValuesWantNoMemory r.1) }
    ensures shorter { IfOk result (λ r. length r.0.now ≤ length i.now) }
{
    if oid.as_bytes() == EXTENSION_REQUEST {
        let (rest, request) = front_request(alloc, i)?;
        return Ok((rest, ParsedCriAttribute::ExtensionRequest(request)));
    }
    if oid.as_bytes() == CHALLENGE_PASSWORD {
        let (rest, password) = front_password(alloc, i)?;
        return Ok((rest, ParsedCriAttribute::ChallengePassword(password)));
    }
    Ok((i, ParsedCriAttribute::UnsupportedAttribute))
}
