//! Readers of requests, their signed parts, attributes and extension requests.

ghost use Rattle.std.specs.Prelude.{◌≡◌, ◌++◌, ℕ, List, map, All, IfOk, IfErr};
ghost use Rattle.asn1_traits.specs.Elements.{EndsWithinElement, one_ber_element_rest};
ghost use Rattle.asn1_traits.specs.Reads.{Reads};
ghost use Rattle.x509_core.specs.Answers.{Gives, ElseMemory};
ghost use Rattle.x509_core.specs.Errors.{told};
ghost use Rattle.x509_core.specs.Grammar.{Holds, HoldsWindow, HoldsWhole, ToEnd};
ghost use Rattle.x509_core.specs.declared.error.X509Error.TheVariants as errors;
ghost use Rattle.x509_names.specs.Fronts.{TellsMissing, one_rest};
ghost use Rattle.x509_ext.specs.Values.{IsParsed, deeply};
ghost use Rattle.x509_ext.specs.Extensions as extensions;
ghost use Rattle.x509_ext.specs.Fields.{Extension};
ghost use Rattle.x509_ext.specs.Fronts.{IsOnly};
ghost use Rattle.x509_ext.specs.View.{extension_view, IsCountedExtension, WantsNoMemory};
ghost use Rattle.x509_requests.specs.Requests as grammar;
ghost use Rattle.x509_requests.specs.Fields.{RequestAttribute, RequestInfo, Request};
ghost use Rattle.x509_requests.specs.Reading.{requested_at, named_attribute_at, info_at, request_at};
ghost use Rattle.x509_requests.specs.View.{attribute_view, info_view, request_view, AttributeWantsNoMemory, AttributesWantNoMemory, IsCountedAttribute, IsCountedInfo, IsCountedRequest};

use crate::attribute::{ExtensionRequest, X509CriAttribute};
use crate::attributes::front_attribute;
use crate::info::{X509CertificationRequestInfo, info_of};
use crate::request::{X509CertificationRequest, request_of};
use asn1_core::{Err as Refusal, HeaderCount};
use asn1_traits::{DerMeaning, FromDer};
use std::alloc::Global;
use x509_core::{X509Error, X509Result, renamed};
use x509_ext::extension_list_of;
use x509_names::whole_element;

impl<'b> DerMeaning for X509CertificationRequest<'b> {
    ghost der_reads = { λ i v r. grammar.X509CertificationRequest IsParsed i (request_view v) r };

    ghost der_cut = { EndsWithinElement };

    ghost der_grows = { Unit {0} };

    ghost one_rest = { λ i v w r s left right. one_rest (HoldsWhole 16 (grammar.RequestParts IsParsed) (λ q. q.raw)) i (request_view v) (request_view w) r s left right };
}

impl<'a> FromDer<'a, X509Error> for X509CertificationRequest<'a> {
    /// Reads one request from the front of `bytes` (RFC 2986, 4.2). Returns `(rest, request)`. A
    /// known extension whose value is malformed becomes `ParsedExtension::ParseError`; the request
    /// is still read.
    ///
    /// # Errors
    ///
    /// `Incomplete` exactly if `bytes` ends inside the request. Else the error of the first field
    /// that is wrong: `InvalidVersion`; `InvalidSPKI` for a key without bits;
    /// `InvalidAlgorithmIdentifier` for an algorithm without an identifier; `InvalidAttributes`
    /// without a context-specific header of tag number 0; `InvalidSignatureValue`. Out of memory,
    /// also while a value is parsed, is a `Failure`.
    fn from_der(alloc: Global, bytes: &'a [u8]) -> X509Result<'a, X509CertificationRequest<'a>>
        ensures reads { Reads (λ given e. e ≡ told given) (Unit {0}) EndsWithinElement (λ i. i.now)
            (λ i v r. grammar.X509CertificationRequest IsParsed i (request_view v) r) bytes.now result }
        ensures exact { Gives (λ r. (request_view r.1, r.0.now)) result (request_at deeply bytes.now) }
        ensures memory { IfOk result (λ r. AttributesWantNoMemory r.1.certification_request_info) }
        ensures counted { IfOk result (λ r. IsCountedRequest r.1) }
        ensures window { IfOk result (λ r. bytes.now ≡ r.1.raw.now ++ r.0.now) }
        ensures found { IfOk result (λ r. grammar.X509CertificationRequest IsParsed bytes.now (request_view r.1) r.0.now) }
        ensures only { (v : Request) (rest : List ℕ) → grammar.X509CertificationRequest IsParsed bytes.now v rest
            → ElseMemory result (λ r. (request_view r.1 ≡ v) × (r.0.now ≡ rest)) }
    {
        request_at_front(alloc, bytes)
    }
}

impl<'b> DerMeaning for X509CertificationRequestInfo<'b> {
    ghost der_reads = { λ i v r. grammar.X509CertificationRequestInfo IsParsed i (info_view v) r };

    ghost der_cut = { EndsWithinElement };

    ghost der_grows = { Unit {0} };

    ghost one_rest = { λ i v w r s left right. one_rest (HoldsWindow 16 (grammar.InfoParts IsParsed) (λ q. q.raw)) i (info_view v) (info_view w) r s left right };
}

impl<'a> FromDer<'a, X509Error> for X509CertificationRequestInfo<'a> {
    /// Reads one CertificationRequestInfo from the front of `bytes` (RFC 2986, 4.1). Returns
    /// `(rest, info)`.
    ///
    /// # Errors
    ///
    /// The errors that `X509CertificationRequest::from_der` has for this part.
    fn from_der(alloc: Global, bytes: &'a [u8]) -> X509Result<'a, X509CertificationRequestInfo<'a>>
        ensures reads { Reads (λ given e. e ≡ told given) (Unit {0}) EndsWithinElement (λ i. i.now)
            (λ i v r. grammar.X509CertificationRequestInfo IsParsed i (info_view v) r) bytes.now result }
        ensures exact { Gives (λ r. (info_view r.1, r.0.now)) result (info_at deeply bytes.now) }
        ensures memory { IfOk result (λ r. AttributesWantNoMemory r.1) }
        ensures counted { IfOk result (λ r. IsCountedInfo r.1) }
        ensures window { IfOk result (λ r. bytes.now ≡ r.1.raw.now ++ r.0.now) }
        ensures found { IfOk result (λ r. grammar.X509CertificationRequestInfo IsParsed bytes.now (info_view r.1) r.0.now) }
        ensures only { (v : RequestInfo) (rest : List ℕ) → grammar.X509CertificationRequestInfo IsParsed bytes.now v rest
            → ElseMemory result (λ r. (info_view r.1 ≡ v) × (r.0.now ≡ rest)) }
    {
        info_at_front(alloc, bytes)
    }
}

impl<'b> DerMeaning for X509CriAttribute<'b> {
    ghost der_reads = { λ i v r. grammar.X509CriAttribute IsParsed i (attribute_view v) r };

    ghost der_cut = { λ _ _. ⊥ };

    ghost der_grows = { Unit {0} };

    ghost one_rest = { λ i v w r s left right. one_ber_element_rest (grammar.IsAttribute IsParsed) i (attribute_view v) (attribute_view w) r s left right };
}

impl<'a> FromDer<'a, X509Error> for X509CriAttribute<'a> {
    /// Reads one attribute in BER from the front of `bytes`. Returns `(rest, attribute)`.
    ///
    /// # Errors
    ///
    /// `InvalidAttributes` for everything else, also if `bytes` ends inside the attribute; out of
    /// memory.
    fn from_der(alloc: Global, bytes: &'a [u8]) -> X509Result<'a, X509CriAttribute<'a>>
        ensures reads { Reads (λ given e. e ≡ told given) (Unit {0}) (λ _ _. ⊥) (λ i. i.now)
            (λ i v r. grammar.X509CriAttribute IsParsed i (attribute_view v) r) bytes.now result }
        ensures exact { Gives (λ r. (attribute_view r.1, r.0.now)) result (named_attribute_at deeply bytes.now) }
        ensures counted { IfOk result (λ r. IsCountedAttribute r.1) }
        ensures memory { IfOk result (λ r. AttributeWantsNoMemory r.1) }
        ensures refused { IfErr result (IsOnly errors.InvalidAttributes) }
        ensures found { IfOk result (λ r. grammar.X509CriAttribute IsParsed bytes.now (attribute_view r.1) r.0.now) }
        ensures only { (v : RequestAttribute) (rest : List ℕ) → grammar.X509CriAttribute IsParsed bytes.now v rest
            → ElseMemory result (λ r. (attribute_view r.1 ≡ v) × (r.0.now ≡ rest)) }
    {
        attribute_at_front(alloc, bytes)
    }
}

impl<'b> DerMeaning for ExtensionRequest<'b> {
    ghost der_reads = { λ i v r. grammar.ExtensionRequest IsParsed i (map extension_view v.extensions.items) r };

    ghost der_cut = { EndsWithinElement };

    ghost der_grows = { Unit {0} };

    ghost one_rest = { λ i v w r s left right. one_rest (Holds 16 (ToEnd (extensions.X509Extension IsParsed))) i (map extension_view v.extensions.items) (map extension_view w.extensions.items) r s left right };
}

impl<'a> FromDer<'a, X509Error> for ExtensionRequest<'a> {
    /// Reads one SEQUENCE of extensions from the front of `bytes`. Returns `(rest, request)`.
    ///
    /// # Errors
    ///
    /// `InvalidExtensions` or an element's error for everything else; out of memory.
    fn from_der(alloc: Global, bytes: &'a [u8]) -> X509Result<'a, ExtensionRequest<'a>>
        ensures reads { Reads (λ given e. e ≡ told given) (Unit {0}) EndsWithinElement (λ i. i.now)
            (λ i v r. grammar.ExtensionRequest IsParsed i (map extension_view v.extensions.items) r) bytes.now result }
        ensures exact { Gives (λ r. (map extension_view r.1.extensions.items, r.0.now)) result (requested_at deeply bytes.now) }
        ensures counted { IfOk result (λ r. All IsCountedExtension r.1.extensions.items) }
        ensures memory { IfOk result (λ r. All WantsNoMemory r.1.extensions.items) }
        ensures found { IfOk result (λ r. grammar.ExtensionRequest IsParsed bytes.now (map extension_view r.1.extensions.items) r.0.now) }
        ensures only { (v : List Extension) (rest : List ℕ) → grammar.ExtensionRequest IsParsed bytes.now v rest
            → ElseMemory result (λ r. (map extension_view r.1.extensions.items ≡ v) × (r.0.now ≡ rest)) }
    {
        extensions_at_front(alloc, bytes)
    }
}

fn request_at_front<'a>(alloc: Global, i: &'a [u8]) -> X509Result<'a, X509CertificationRequest<'a>>
    ensures exact { Gives (λ r. (request_view r.1, r.0.now)) result (request_at deeply i.now) }
    ensures memory { IfOk result (λ r. AttributesWantNoMemory r.1.certification_request_info) }
    ensures counted { IfOk result (λ r. IsCountedRequest r.1) }
    ensures missing { TellsMissing i.now result }
{
    let mut count = HeaderCount::new();
    let (rest, element) = whole_element(i, &mut count)?;
    match request_of(alloc, element) {
        Ok(request) => Ok((rest, request)),
        Err(refusal) => Err(Refusal::within(refusal)),
    }
}

fn info_at_front<'a>(alloc: Global, i: &'a [u8]) -> X509Result<'a, X509CertificationRequestInfo<'a>>
    ensures exact { Gives (λ r. (info_view r.1, r.0.now)) result (info_at deeply i.now) }
    ensures memory { IfOk result (λ r. AttributesWantNoMemory r.1) }
    ensures counted { IfOk result (λ r. IsCountedInfo r.1) }
    ensures missing { TellsMissing i.now result }
{
    let mut count = HeaderCount::new();
    let (rest, element) = whole_element(i, &mut count)?;
    match info_of(alloc, element) {
        Ok(info) => Ok((rest, info)),
        Err(refusal) => Err(Refusal::within(refusal)),
    }
}

fn attribute_at_front<'a>(alloc: Global, i: &'a [u8]) -> X509Result<'a, X509CriAttribute<'a>>
    ensures exact { Gives (λ r. (attribute_view r.1, r.0.now)) result (named_attribute_at deeply i.now) }
    ensures counted { IfOk result (λ r. IsCountedAttribute r.1) }
    ensures memory { IfOk result (λ r. AttributeWantsNoMemory r.1) }
    ensures refused { IfErr result (IsOnly errors.InvalidAttributes) }
{
    match front_attribute(alloc, i) {
        Ok((rest, attribute)) => Ok((rest, attribute)),
        Err(refusal) => Err(renamed(refusal, X509Error::InvalidAttributes)),
    }
}

fn extensions_at_front<'a>(alloc: Global, i: &'a [u8]) -> X509Result<'a, ExtensionRequest<'a>>
    ensures exact { Gives (λ r. (map extension_view r.1.extensions.items, r.0.now)) result (requested_at deeply i.now) }
    ensures counted { IfOk result (λ r. All IsCountedExtension r.1.extensions.items) }
    ensures memory { IfOk result (λ r. All WantsNoMemory r.1.extensions.items) }
    ensures missing { TellsMissing i.now result }
{
    let mut count = HeaderCount::new();
    let (rest, element) = whole_element(i, &mut count)?;
    match extension_list_of(alloc, element, true, &mut count) {
        Ok(extensions) => Ok((rest, ExtensionRequest { extensions })),
        Err(refusal) => Err(Refusal::within(refusal)),
    }
}
