//! `GeneralName` (RFC 5280, 4.2.1.6).

ghost use Rattle.std.specs.Prelude.{◌≡◌, ◌<◌, ℕ, List, length, IfOk, IfErr};
ghost use Rattle.asn1_any.specs.CutViews.{HasOwnLength, piece_of};
ghost use Rattle.asn1_any.specs.Views.{any_of};
ghost use Rattle.asn1_traits.specs.Elements.{EndsWithinElement};
ghost use Rattle.asn1_traits.specs.Reads.{Reads};
ghost use Rattle.x509_core.specs.Answers.{Gives, ElseMemory};
ghost use Rattle.x509_core.specs.Errors.{told};
ghost use Rattle.x509_core.specs.Fronts.{TakesNoMemory, TellsMissing, one_rest};
ghost use Rattle.x509_ext_names.specs.Names.{IsGeneralName};
ghost use Rattle.x509_ext_names.specs.Names as grammar;
ghost use Rattle.x509_ext_names.specs.Reading.{other_name_in, text_name_in, directory_name_in, entry_in, general_name_of, general_name_at};
ghost use Rattle.x509_ext_names.specs.Values as values;
ghost use Rattle.x509_ext_names.specs.View.{IsCountedGeneralName, general_name_view};

use asn1_any::Any;
use asn1_core::{Err as Refusal, Error, HeaderCount, OutOfMemory, Tag};
use asn1_oid::Oid;
use asn1_traits::{DerMeaning, FromDer};
use std::alloc::Global;
use x509_core::{X509Error, X509Result, front_element};
use x509_ext_flags::X509Name;
use x509_items::{Begins, Copies, first_oid, is_of_class, taken, text_of};

/// A general name (RFC 5280, 4.2.1.6). Texts must be UTF-8; their form isn't checked.
#[derive(Debug, Drop, PartialEq, Eq)]
pub enum GeneralName<'a> {
    /// otherName: the identifier of the kind, and the octets after it.
    OtherName(Oid<'a>, &'a [u8]),
    /// rfc822Name: an electronic mail address.
    RFC822Name(&'a str),
    /// dNSName: the name of a host.
    DNSName(&'a str),
    /// x400Address or ediPartyName: an element that isn't parsed.
    X400Address(Any<'a>),
    /// directoryName: a distinguished name.
    DirectoryName(X509Name<'a>),
    /// x400Address or ediPartyName: an element that isn't parsed.
    EDIPartyName(Any<'a>),
    /// uniformResourceIdentifier: a URI.
    URI(&'a str),
    /// iPAddress: the octets of an address, or of an address and its mask.
    IPAddress(&'a [u8]),
    /// registeredID: an object identifier.
    RegisteredID(Oid<'a>),
    /// An element that is no such name, with its tag number and content.
    Invalid(Tag, &'a [u8]),
}

impl<'a> GeneralName<'a> {
    /// A copy that borrows the same octets as the name.
    ///
    /// # Errors
    ///
    /// Out of memory, for the copied vectors.
    #[tactic(auto, using(crate::proofs::CopiedNames::same_name))]
    pub fn clone(&self, alloc: Global) -> Result<GeneralName<'a>, OutOfMemory>
        ensures { IfOk result (λ copy. general_name_view copy ≡ general_name_view self.now) }
    {
        match self {
            GeneralName::OtherName(id, octets) => {
                Ok(GeneralName::OtherName(id.clone(alloc)?, *octets))
            }
            GeneralName::RFC822Name(text) => Ok(GeneralName::RFC822Name(*text)),
            GeneralName::DNSName(text) => Ok(GeneralName::DNSName(*text)),
            GeneralName::X400Address(any) => Ok(GeneralName::X400Address(*any)),
            GeneralName::DirectoryName(name) => Ok(GeneralName::DirectoryName(name.clone(alloc)?)),
            GeneralName::EDIPartyName(any) => Ok(GeneralName::EDIPartyName(*any)),
            GeneralName::URI(text) => Ok(GeneralName::URI(*text)),
            GeneralName::IPAddress(octets) => Ok(GeneralName::IPAddress(*octets)),
            GeneralName::RegisteredID(id) => Ok(GeneralName::RegisteredID(id.clone(alloc)?)),
            GeneralName::Invalid(tag, octets) => Ok(GeneralName::Invalid(*tag, *octets)),
        }
    }
}

impl<'a> Copies for GeneralName<'a> {
    ghost use Rattle.x509_ext_names.specs.Values as values;
    ghost use Rattle.x509_ext_names.specs.View.{general_name_view};

    ghost Value = { values.GeneralName };

    ghost value = { general_name_view };

    fn copy(&self, alloc: Global) -> Result<GeneralName<'a>, OutOfMemory> {
        self.clone(alloc)
    }
}

#[tactic(auto, unfolding(crate::specs::Reading::other_name_in))]
fn other_name<'a>(content: &'a [u8]) -> Result<GeneralName<'a>, Refusal<X509Error>>
    ensures read { Gives general_name_view result (other_name_in content.now) }
    ensures counted { IfOk result IsCountedGeneralName }
{
    let (left, id) = first_oid(content)?;
    Ok(GeneralName::OtherName(id, left))
}

// A text by the tag number of its kind.
#[tactic(auto, unfolding(crate::specs::Reading::text_name_in))]
fn text_name<'a>(tag: u32, content: &'a [u8]) -> Result<GeneralName<'a>, Refusal<X509Error>>
    ensures read { Gives general_name_view result (text_name_in tag content.now) }
    ensures counted { IfOk result IsCountedGeneralName }
{
    let text = text_of(content)?;
    if tag == 1 {
        Ok(GeneralName::RFC822Name(text))
    } else if tag == 2 {
        Ok(GeneralName::DNSName(text))
    } else {
        Ok(GeneralName::URI(text))
    }
}

// A name that is all of the content.
#[tactic(auto, unfolding(crate::specs::Reading::directory_name_in))]
fn directory_name<'a>(
    alloc: Global,
    content: &'a [u8],
) -> Result<GeneralName<'a>, Refusal<X509Error>>
    ensures read { Gives general_name_view result (directory_name_in content.now) }
    ensures counted { IfOk result IsCountedGeneralName }
{
    let (rest, name) = X509Name::from_der(alloc, content)?;
    if rest.is_empty() {
        Ok(GeneralName::DirectoryName(name))
    } else {
        Err(Refusal::Error(X509Error::Der(Error::InvalidLength)))
    }
}

#[tactic(auto, unfolding(crate::specs::Reading::entry_in))]
fn entry_of<'a>(alloc: Global, any: Any<'a>) -> Result<GeneralName<'a>, Refusal<X509Error>>
    ensures read { Gives general_name_view result (entry_in (any_of any.entry)) }
    ensures counted { HasOwnLength any.entry → IfOk result IsCountedGeneralName }
{
    let content = any.content;
    match any.tag().0 {
        0 => other_name(content),
        1 => text_name(1, content),
        2 => text_name(2, content),
        3 => Ok(GeneralName::X400Address(any)),
        4 => directory_name(alloc, content),
        5 => Ok(GeneralName::EDIPartyName(any)),
        6 => text_name(6, content),
        7 => Ok(GeneralName::IPAddress(content)),
        8 => Ok(GeneralName::RegisteredID(Oid::new(content))),
        _ => Err(Refusal::Error(X509Error::Der(Error::InvalidTag))),
    }
}

// The name that an element of the context class is, or that it is none.
fn name_of<'a>(alloc: Global, any: Any<'a>) -> Result<GeneralName<'a>, Refusal<X509Error>>
    ensures read { Gives general_name_view result (general_name_of (any_of any.entry)) }
    ensures counted { HasOwnLength any.entry → IfOk result IsCountedGeneralName }
{
    if !is_of_class(any.class(), 2) {
        return Err(Refusal::Error(X509Error::Der(Error::InvalidTag)));
    }
    match entry_of(alloc, any) {
        Ok(name) => Ok(name),
        Err(refusal) => match refusal {
            Refusal::Failure(e) => Err(Refusal::Failure(e)),
            _ => Ok(GeneralName::Invalid(any.tag(), any.content)),
        },
    }
}

impl<'b> DerMeaning for GeneralName<'b> {
    ghost der_reads = { λ i v r. grammar.GeneralName i (general_name_view v) r };

    ghost der_cut = { EndsWithinElement };

    ghost der_grows = { Unit {0} };

    ghost one_rest = { λ i v w r s left right. one_rest (IsGeneralName) i (general_name_view v) (general_name_view w) r s left right };
}

impl<'a> FromDer<'a, X509Error> for GeneralName<'a> {
    /// Reads one general name from the front of `bytes`: an element of the context class. Returns
    /// `(rest, name)`; the name is `Invalid` if the element has none of the nine forms.
    ///
    /// # Errors
    ///
    /// `Incomplete` if `bytes` ends inside the element; an `Error` for another class; out of
    /// memory.
    fn from_der(alloc: Global, bytes: &'a [u8]) -> X509Result<'a, GeneralName<'a>>
        ensures reads { Reads (λ given e. e ≡ told given) (Unit {0}) EndsWithinElement (λ i. i.now)
            (λ i v r. grammar.GeneralName i (general_name_view v) r) bytes.now result }
        ensures exact { Gives (λ r. (general_name_view r.1, r.0.now)) result (general_name_at bytes.now) }
        ensures found { IfOk result (λ r. grammar.GeneralName bytes.now (general_name_view r.1) r.0.now) }
        ensures only { (v : values.GeneralName) (rest : List ℕ) → grammar.GeneralName bytes.now v rest
            → ElseMemory result (λ r. (general_name_view r.1 ≡ v) × (r.0.now ≡ rest)) }
        ensures counted { IfOk result (λ r. IsCountedGeneralName r.1) }
    {
        general_name_at_front(alloc, bytes)
    }
}

pub(crate) fn general_name_at_front<'a>(
    alloc: Global,
    i: &'a [u8],
) -> X509Result<'a, GeneralName<'a>>
    ensures exact { Gives (λ r. (general_name_view r.1, r.0.now)) result (general_name_at i.now) }
    ensures counted { IfOk result (λ r. IsCountedGeneralName r.1) }
    ensures missing { TellsMissing i.now result }
    ensures shorter { IfOk result (λ r. length r.0.now < length i.now) }
{
    let mut count = HeaderCount::new();
    let (rest, element) = front_element(i, &mut count)?;
    match name_of(alloc, element.any) {
        Ok(value) => Ok((rest, value)),
        Err(refusal) => Err(Refusal::within(refusal)),
    }
}

impl<'a> Begins<'a> for GeneralName<'a> {
    ghost use Rattle.x509_ext_names.specs.Reading.{general_name_at};
    ghost use Rattle.x509_ext_names.specs.Values as values;
    ghost use Rattle.x509_ext_names.specs.View.{IsCountedGeneralName, general_name_view};

    ghost Data = { values.GeneralName };

    ghost stands_for = { general_name_view };

    ghost reader = { general_name_at };

    ghost IsCounted = { IsCountedGeneralName };

    fn begin(
        alloc: Global,
        i: &'a [u8],
    ) -> Result<Option<(&'a [u8], GeneralName<'a>)>, OutOfMemory> {
        taken(general_name_at_front(alloc, i))
    }
}
