//! Names of a subjectAltName (RFC 5280, 4.2.1.6), read without memory.

ghost use Rattle.std.specs.Prelude.{◌≡◌, ◌↔◌, ◌<◌, ◌^◌, ℕ, List, ◌++◌, IsTrue, IfSome, IsSomeAnd};
ghost use Rattle.std.specs.Str.{IsAscii};
ghost use Rattle.asn1_core.specs.Elements.{Element, element_octets};
ghost use Rattle.cert_serving.specs.GeneralNames.{tag_of, has_parts, HasContentOf, IsGeneralName, general_name_octets};
ghost use Rattle.cert_serving.specs.GeneralNames as spelled;
ghost use Rattle.cert_serving.specs.View.{choice_at, general_name_view};

use asn1_core::{Class, Header};
use asn1_oid::is_oid_content;
use cert_model::parts::part;

/// Which of the nine choices of GeneralName a name is (RFC 5280, 4.2.1.6).
#[derive(Clone, Copy, Debug, PartialEq, Eq)]
pub enum Choice {
    OtherName,
    Rfc822Name,
    DnsName,
    X400Address,
    DirectoryName,
    EdiPartyName,
    Uri,
    IpAddress,
    RegisteredId,
}

/// A name of a subjectAltName: its choice, and the content octets of its element. Those of a
/// `DnsName` are the name itself, in ASCII; those of an `IpAddress` are the address.
#[derive(Clone, Copy, Debug, PartialEq, Eq)]
pub struct GeneralName<'a> {
    pub choice: Choice,
    pub content: &'a [u8],
}

/// The choice of a tag number.
fn choice_of(tag: u32) -> Option<Choice>
    ensures exact { result ≡ choice_at tag }
    ensures found { IfSome result (λ c. tag ≡ tag_of c) }
{
    if tag == 0 {
        Some(Choice::OtherName)
    } else if tag == 1 {
        Some(Choice::Rfc822Name)
    } else if tag == 2 {
        Some(Choice::DnsName)
    } else if tag == 3 {
        Some(Choice::X400Address)
    } else if tag == 4 {
        Some(Choice::DirectoryName)
    } else if tag == 5 {
        Some(Choice::EdiPartyName)
    } else if tag == 6 {
        Some(Choice::Uri)
    } else if tag == 7 {
        Some(Choice::IpAddress)
    } else if tag == 8 {
        Some(Choice::RegisteredId)
    } else {
        None
    }
}

/// Whether the element of a choice has parts.
fn has_parts(choice: Choice) -> bool
    ensures { result ≡ has_parts choice }
{
    match choice {
        Choice::OtherName => true,
        Choice::X400Address => true,
        Choice::DirectoryName => true,
        Choice::EdiPartyName => true,
        _ => false,
    }
}

/// Whether octets are the characters of an IA5String.
fn is_text(content: &[u8]) -> bool
    ensures { IsTrue result ↔ IsAscii content.now }
{
    content.is_ascii()
}

/// Whether octets may be the content of a choice, as far as it is looked into.
fn has_content(choice: Choice, content: &[u8]) -> bool
    ensures { IsTrue result ↔ HasContentOf choice content.now }
{
    match choice {
        Choice::Rfc822Name => is_text(content),
        Choice::DnsName => is_text(content),
        Choice::Uri => is_text(content),
        Choice::RegisteredId => is_oid_content(content),
        _ => true,
    }
}

/// The tag number of the element at the front, whatever it is.
fn front_tag(octets: &[u8]) -> Option<u32>
    ensures { (e : Element) (rest : List ℕ) → e.class < 4 → e.tag < 2 ^ 32 → octets.now ≡ element_octets e ++ rest → IsSomeAnd result (λ t. t ≡ e.tag) }
{
    let Ok((_, header)) = Header::strict(octets) else {
        return None;
    };
    Some(header.tag().0)
}

/// Reads one name from the front of `octets`. Returns it and the octets after it; `None` if no name
/// of the nine choices begins them. It takes no memory.
pub fn next_name(octets: &[u8]) -> Option<(GeneralName<'_>, &[u8])>
    ensures found { IfSome result (λ r. IsGeneralName (general_name_view r.0) × (octets.now ≡ general_name_octets (general_name_view r.0) ++ r.1.now)) }
    ensures only { (g : spelled.GeneralName) (rest : List ℕ) → IsGeneralName g → octets.now ≡ general_name_octets g ++ rest → IsSomeAnd result (λ r. (general_name_view r.0 ≡ g) × (r.1.now ≡ rest)) }
{
    let tag = front_tag(octets)?;
    let choice = choice_of(tag)?;
    let (content, rest) = part(Class::ContextSpecific, has_parts(choice), tag, octets)?;
    if has_content(choice, content) {
        Some((GeneralName { choice, content }, rest))
    } else {
        None
    }
}
