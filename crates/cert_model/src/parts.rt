//! Single elements in their strict spelling (X.690, 8.1 and 10.1), read without memory. Each costs
//! the reading of one header: contents are windows that aren't looked into.

ghost use Rattle.std.specs.Prelude.{◌≡◌, ◌↔◌, ℕ, List, ◌++◌, IsTrue, IfSome, IsSomeAnd};
ghost use Rattle.asn1_core.specs.Elements.{element_octets};
ghost use Rattle.asn1_core.specs.Views.{class_number, head_of, IsDefinite};
ghost use Rattle.cert_model.specs.Parts.{element_of, IsPart};

use asn1_core::{Class, Header, Length};

fn has_identifier(header: &Header, class: Class, constructed: bool, tag: u32) -> bool
    ensures { IsTrue result ↔ (((head_of header.now).class ≡ class_number class) × ((head_of header.now).constructed ≡ constructed) × ((head_of header.now).tag ≡ tag)) }
{
    header.class() == class && header.constructed() == constructed && header.tag().0 == tag
}

fn size_of(header: &Header) -> usize
    ensures { result ≡ (head_of header.now).size }
{
    match header.length() {
        Length::Definite(size) => size,
        Length::Indefinite => 0,
    }
}

/// Returns the content of the element at the front, if it has this identifier in its strict
/// spelling (X.690, 8.1 and 10.1), and the octets after it. `None` also if the octets end before
/// the content does.
pub fn part<'a>(
    class: Class,
    constructed: bool,
    tag: u32,
    octets: &'a [u8],
) -> Option<(&'a [u8], &'a [u8])>
    ensures found { IfSome result (λ r. octets.now ≡ element_octets (element_of class constructed tag r.0.now) ++ r.1.now) }
    ensures only { (content rest : List ℕ) → octets.now ≡ element_octets (element_of class constructed tag content) ++ rest
        → IsSomeAnd result (λ r. (r.0.now ≡ content) × (r.1.now ≡ rest)) }
{
    let Ok((after, header)) = Header::strict(octets) else {
        return None;
    };
    if !has_identifier(&header, class, constructed, tag) {
        return None;
    }
    let size = size_of(&header);
    if size > after.len() {
        return None;
    }
    Some((&after[..size], &after[size..]))
}

/// Returns the content of the one element that the octets are, if it has this identifier in its
/// strict spelling. `None` also if octets follow it.
pub fn whole<'a>(class: Class, constructed: bool, tag: u32, octets: &'a [u8]) -> Option<&'a [u8]>
    ensures found { IfSome result (λ r. octets.now ≡ element_octets (element_of class constructed tag r.now)) }
    ensures only { (content : List ℕ) → octets.now ≡ element_octets (element_of class constructed tag content)
        → IsSomeAnd result (λ r. r.now ≡ content) }
{
    let (content, rest) = part(class, constructed, tag, octets)?;
    if rest.is_empty() { Some(content) } else { None }
}

/// Returns the element at the front, whatever it is, header included, and the octets after it.
/// `Some` whenever an element in its strict spelling begins the octets; of other octets nothing is
/// said.
pub fn first_part(octets: &[u8]) -> Option<(&[u8], &[u8])>
    ensures { (part rest : List ℕ) → IsPart part → octets.now ≡ part ++ rest → IsSomeAnd result (λ r. (r.0.now ≡ part) × (r.1.now ≡ rest)) }
{
    let Ok((after, header)) = Header::strict(octets) else {
        return None;
    };
    let size = size_of(&header);
    if size > after.len() {
        return None;
    }
    let rest = &after[size..];
    Some((&octets[..octets.len() - rest.len()], rest))
}
