//! `X509Name` (RFC 5280, 4.1.2.4).

ghost use Rattle.std.specs.Prelude.{◌≡◌, ◌+◌, ◌*◌, ◌^◌, ◌<◌, ◌≤◌, ◌++◌, ℕ, List, [], length, All, IfOk, map};
ghost use Rattle.std.specs.Iterator.{Drains, IsFinite};
ghost use Rattle.std.specs.List.{filter};
ghost use Rattle.std.specs.Slice.Iter.{iter_rest};
ghost use Rattle.asn1_core.specs.Counts.{attempts};
ghost use Rattle.asn1_any.specs.CutViews.{piece_of};
ghost use Rattle.x509_core.specs.asn1_traits.specs.Elements.{EndsWithinElement};
ghost use Rattle.x509_core.specs.asn1_traits.specs.Reads.{Reads};
ghost use Rattle.x509_core.specs.Answers.{Gives, ManyGive, ElseMemory};
ghost use Rattle.x509_core.specs.Errors.{told};
ghost use Rattle.x509_core.specs.Grammar.{HoldsWindow};
ghost use Rattle.x509_core.specs.Reading.{many_of};
ghost use Rattle.x509_names.specs.Fields.{Name};
ghost use Rattle.x509_core.specs.Fronts.{TellsMissing, IsWindow, one_rest};
ghost use Rattle.x509_objects.specs.Identifiers.{common_name_id, country_id, organization_id, organizational_unit_id, state_or_province_id, locality_id, email_id};
ghost use Rattle.x509_names.specs.Names as grammar;
ghost use Rattle.x509_names.specs.Reading.{relative_name_at, name_in, name_at};
ghost use Rattle.x509_names.specs.View.{HasCountedValues, IsCountedName, set_view, name_view, attributes_in, attributes_of_set, has_type};

use crate::attributes::{Attributes, AttributesOf};
use crate::relative::{RelativeDistinguishedName, relative_name_of};
use asn1_any::Element;
use asn1_core::{Err as Refusal, HeaderCount, OutOfMemory};
use asn1_oid::Oid;
use std::alloc::Global;
use std::slice;
use x509_core::{DerMeaning, FromDer, Parts, X509Error, X509Result, front_element, parts_of};

/// A distinguished name: a sequence of sets of attributes (RFC 5280, 4.1.2.4), borrowed from the
/// octets that it was read from.
#[derive(Debug, Drop, PartialEq, Eq)]
pub struct X509Name<'a> {
    rdn_seq: Vec<RelativeDistinguishedName<'a>>,
    raw: &'a [u8],
}

impl<'a> X509Name<'a> {
    /// Makes a name from its sets and the octets that `as_raw` returns.
    pub fn new(rdn_seq: Vec<RelativeDistinguishedName<'a>>, raw: &'a [u8]) -> X509Name<'a>
        ensures { result ≡ record { rdn_seq = rdn_seq.entry; raw = raw.entry } }
    {
        X509Name { rdn_seq, raw }
    }

    /// Makes a name from the sets of an iterator; `as_raw` returns no octets.
    ///
    /// # Errors
    ///
    /// Out of memory.
    pub fn try_from_iter<I: Iterator<Item = RelativeDistinguishedName<'a>> + Drop>(
        alloc: Global,
        sets: I,
    ) -> Result<X509Name<'a>, OutOfMemory>
        requires can { I.can_next sets }
        requires ends { IsFinite (I.remaining sets) }
        ensures sets { IfOk result (λ name. Drains I.next_gives sets name.rdn_seq.items) }
        ensures raw { IfOk result (λ name. name.raw.now ≡ []) }
    {
        let mut rdn_seq = Vec::new(alloc);
        for set in sets {
            rdn_seq.push(set)?;
        }
        Ok(X509Name { rdn_seq, raw: &[] })
    }

    /// The encoding of the name, up to the end of its sets.
    pub fn as_raw(&self) -> &'a [u8]
        ensures { result ≡ self.now.raw }
    {
        self.raw
    }

    /// An iterator over the relative distinguished names, in the order of the encoding.
    pub fn iter(&self) -> slice::Iter<'_, RelativeDistinguishedName<'a>>
        ensures { iter_rest result ≡ self.now.rdn_seq.items }
    {
        self.rdn_seq.iter()
    }

    /// An iterator over the relative distinguished names, in the order of the encoding.
    pub fn iter_rdn(&self) -> slice::Iter<'_, RelativeDistinguishedName<'a>>
        ensures { iter_rest result ≡ self.now.rdn_seq.items }
    {
        self.rdn_seq.iter()
    }

    /// An iterator over the attributes of all sets, in the order of the encoding.
    pub fn iter_attributes(&self) -> Attributes<'_, 'a>
        ensures { result ≡ attributes_in self.now.rdn_seq.items }
    {
        Attributes::new(self.rdn_seq.as_slice())
    }

    /// An iterator over the attributes of this type.
    pub fn iter_by_oid<'n>(&'n self, oid: &'n Oid<'_>) -> AttributesOf<'n, 'a>
        ensures { result ≡ filter (has_type oid.now) (attributes_in self.now.rdn_seq.items) }
    {
        self.iter_attributes().of_type(oid.as_bytes())
    }

    /// An iterator over the attributes of type commonName (2.5.4.3).
    pub fn iter_common_name(&self) -> AttributesOf<'_, 'a>
        ensures { result ≡ filter (has_type common_name_id) (attributes_in self.now.rdn_seq.items) }
    {
        self.iter_attributes().of_type(b"\x55\x04\x03")
    }

    /// An iterator over the attributes of type countryName (2.5.4.6).
    pub fn iter_country(&self) -> AttributesOf<'_, 'a>
        ensures { result ≡ filter (has_type country_id) (attributes_in self.now.rdn_seq.items) }
    {
        self.iter_attributes().of_type(b"\x55\x04\x06")
    }

    /// An iterator over the attributes of type organizationName (2.5.4.10).
    pub fn iter_organization(&self) -> AttributesOf<'_, 'a>
        ensures { result ≡ filter (has_type organization_id) (attributes_in self.now.rdn_seq.items) }
    {
        self.iter_attributes().of_type(b"\x55\x04\x0a")
    }

    /// An iterator over the attributes of type organizationalUnitName (2.5.4.11).
    pub fn iter_organizational_unit(&self) -> AttributesOf<'_, 'a>
        ensures { result ≡ filter (has_type organizational_unit_id) (attributes_in self.now.rdn_seq.items) }
    {
        self.iter_attributes().of_type(b"\x55\x04\x0b")
    }

    /// An iterator over the attributes of type stateOrProvinceName (2.5.4.8).
    pub fn iter_state_or_province(&self) -> AttributesOf<'_, 'a>
        ensures { result ≡ filter (has_type state_or_province_id) (attributes_in self.now.rdn_seq.items) }
    {
        self.iter_attributes().of_type(b"\x55\x04\x08")
    }

    /// An iterator over the attributes of type localityName (2.5.4.7).
    pub fn iter_locality(&self) -> AttributesOf<'_, 'a>
        ensures { result ≡ filter (has_type locality_id) (attributes_in self.now.rdn_seq.items) }
    {
        self.iter_attributes().of_type(b"\x55\x04\x07")
    }

    /// An iterator over the attributes of type emailAddress (1.2.840.113549.1.9.1).
    pub fn iter_email(&self) -> AttributesOf<'_, 'a>
        ensures { result ≡ filter (has_type email_id) (attributes_in self.now.rdn_seq.items) }
    {
        self.iter_attributes()
            .of_type(b"\x2a\x86\x48\x86\xf7\x0d\x01\x09\x01")
    }

    /// A copy that borrows the same octets as the name.
    ///
    /// # Errors
    ///
    /// Out of memory, for the copied vectors.
    pub fn clone(&self, alloc: Global) -> Result<X509Name<'a>, OutOfMemory>
        ensures sets { IfOk result (λ copy. map attributes_of_set copy.rdn_seq.items ≡ map attributes_of_set self.now.rdn_seq.items) }
        ensures raw { IfOk result (λ copy. copy.raw ≡ self.now.raw) }
    {
        let mut rdn_seq = Vec::new(alloc);
        for set in self.rdn_seq.as_slice() {
            rdn_seq.push(set.clone(alloc)?)?;
        }
        Ok(X509Name {
            rdn_seq,
            raw: self.raw,
        })
    }
}

/// Takes the sets out of a name.
impl<'a> From<X509Name<'a>> for Vec<RelativeDistinguishedName<'a>> {
    ghost use Rattle.std.specs.Prelude.{◌≡◌};

    ghost from_gives = { λ name sets. sets ≡ name.rdn_seq };

    fn from(name: X509Name<'a>) -> Vec<RelativeDistinguishedName<'a>> {
        name.rdn_seq
    }
}

/// Reads sets of attributes until none begins.
fn relative_names_of<'a>(
    alloc: Global,
    parts: &mut Parts<'a>,
    count: &mut HeaderCount,
) -> Result<Vec<RelativeDistinguishedName<'a>>, Refusal<X509Error>>
    requires { attempts count.old + 2 * length parts.old.octets < 2 ^ 128 }
    ensures read { ManyGive (λ v. map set_view v.items) result (many_of relative_name_at parts.old.octets) parts.new.octets }
    ensures counted { IfOk result (λ v. All HasCountedValues v.items) }
    ensures grows { attempts count.old ≤ attempts count.new }
    ensures most { attempts count.new ≤ attempts count.old + 2 * length parts.old.octets }
    ensures shorter { length parts.new.octets ≤ length parts.old.octets }
{
    let mut sets = Vec::new(alloc);
    while let Some(element) = parts.first() {
        match relative_name_of(alloc, element, count) {
            Ok(set) => {
                sets.push(set)?;
                parts.advance();
            }
            Err(refusal) => match refusal {
                Refusal::Failure(e) => return Err(Refusal::Failure(e)),
                _ => return Ok(sets),
            },
        }
    }
    Ok(sets)
}

/// Reads the name in an element: sets of attributes until none begins.
#[tactic(auto, unfolding(crate::specs::Reading::name_in))]
pub fn name_of<'a>(
    alloc: Global,
    element: Element<'a>,
    count: &mut HeaderCount,
) -> Result<X509Name<'a>, Refusal<X509Error>>
    requires { attempts count.old + 3 * length element.any.content.now < 2 ^ 128 }
    ensures read { Gives name_view result (name_in (piece_of element.entry)) }
    ensures counted { IfOk result IsCountedName }
    ensures grows { attempts count.old ≤ attempts count.new }
    ensures most { attempts count.new ≤ attempts count.old + 3 * length element.entry.any.content.now }
{
    let mut parts = parts_of(alloc, 16, element, count)?;
    let rdn_seq = relative_names_of(alloc, &mut parts, count)?;
    let left = parts.left().len();
    let raw = &element.octets[..element.octets.len().saturating_sub(left)];
    Ok(X509Name { rdn_seq, raw })
}

/// Reads a name from the front of `parts`.
pub fn next_name<'a>(
    alloc: Global,
    parts: &mut Parts<'a>,
    count: &mut HeaderCount,
) -> Result<X509Name<'a>, Refusal<X509Error>>
    requires { attempts count.old + 3 * length parts.old.octets < 2 ^ 128 }
    ensures read { Gives (λ v. (name_view v, parts.new.octets)) result (name_at parts.old.octets) }
    ensures counted { IfOk result IsCountedName }
    ensures elements { IfOk result (λ _. parts.old.elements ≡ parts.new.elements + 1) }
    ensures grows { attempts count.old ≤ attempts count.new }
    ensures ends { length parts.new.octets ≤ length parts.old.octets }
    ensures most { attempts count.new + 3 * length parts.new.octets ≤ attempts count.old + 3 * length parts.old.octets }
{
    let element = parts.next()?;
    name_of(alloc, element, count)
}

impl<'b> DerMeaning for X509Name<'b> {
    ghost der_reads = { λ i v r. grammar.X509Name i (name_view v) r };

    ghost der_cut = { EndsWithinElement };

    ghost der_grows = { Unit {0} };

    ghost one_rest = { λ i v w r s left right. one_rest (HoldsWindow 16 grammar.NameParts (λ n. n.raw)) i (name_view v) (name_view w) r s left right };
}

impl<'a> FromDer<'a, X509Error> for X509Name<'a> {
    /// Reads one name from the front of `bytes` (RFC 5280, 4.1.2.4). Returns `(rest, name)`. What
    /// is no set of attributes ends the name.
    ///
    /// # Errors
    ///
    /// `Incomplete` if `bytes` ends inside the element; an `Error` if its tag number isn't 16; out
    /// of memory.
    fn from_der(alloc: Global, bytes: &'a [u8]) -> X509Result<'a, X509Name<'a>>
        ensures reads { Reads (λ given e. e ≡ told given) (Unit {0}) EndsWithinElement (λ i. i.now)
            (λ i v r. grammar.X509Name i (name_view v) r) bytes.now result }
        ensures exact { Gives (λ r. (name_view r.1, r.0.now)) result (name_at bytes.now) }
        ensures window { IfOk result (λ r. IsWindow bytes.now r.1.raw.now r.0.now) }
        ensures found { IfOk result (λ r. grammar.X509Name bytes.now (name_view r.1) r.0.now) }
        ensures only { (v : Name) (rest : List ℕ) → grammar.X509Name bytes.now v rest
            → ElseMemory result (λ r. (name_view r.1 ≡ v) × (r.0.now ≡ rest)) }
        ensures counted { IfOk result (λ r. IsCountedName r.1) }
    {
        name_at_front(alloc, bytes)
    }
}

fn name_at_front<'a>(alloc: Global, i: &'a [u8]) -> X509Result<'a, X509Name<'a>>
    ensures exact { Gives (λ r. (name_view r.1, r.0.now)) result (name_at i.now) }
    ensures counted { IfOk result (λ r. IsCountedName r.1) }
    ensures missing { TellsMissing i.now result }
{
    let mut count = HeaderCount::new();
    let (rest, element) = front_element(i, &mut count)?;
    match name_of(alloc, element, &mut count) {
        Ok(name) => Ok((rest, name)),
        Err(refusal) => Err(Refusal::within(refusal)),
    }
}
