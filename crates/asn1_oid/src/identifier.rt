//! The type `Oid`.
ghost use Rattle.std.specs.Prelude.{◌≡◌, ◌↔◌, ℕ, List, IsTrue, IfSome, IsSomeAnd, IfOk, IfErr};
ghost use Rattle.asn1_oid.specs.Identifier.{IsOidContent, IsFront, Spells};
ghost use Rattle.asn1_oid.specs.Spelling.{RefusesComponents};

use crate::components::{SubIdentifierIterator, read_components};
use crate::content::is_oid_content;
use crate::spell::spell;
use asn1_core::{Error, OutOfMemory};
use std::alloc::Global;
use std::marker::Model;

/// An object identifier: the content octets of an element of tag 6 (X.690, 8.19), borrowed or
/// owned. Readers of that tag accept any content; `is_strict` returns whether DER allows it.
#[derive(Drop)]
pub struct Oid<'a> {
    octets: Octets<'a>,
}

#[derive(Drop)]
enum Octets<'a> {
    Borrowed(&'a [u8]),
    Owned(Vec<u8>),
}

impl<'a> Model for Oid<'a> {
    ghost use Rattle.std.specs.Prelude.{ℕ, List};
    ghost use Rattle.asn1_oid.specs.Held.{octets_of};

    ghost Value = { List ℕ };

    ghost view = { λ oid. octets_of oid.octets };
}

impl<'a> Oid<'a> {
    /// Returns the identifier of these content octets, which are borrowed. Any octets are accepted.
    pub fn new(octets: &'a [u8]) -> Oid<'a>
        ensures { result ≡ octets.now }
    {
        Oid {
            octets: Octets::Borrowed(octets),
        }
    }

    /// Returns the content octets.
    pub fn as_bytes(&self) -> &[u8]
        ensures { result.now ≡ self.now }
    {
        match &self.octets {
            Octets::Borrowed(octets) => octets,
            Octets::Owned(octets) => octets.as_slice(),
        }
    }

    /// Returns the content octets with the lifetime of the input that they were borrowed from;
    /// `None` if the identifier owns its octets, as one that `from` made and copies of it do.
    pub fn borrowed(&self) -> Option<&'a [u8]>
        ensures { IfSome result (λ octets. octets.now ≡ self.now) }
    {
        match &self.octets {
            Octets::Borrowed(octets) => Some(*octets),
            Octets::Owned(_) => None,
        }
    }

    /// Returns whether DER allows the content (X.690, 8.19.1 and 8.19.2). Time is linear in the
    /// octets.
    pub fn is_strict(&self) -> bool
        ensures { IsTrue result ↔ IsOidContent self.now }
    {
        is_oid_content(self.as_bytes())
    }

    /// Returns an iterator over the components, as 1, 2 and 840 of 1.2.840; `None` if the content
    /// is not strict, or a subidentifier passes 64 bits. It takes no memory.
    pub fn iter(&self) -> Option<SubIdentifierIterator<'_>>
        ensures found { IfSome result (λ left. Spells left self.now) }
        ensures only { (components : List ℕ) → Spells components self.now
            → IsSomeAnd result (λ left. left ≡ components) }
    {
        read_spelled(self.as_bytes())
    }

    /// Returns the identifier of these components, in an allocation of its own: its octets are the
    /// shortest that spell them (X.690, 8.19). The components 1, 2 and 840 have the octets `2a 86
    /// 48`.
    ///
    /// # Errors
    ///
    /// `BerValueError` if there are fewer than two components, the first is above 2, the second is
    /// above 39 after 0 or 1, or 40 times the first plus the second passes 64 bits; `OutOfMemory`
    /// if an allocation fails.
    pub fn from(alloc: Global, components: &[u64]) -> Result<Oid<'static>, Error>
        ensures made { IfOk result (λ oid. Spells components.now oid) }
        ensures refused { IfErr result (λ e. RefusesComponents components.now e) }
    {
        let octets = spell(alloc, components)?;
        Ok(Oid {
            octets: Octets::Owned(octets),
        })
    }

    /// Returns whether the octets begin with those of `needle`. If both identifiers have
    /// components, this is whether the components begin with those of `needle`.
    pub fn starts_with(&self, needle: &Oid<'_>) -> bool
        ensures octets { IsTrue result ↔ IsFront needle.now self.now }
        ensures components { (whole front : List ℕ) → Spells whole self.now → Spells front needle.now
            → (IsTrue result ↔ IsFront front whole) }
    {
        self.as_bytes().starts_with(needle.as_bytes())
    }

    /// Returns a copy. Borrowed octets are borrowed again, without memory; owned ones are copied.
    /// The only error is out of memory.
    pub fn clone(&self, alloc: Global) -> Result<Oid<'a>, OutOfMemory>
        ensures { IfOk result (λ copy. copy ≡ self.now) }
    {
        let octets = match &self.octets {
            Octets::Borrowed(octets) => Octets::Borrowed(*octets),
            Octets::Owned(octets) => Octets::Owned(Vec::from_slice(alloc, octets.as_slice())?),
        };
        Ok(Oid { octets })
    }
}

fn read_spelled(octets: &[u8]) -> Option<SubIdentifierIterator<'_>>
    ensures found { IfSome result (λ left. Spells left octets.now) }
    ensures only { (components : List ℕ) → Spells components octets.now
        → IsSomeAnd result (λ left. left ≡ components) }
{
    read_components(octets)
}
