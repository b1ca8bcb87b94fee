//! `OctetString` (X.690, 8.7).

ghost use Rattle.std.specs.Prelude.{◌≡◌, ◌↔◌, IsTrue, refl};
ghost use Rattle.std.proofs.Common.{lit<};
ghost use Rattle.asn1_traits.specs.Leaves.{ChecksContent, MeansOctets};
ghost use Rattle.asn1_core.specs.Views.{class_number};

use asn1_core::{Class, Error, SerializeResult, Tag};
use asn1_device::Sink;
use asn1_traits::{DerLeaf, FromLeaf, Tagged, write_all};
use std::alloc::Global;

/// An OCTET STRING, borrowed (X.690, 8.7).
#[derive(Clone, Copy, Debug, PartialEq, Eq)]
pub struct OctetString<'a> {
    /// The octets.
    pub content: &'a [u8],
}

impl<'a> OctetString<'a> {
    /// Returns the string of these octets.
    pub fn new(content: &'a [u8]) -> OctetString<'a>
        ensures { result.content ≡ content.entry }
    {
        OctetString { content }
    }

    /// Returns the octets.
    pub fn as_ref(&self) -> &'a [u8]
        ensures { result ≡ self.now.content }
    {
        self.content
    }
}

impl<'b> Tagged for OctetString<'b> {
    const TAG: Tag = Tag::OctetString;

    ghost tag_number = { 4 };

    fn own_class() -> Class
        ensures { class_number result ≡ 0 }
    {
        Class::Universal
    }

    fn own_tag() -> Tag
        ensures { result.0 ≡ 4 }
    {
        Self::TAG
    }
}

impl<'b> DerLeaf for OctetString<'b> {
    ghost content_means = { MeansOctets (λ v. v.content.now) };

    ghost content_allowed = { λ _. Unit {0} };

    ghost leaf_form = { λ _. Unit {0} };

    ghost content = { λ v. v.content.now };

    ghost low = { lit< tt };

    ghost fits = { λ v _. (tt, refl) };

    ghost same = { λ v w _ read. read };

    fn check_content(_octets: &[u8]) -> Result<(), Error>
        ensures { ChecksContent (λ _. Unit {0}) _octets.now result }
    {
        Ok(())
    }

    fn leaf_in_form(&self) -> bool {
        true
    }

    fn leaf_len(&self) -> SerializeResult<usize> {
        Ok(self.content.len())
    }

    fn write_leaf<S: Sink>(&self, writer: &mut S) -> SerializeResult<usize> {
        write_all(writer, self.content)
    }
}

impl<'b> FromLeaf<'b> for OctetString<'b> {
    fn from_content(_alloc: Global, octets: &'b [u8]) -> Result<OctetString<'b>, Error> {
        Ok(OctetString::new(octets))
    }
}
