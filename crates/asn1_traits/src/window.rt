//! `&[u8]`, an OCTET STRING (X.690, 8.7).

ghost use Rattle.std.specs.Prelude.{◌≡◌, ◌↔◌, IsTrue, refl};
ghost use Rattle.std.proofs.Common.{lit<};
ghost use Rattle.asn1_traits.specs.Leaves.{ChecksContent, MeansOctets};
ghost use Rattle.asn1_core.specs.Views.{class_number};

use crate::leaf::{DerLeaf, FromLeaf};
use crate::read::Tagged;
use crate::write::write_all;
use asn1_core::{Class, Error, SerializeResult, Tag};
use asn1_device::Sink;
use std::alloc::Global;

impl<'b> Tagged for &'b [u8] {
    const TAG: Tag = Tag::OctetString;

    ghost tag_number = { 4 };

    fn own_class() -> Class
        ensures { class_number result ≡ 0 }
    {
        Class::Universal
    }

    fn own_tag() -> Tag
        ensures { result.0 ≡ 4 }
    {
        Self::TAG
    }
}

impl<'b> DerLeaf for &'b [u8] {
    ghost content_means = { MeansOctets (λ v. v.now) };

    ghost content_allowed = { λ _. Unit {0} };

    ghost leaf_form = { λ _. Unit {0} };

    ghost content = { λ v. v.now };

    ghost low = { lit< tt };

    ghost fits = { λ v _. (tt, refl) };

    ghost same = { λ v w _ read. read };

    fn check_content(octets: &[u8]) -> Result<(), Error>
        ensures { ChecksContent (λ _. Unit {0}) octets.now result }
    {
        Ok(())
    }

    fn leaf_in_form(&self) -> bool {
        true
    }

    fn leaf_len(&self) -> SerializeResult<usize> {
        Ok(self.len())
    }

    fn write_leaf<S: Sink>(&self, writer: &mut S) -> SerializeResult<usize> {
        write_all(writer, self)
    }
}

impl<'b> FromLeaf<'b> for &'b [u8] {
    fn from_content(_alloc: Global, octets: &'b [u8]) -> Result<&'b [u8], Error> {
        Ok(octets)
    }
}
