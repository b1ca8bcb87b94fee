//! `Oid`, an OBJECT IDENTIFIER (X.690, 8.19). Any content is read; `Oid::is_strict` returns whether
//! DER allows it.

ghost use Rattle.std.specs.Prelude.{◌≡◌, ◌↔◌, IsTrue, refl};
ghost use Rattle.std.proofs.Common.{lit<};
ghost use Rattle.asn1_traits.specs.Leaves.{ChecksContent, MeansOctets};
ghost use Rattle.asn1_core.specs.Views.{class_number};

use crate::leaf::{DerLeaf, FromLeaf};
use crate::read::Tagged;
use crate::write::write_all;
use asn1_core::{Class, Error, SerializeResult, Tag};
use asn1_device::Sink;
use asn1_oid::Oid;
use std::alloc::Global;

impl<'b> Tagged for Oid<'b> {
    const TAG: Tag = Tag::Oid;

    ghost tag_number = { 6 };

    fn own_class() -> Class
        ensures { class_number result ≡ 0 }
    {
        Class::Universal
    }

    fn own_tag() -> Tag
        ensures { result.0 ≡ 6 }
    {
        Self::TAG
    }
}

impl<'b> DerLeaf for Oid<'b> {
    ghost content_means = { MeansOctets (λ v. v) };

    ghost content_allowed = { λ _. Unit {0} };

    ghost leaf_form = { λ _. Unit {0} };

    ghost content = { λ v. v };

    ghost low = { lit< tt };

    ghost fits = { λ v _. (tt, refl) };

    ghost same = { λ v w _ read. read };

    fn check_content(octets: &[u8]) -> Result<(), Error>
        ensures { ChecksContent (λ _. Unit {0}) octets.now result }
    {
        Ok(())
    }

    fn leaf_in_form(&self) -> bool {
        true
    }

    fn leaf_len(&self) -> SerializeResult<usize> {
        Ok(self.as_bytes().len())
    }

    fn write_leaf<S: Sink>(&self, writer: &mut S) -> SerializeResult<usize> {
        write_all(writer, self.as_bytes())
    }
}

impl<'b> FromLeaf<'b> for Oid<'b> {
    fn from_content(_alloc: Global, octets: &'b [u8]) -> Result<Oid<'b>, Error> {
        Ok(Oid::new(octets))
    }
}
