//! `()`, a NULL (X.690, 8.8).

ghost use Rattle.std.specs.Prelude.{◌≡◌, ◌↔◌, IsTrue, refl};
ghost use Rattle.std.proofs.Common.{lit<};
ghost use Rattle.std.specs.Prelude.{[]};

use crate::leaf::{DerLeaf, FromLeaf};
use crate::read::Tagged;
use crate::write::write_all;
use asn1_core::{Class, Error, SerializeResult, Tag};
use asn1_device::Sink;
use std::alloc::Global;

impl Tagged for () {
    const TAG: Tag = Tag::Null;

    ghost tag_number = { 5 };

    fn own_class() -> Class {
        Class::Universal
    }

    fn own_tag() -> Tag {
        Self::TAG
    }
}

impl DerLeaf for () {
    ghost content_means = { λ content _. content ≡ [] };

    ghost content_allowed = { λ _. Unit {0} };

    ghost leaf_form = { λ _. Unit {0} };

    ghost content = { λ _. [] };

    ghost low = { lit< tt };

    ghost fits = { λ v _. (tt, refl) };

    ghost same = { λ v w _ read. refl };

    fn check_content(_octets: &[u8]) -> Result<(), Error> {
        Ok(())
    }

    fn leaf_in_form(&self) -> bool {
        true
    }

    fn leaf_len(&self) -> SerializeResult<usize> {
        Ok(0)
    }

    fn write_leaf<S: Sink>(&self, writer: &mut S) -> SerializeResult<usize> {
        write_all(writer, &[])
    }
}

impl<'a> FromLeaf<'a> for () {
    fn from_content(_alloc: Global, octets: &'a [u8]) -> Result<(), Error> {
        if octets.is_empty() {
            Ok(())
        } else {
            Err(Error::InvalidLength)
        }
    }
}
