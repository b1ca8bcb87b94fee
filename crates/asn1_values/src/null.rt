//! `Null` (X.690, 8.8).

ghost use Rattle.std.specs.Prelude.{◌≡◌, [], refl};
ghost use Rattle.std.proofs.Common.{lit<};

use asn1_core::{Class, Error, SerializeResult, Tag};
use asn1_device::Sink;
use asn1_traits::{DerLeaf, FromLeaf, Tagged, write_all};
use std::alloc::Global;

/// A NULL: it has no content octets (X.690, 8.8).
#[derive(Clone, Copy, Debug, Default, PartialEq, Eq)]
pub struct Null;

impl Null {
    /// Returns the one NULL.
    pub fn new() -> Null
        ensures { result ≡ record {} }
    {
        Null
    }
}

impl Tagged for Null {
    const TAG: Tag = Tag::Null;

    ghost tag_number = { 5 };

    fn own_class() -> Class {
        Class::Universal
    }

    fn own_tag() -> Tag {
        Self::TAG
    }
}

impl DerLeaf for Null {
    ghost content_means = { λ content _. content ≡ [] };

    ghost content_allowed = { λ content. content ≡ [] };

    ghost leaf_form = { λ _. Unit {0} };

    ghost content = { λ _. [] };

    ghost low = { lit< tt };

    ghost fits = { λ v _. (refl, refl) };

    ghost same = { λ v w _ read. refl };

    fn check_content(octets: &[u8]) -> Result<(), Error> {
        if octets.is_empty() {
            Ok(())
        } else {
            Err(Error::InvalidLength)
        }
    }

    fn leaf_in_form(&self) -> bool {
        true
    }

    fn leaf_len(&self) -> SerializeResult<usize> {
        Ok(0)
    }

    fn write_leaf<S: Sink>(&self, writer: &mut S) -> SerializeResult<usize> {
        write_all(writer, &[])
    }
}

impl<'a> FromLeaf<'a> for Null {
    fn from_content(_alloc: Global, octets: &'a [u8]) -> Result<Null, Error> {
        if octets.is_empty() {
            Ok(Null)
        } else {
            Err(Error::InvalidLength)
        }
    }
}
