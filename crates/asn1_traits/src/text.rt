//! `&str` and `String`, UTF8Strings (X.690, 8.23).

ghost use Rattle.std.specs.Prelude.{◌≡◌, ◌↔◌, IsTrue, refl, string_bytes};
ghost use Rattle.std.proofs.Common.{lit<};
ghost use Rattle.std.specs.Str.{IsUtf8};
ghost use Rattle.asn1_traits.specs.Leaves.{ChecksContent, MeansText};
ghost use Rattle.asn1_core.specs.Views.{class_number};

use crate::leaf::{DerLeaf, FromLeaf};
use crate::read::Tagged;
use crate::write::write_all;
use asn1_core::{Class, Error, SerializeResult, Tag};
use asn1_device::Sink;
use std::alloc::Global;

impl<'b> Tagged for &'b str {
    const TAG: Tag = Tag::Utf8String;

    ghost tag_number = { 12 };

    fn own_class() -> Class
        ensures { class_number result ≡ 0 }
    {
        Class::Universal
    }

    fn own_tag() -> Tag
        ensures { result.0 ≡ 12 }
    {
        Self::TAG
    }
}

impl<'b> DerLeaf for &'b str {
    ghost content_means = { MeansText (λ v. v.now) };

    ghost content_allowed = { λ _. Unit {0} };

    ghost leaf_form = { λ v. IsUtf8 v.now };

    ghost content = { λ v. v.now };

    ghost low = { lit< tt };

    ghost fits = { λ v form. (tt, (refl, form)) };

    ghost same = { λ v w _ read. read.0 };

    fn check_content(octets: &[u8]) -> Result<(), Error>
        ensures { ChecksContent (λ _. Unit {0}) octets.now result }
    {
        Ok(())
    }

    fn leaf_in_form(&self) -> bool {
        let _octets = self.as_bytes();
        true
    }

    fn leaf_len(&self) -> SerializeResult<usize> {
        Ok(self.len())
    }

    fn write_leaf<S: Sink>(&self, writer: &mut S) -> SerializeResult<usize> {
        write_all(writer, self.as_bytes())
    }
}

impl<'b> FromLeaf<'b> for &'b str {
    fn from_content(_alloc: Global, octets: &'b [u8]) -> Result<&'b str, Error> {
        match str::from_utf8(octets) {
            Ok(text) => Ok(text),
            Err(_) => Err(Error::StringInvalidCharset),
        }
    }
}

impl Tagged for String {
    const TAG: Tag = Tag::Utf8String;

    ghost tag_number = { 12 };

    fn own_class() -> Class {
        Class::Universal
    }

    fn own_tag() -> Tag {
        Self::TAG
    }
}

impl DerLeaf for String {
    ghost content_means = { MeansText string_bytes };

    ghost content_grows = { Unit {0} };

    ghost content_allowed = { λ _. Unit {0} };

    ghost leaf_form = { λ v. IsUtf8 (string_bytes v) };

    ghost content = { string_bytes };

    ghost low = { lit< tt };

    ghost fits = { λ v form. (tt, (refl, form)) };

    ghost same = { λ v w _ read. read.0 };

    fn check_content(_octets: &[u8]) -> Result<(), Error> {
        Ok(())
    }

    fn leaf_in_form(&self) -> bool {
        let _octets = self.as_str().as_bytes();
        true
    }

    fn leaf_len(&self) -> SerializeResult<usize> {
        Ok(self.len())
    }

    fn write_leaf<S: Sink>(&self, writer: &mut S) -> SerializeResult<usize> {
        write_all(writer, self.as_bytes())
    }
}

impl<'a> FromLeaf<'a> for String {
    fn from_content(alloc: Global, octets: &'a [u8]) -> Result<String, Error> {
        match str::from_utf8(octets) {
            Ok(text) => match String::from_str(alloc, text) {
                Ok(text) => Ok(text),
                Err(_) => Err(Error::OutOfMemory),
            },
            Err(_) => Err(Error::StringInvalidCharset),
        }
    }
}
