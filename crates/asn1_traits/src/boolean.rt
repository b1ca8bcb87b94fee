//! `bool`, a BOOLEAN (X.690, 8.2 and 11.1).

ghost use Rattle.std.specs.Prelude.{◌≡◌};
ghost use Rattle.std.proofs.Common.{lit<};
ghost use Rattle.asn1_traits.specs.Booleans.{BooleanMeans, IsStrictBoolean, boolean_octets};
ghost use Rattle.asn1_traits.specs.BooleanLaws.{boolean_fits, boolean_same};

use crate::leaf::{DerLeaf, FromLeaf};
use crate::read::Tagged;
use crate::write::write_all;
use asn1_core::{Class, DerConstraint, Error, SerializeResult, Tag};
use asn1_device::Sink;
use std::alloc::Global;

impl Tagged for bool {
    const TAG: Tag = Tag::Boolean;

    ghost tag_number = { 1 };

    fn own_class() -> Class {
        Class::Universal
    }

    fn own_tag() -> Tag {
        Self::TAG
    }
}

impl DerLeaf for bool {
    ghost content_means = { BooleanMeans };

    ghost content_allowed = { IsStrictBoolean };

    ghost leaf_form = { λ _. Unit {0} };

    ghost content = { boolean_octets };

    ghost low = { lit< tt };

    ghost fits = { boolean_fits };

    ghost same = { boolean_same };

    fn check_content(octets: &[u8]) -> Result<(), Error> {
        match octets {
            [0] | [0xff] => Ok(()),
            [_] => Err(Error::DerConstraintFailed(DerConstraint::InvalidBoolean)),
            _ => Err(Error::InvalidLength),
        }
    }

    fn leaf_in_form(&self) -> bool {
        true
    }

    fn leaf_len(&self) -> SerializeResult<usize> {
        Ok(1)
    }

    fn write_leaf<S: Sink>(&self, writer: &mut S) -> SerializeResult<usize> {
        write_all(writer, &[if *self { 0xff } else { 0 }])
    }
}

impl<'a> FromLeaf<'a> for bool {
    fn from_content(_alloc: Global, octets: &'a [u8]) -> Result<bool, Error> {
        match octets {
            [octet] => Ok(*octet != 0),
            _ => Err(Error::InvalidLength),
        }
    }
}
