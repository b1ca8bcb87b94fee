//! `Boolean` (X.690, 8.2 and 11.1).

ghost use Rattle.std.specs.Prelude.{◌≡◌, ◌==◌, ◌∷◌, [], not};
ghost use Rattle.std.proofs.Common.{lit<};
ghost use Rattle.asn1_traits.specs.Booleans.{IsStrictBoolean, boolean_octets};
ghost use Rattle.asn1_values.specs.BooleanLaws.{octet_fits, octet_same};

use asn1_core::{Class, DerConstraint, Error, SerializeResult, Tag};
use asn1_device::Sink;
use asn1_traits::{DerLeaf, FromLeaf, Tagged, write_all};
use std::alloc::Global;

/// A BOOLEAN as its content octet: 0 is false, any other octet true (X.690, 8.2). DER allows `00`
/// and `ff` (X.690, 11.1).
///
/// Two are equal if their octets are.
#[derive(Clone, Copy, Debug, PartialEq, Eq)]
pub struct Boolean {
    /// The content octet.
    pub value: u8,
}

impl Boolean {
    /// False, `00`.
    pub const FALSE: Boolean = Boolean { value: 0 };

    /// True as DER writes it, `ff`.
    pub const TRUE: Boolean = Boolean { value: 0xff };

    /// Returns the boolean of this content octet. An octet other than 0 and 255 comes from BER
    /// alone and isn't written; `bool()` of it is written.
    pub fn new(value: u8) -> Boolean
        ensures { result.value ≡ value }
    {
        Boolean { value }
    }

    /// Returns whether the octet is not 0.
    pub fn bool(&self) -> bool
        ensures { result ≡ not (self.now.value == 0) }
    {
        self.value != 0
    }
}

impl Tagged for Boolean {
    const TAG: Tag = Tag::Boolean;

    ghost tag_number = { 1 };

    fn own_class() -> Class {
        Class::Universal
    }

    fn own_tag() -> Tag {
        Self::TAG
    }
}

impl DerLeaf for Boolean {
    ghost content_means = { λ content v. content ≡ v.value ∷ [] };

    ghost content_allowed = { IsStrictBoolean };

    ghost leaf_form = { λ v. IsStrictBoolean (v.value ∷ []) };

    ghost content = { λ v. boolean_octets (not (v.value == 0)) };

    ghost low = { lit< tt };

    ghost fits = { λ v. octet_fits v.value };

    ghost same = { λ v w. octet_same v.value w.value };

    fn check_content(octets: &[u8]) -> Result<(), Error> {
        match octets {
            [0] | [0xff] => Ok(()),
            [_] => Err(Error::DerConstraintFailed(DerConstraint::InvalidBoolean)),
            _ => Err(Error::InvalidLength),
        }
    }

    fn leaf_in_form(&self) -> bool {
        self.value == 0 || self.value == 0xff
    }

    fn leaf_len(&self) -> SerializeResult<usize> {
        Ok(1)
    }

    fn write_leaf<S: Sink>(&self, writer: &mut S) -> SerializeResult<usize> {
        write_all(writer, &[if self.bool() { 0xff } else { 0 }])
    }
}

impl<'a> FromLeaf<'a> for Boolean {
    fn from_content(_alloc: Global, octets: &'a [u8]) -> Result<Boolean, Error> {
        match octets {
            [octet] => Ok(Boolean::new(*octet)),
            _ => Err(Error::InvalidLength),
        }
    }
}
