//! `Enumerated` (X.690, 8.4).

ghost use Rattle.std.specs.Prelude.{◌≡◌, pos};
ghost use Rattle.std.proofs.Common.{lit<, lit≤};
ghost use Rattle.asn1_traits.specs.Integers.{IsUnsigned};
ghost use Rattle.asn1_traits.specs.IntegerLaws.{unsigned_small};
ghost use Rattle.asn1_traits.specs.IntegerReading.{is_unsigned};
ghost use Rattle.asn1_traits.specs.IntegerFits.{unsigned_fitting};
ghost use Rattle.asn1_traits.specs.Wholes.{whole_of, FitsWhole};
ghost use Rattle.asn1_values.specs.Readers.{Gives, enumerated_of};

use asn1_core::{Class, Error, Tag};
use asn1_traits::{DerInteger, Tagged, Whole};

/// An ENUMERATED: its number, which is read and written as the content of an INTEGER (X.690, 8.4).
#[derive(Clone, Copy, Debug, PartialEq, Eq)]
pub struct Enumerated(pub u32);

impl Enumerated {
    /// Returns the value of this number.
    pub fn new(value: u32) -> Enumerated
        ensures { result.0 ≡ value }
    {
        Enumerated(value)
    }
}

impl Tagged for Enumerated {
    const TAG: Tag = Tag::Enumerated;

    ghost tag_number = { 10 };

    fn own_class() -> Class {
        Class::Universal
    }

    fn own_tag() -> Tag {
        Self::TAG
    }
}

impl DerInteger for Enumerated {
    ghost number = { λ v. pos v.0 };

    ghost in_range = { IsUnsigned 32 };

    ghost fits = { is_unsigned 32 };

    ghost fitting = { unsigned_fitting 32 };

    ghost low = { lit< tt };

    ghost small = { unsigned_small 32 (lit≤ tt) };

    fn to_whole(&self) -> Whole {
        Whole {
            negative: false,
            size: u128::from(self.0),
        }
    }

    fn from_whole(whole: Whole) -> Result<Enumerated, Error>
        ensures number { FitsWhole (λ v. pos v.0) (IsUnsigned 32) (whole_of whole) result }
        ensures exact { Gives (λ v. v.0) result (enumerated_of (whole_of whole)) }
    {
        if whole.negative {
            return Err(Error::IntegerNegative);
        }
        match u32::try_from(whole.size) {
            Ok(number) => Ok(Enumerated(number)),
            Err(_) => Err(Error::IntegerTooLarge),
        }
    }
}
