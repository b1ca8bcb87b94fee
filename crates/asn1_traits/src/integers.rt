//! The integers of 8 to 128 bits, unsigned and signed, as INTEGERs.

ghost use Rattle.std.specs.Prelude.{◌≡◌, pos};
ghost use Rattle.std.proofs.Common.{lit<, lit≤};
ghost use Rattle.asn1_traits.specs.Integers.{IsUnsigned, IsSigned};
ghost use Rattle.asn1_traits.specs.IntegerLaws.{unsigned_small, signed_small};
ghost use Rattle.asn1_traits.specs.IntegerReading.{is_unsigned, is_signed};
ghost use Rattle.asn1_traits.specs.IntegerFits.{unsigned_fitting, signed_fitting};

use crate::integer::{DerInteger, Whole};
use crate::read::Tagged;
use asn1_core::{Class, Error, Tag};

impl Tagged for u8 {
    const TAG: Tag = Tag::Integer;

    ghost tag_number = { 2 };

    fn own_class() -> Class {
        Class::Universal
    }

    fn own_tag() -> Tag {
        Self::TAG
    }
}

impl DerInteger for u8 {
    ghost number = { λ n. pos n };

    ghost in_range = { IsUnsigned 8 };

    ghost fits = { is_unsigned 8 };

    ghost low = { lit< tt };

    ghost small = { unsigned_small 8 (lit≤ tt) };

    ghost fitting = { unsigned_fitting 8 };

    fn to_whole(&self) -> Whole {
        Whole {
            negative: false,
            size: u128::from(*self),
        }
    }

    fn from_whole(whole: Whole) -> Result<u8, Error> {
        if whole.negative {
            return Err(Error::IntegerNegative);
        }
        match u8::try_from(whole.size) {
            Ok(number) => Ok(number),
            Err(_) => Err(Error::IntegerTooLarge),
        }
    }
}

impl Tagged for u16 {
    const TAG: Tag = Tag::Integer;

    ghost tag_number = { 2 };

    fn own_class() -> Class {
        Class::Universal
    }

    fn own_tag() -> Tag {
        Self::TAG
    }
}

impl DerInteger for u16 {
    ghost number = { λ n. pos n };

    ghost in_range = { IsUnsigned 16 };

    ghost fits = { is_unsigned 16 };

    ghost low = { lit< tt };

    ghost small = { unsigned_small 16 (lit≤ tt) };

    ghost fitting = { unsigned_fitting 16 };

    fn to_whole(&self) -> Whole {
        Whole {
            negative: false,
            size: u128::from(*self),
        }
    }

    fn from_whole(whole: Whole) -> Result<u16, Error> {
        if whole.negative {
            return Err(Error::IntegerNegative);
        }
        match u16::try_from(whole.size) {
            Ok(number) => Ok(number),
            Err(_) => Err(Error::IntegerTooLarge),
        }
    }
}

impl Tagged for u32 {
    const TAG: Tag = Tag::Integer;

    ghost tag_number = { 2 };

    fn own_class() -> Class {
        Class::Universal
    }

    fn own_tag() -> Tag {
        Self::TAG
    }
}

impl DerInteger for u32 {
    ghost number = { λ n. pos n };

    ghost in_range = { IsUnsigned 32 };

    ghost fits = { is_unsigned 32 };

    ghost low = { lit< tt };

    ghost small = { unsigned_small 32 (lit≤ tt) };

    ghost fitting = { unsigned_fitting 32 };

    fn to_whole(&self) -> Whole {
        Whole {
            negative: false,
            size: u128::from(*self),
        }
    }

    fn from_whole(whole: Whole) -> Result<u32, Error> {
        if whole.negative {
            return Err(Error::IntegerNegative);
        }
        match u32::try_from(whole.size) {
            Ok(number) => Ok(number),
            Err(_) => Err(Error::IntegerTooLarge),
        }
    }
}

impl Tagged for u64 {
    const TAG: Tag = Tag::Integer;

    ghost tag_number = { 2 };

    fn own_class() -> Class {
        Class::Universal
    }

    fn own_tag() -> Tag {
        Self::TAG
    }
}

impl DerInteger for u64 {
    ghost number = { λ n. pos n };

    ghost in_range = { IsUnsigned 64 };

    ghost fits = { is_unsigned 64 };

    ghost low = { lit< tt };

    ghost small = { unsigned_small 64 (lit≤ tt) };

    ghost fitting = { unsigned_fitting 64 };

    fn to_whole(&self) -> Whole {
        Whole {
            negative: false,
            size: u128::from(*self),
        }
    }

    fn from_whole(whole: Whole) -> Result<u64, Error> {
        if whole.negative {
            return Err(Error::IntegerNegative);
        }
        match u64::try_from(whole.size) {
            Ok(number) => Ok(number),
            Err(_) => Err(Error::IntegerTooLarge),
        }
    }
}

impl Tagged for u128 {
    const TAG: Tag = Tag::Integer;

    ghost tag_number = { 2 };

    fn own_class() -> Class {
        Class::Universal
    }

    fn own_tag() -> Tag {
        Self::TAG
    }
}

impl DerInteger for u128 {
    ghost number = { λ n. pos n };

    ghost in_range = { IsUnsigned 128 };

    ghost fits = { is_unsigned 128 };

    ghost low = { lit< tt };

    ghost small = { unsigned_small 128 (lit≤ tt) };

    ghost fitting = { unsigned_fitting 128 };

    fn to_whole(&self) -> Whole {
        Whole {
            negative: false,
            size: *self,
        }
    }

    fn from_whole(whole: Whole) -> Result<u128, Error> {
        if whole.negative {
            return Err(Error::IntegerNegative);
        }
        Ok(whole.size)
    }
}

impl Tagged for i8 {
    const TAG: Tag = Tag::Integer;

    ghost tag_number = { 2 };

    fn own_class() -> Class {
        Class::Universal
    }

    fn own_tag() -> Tag {
        Self::TAG
    }
}

impl DerInteger for i8 {
    ghost number = { λ n. n };

    ghost in_range = { IsSigned 8 };

    ghost fits = { is_signed 8 };

    ghost low = { lit< tt };

    ghost small = { signed_small 8 (lit≤ tt) };

    ghost fitting = { signed_fitting 8 };

    fn to_whole(&self) -> Whole {
        if *self < 0 {
            Whole {
                negative: true,
                size: (-1 - *self) as u128,
            }
        } else {
            Whole {
                negative: false,
                size: *self as u128,
            }
        }
    }

    fn from_whole(whole: Whole) -> Result<i8, Error> {
        match i8::try_from(whole.size) {
            Ok(number) => Ok(if whole.negative { -1 - number } else { number }),
            Err(_) => Err(Error::IntegerTooLarge),
        }
    }
}

impl Tagged for i16 {
    const TAG: Tag = Tag::Integer;

    ghost tag_number = { 2 };

    fn own_class() -> Class {
        Class::Universal
    }

    fn own_tag() -> Tag {
        Self::TAG
    }
}

impl DerInteger for i16 {
    ghost number = { λ n. n };

    ghost in_range = { IsSigned 16 };

    ghost fits = { is_signed 16 };

    ghost low = { lit< tt };

    ghost small = { signed_small 16 (lit≤ tt) };

    ghost fitting = { signed_fitting 16 };

    fn to_whole(&self) -> Whole {
        if *self < 0 {
            Whole {
                negative: true,
                size: (-1 - *self) as u128,
            }
        } else {
            Whole {
                negative: false,
                size: *self as u128,
            }
        }
    }

    fn from_whole(whole: Whole) -> Result<i16, Error> {
        match i16::try_from(whole.size) {
            Ok(number) => Ok(if whole.negative { -1 - number } else { number }),
            Err(_) => Err(Error::IntegerTooLarge),
        }
    }
}

impl Tagged for i32 {
    const TAG: Tag = Tag::Integer;

    ghost tag_number = { 2 };

    fn own_class() -> Class {
        Class::Universal
    }

    fn own_tag() -> Tag {
        Self::TAG
    }
}

impl DerInteger for i32 {
    ghost number = { λ n. n };

    ghost in_range = { IsSigned 32 };

    ghost fits = { is_signed 32 };

    ghost low = { lit< tt };

    ghost small = { signed_small 32 (lit≤ tt) };

    ghost fitting = { signed_fitting 32 };

    fn to_whole(&self) -> Whole {
        if *self < 0 {
            Whole {
                negative: true,
                size: (-1 - *self) as u128,
            }
        } else {
            Whole {
                negative: false,
                size: *self as u128,
            }
        }
    }

    fn from_whole(whole: Whole) -> Result<i32, Error> {
        match i32::try_from(whole.size) {
            Ok(number) => Ok(if whole.negative { -1 - number } else { number }),
            Err(_) => Err(Error::IntegerTooLarge),
        }
    }
}

impl Tagged for i64 {
    const TAG: Tag = Tag::Integer;

    ghost tag_number = { 2 };

    fn own_class() -> Class {
        Class::Universal
    }

    fn own_tag() -> Tag {
        Self::TAG
    }
}

impl DerInteger for i64 {
    ghost number = { λ n. n };

    ghost in_range = { IsSigned 64 };

    ghost fits = { is_signed 64 };

    ghost low = { lit< tt };

    ghost small = { signed_small 64 (lit≤ tt) };

    ghost fitting = { signed_fitting 64 };

    fn to_whole(&self) -> Whole {
        if *self < 0 {
            Whole {
                negative: true,
                size: (-1 - *self) as u128,
            }
        } else {
            Whole {
                negative: false,
                size: *self as u128,
            }
        }
    }

    fn from_whole(whole: Whole) -> Result<i64, Error> {
        match i64::try_from(whole.size) {
            Ok(number) => Ok(if whole.negative { -1 - number } else { number }),
            Err(_) => Err(Error::IntegerTooLarge),
        }
    }
}

impl Tagged for i128 {
    const TAG: Tag = Tag::Integer;

    ghost tag_number = { 2 };

    fn own_class() -> Class {
        Class::Universal
    }

    fn own_tag() -> Tag {
        Self::TAG
    }
}

impl DerInteger for i128 {
    ghost number = { λ n. n };

    ghost in_range = { IsSigned 128 };

    ghost fits = { is_signed 128 };

    ghost low = { lit< tt };

    ghost small = { signed_small 128 (lit≤ tt) };

    ghost fitting = { signed_fitting 128 };

    fn to_whole(&self) -> Whole {
        if *self < 0 {
            Whole {
                negative: true,
                size: (-1 - *self) as u128,
            }
        } else {
            Whole {
                negative: false,
                size: *self as u128,
            }
        }
    }

    fn from_whole(whole: Whole) -> Result<i128, Error> {
        match i128::try_from(whole.size) {
            Ok(number) => Ok(if whole.negative { -1 - number } else { number }),
            Err(_) => Err(Error::IntegerTooLarge),
        }
    }
}
