//! The type of a tagged value.

ghost use Rattle.std.specs.Prelude.{◌≡◌, nat_lt, if◌then◌else◌};

use asn1_core::{Class, Tag};
use asn1_traits::Tagged;
use std::convert::AsRef;
use std::marker::PhantomData;

/// The tag is written before the value's own tag, around its whole encoding (X.690, 8.14.2).
#[derive(Clone, Copy, Debug, PartialEq, Eq)]
pub struct Explicit;

/// The tag is written in place of the value's own tag (X.690, 8.14.3).
#[derive(Clone, Copy, Debug, PartialEq, Eq)]
pub struct Implicit;

/// A value with the tag of class `CLASS` and number `TAG`, as `[0] EXPLICIT Version` in a
/// certificate; `Kind` is `Explicit` or `Implicit`, and `E` is the error of its readers. A `CLASS`
/// above 3 is no class: nothing is read or written of it.
#[derive(Debug, Drop, PartialEq, Eq)]
pub struct TaggedValue<T, E, Kind, const CLASS: u8, const TAG: u32> {
    pub inner: T,
    kind: PhantomData<Kind>,
    error: PhantomData<E>,
}

/// A value with an explicit context-specific tag.
pub type TaggedExplicit<T, E, const TAG: u32> = TaggedValue<T, E, Explicit, 2, TAG>;

/// A value with an implicit context-specific tag.
pub type TaggedImplicit<T, E, const TAG: u32> = TaggedValue<T, E, Implicit, 2, TAG>;

/// A value with an explicit tag of one application.
pub type ApplicationExplicit<T, E, const TAG: u32> = TaggedValue<T, E, Explicit, 1, TAG>;

/// A value with an implicit tag of one application.
pub type ApplicationImplicit<T, E, const TAG: u32> = TaggedValue<T, E, Implicit, 1, TAG>;

/// A value with an explicit tag of one enterprise.
pub type PrivateExplicit<T, E, const TAG: u32> = TaggedValue<T, E, Explicit, 3, TAG>;

/// A value with an implicit tag of one enterprise.
pub type PrivateImplicit<T, E, const TAG: u32> = TaggedValue<T, E, Implicit, 3, TAG>;

/// A value with an explicit context-specific tag, or none.
pub type OptTaggedExplicit<T, E, const TAG: u32> = Option<TaggedExplicit<T, E, TAG>>;

/// A value with an implicit context-specific tag, or none.
pub type OptTaggedImplicit<T, E, const TAG: u32> = Option<TaggedImplicit<T, E, TAG>>;

impl<T, E, const CLASS: u8, const TAG: u32> TaggedValue<T, E, Explicit, CLASS, TAG> {
    /// Returns the value with an explicit tag.
    pub fn explicit(inner: T) -> Self
        ensures { result.inner ≡ inner }
    {
        TaggedValue {
            inner,
            kind: PhantomData,
            error: PhantomData,
        }
    }
}

impl<T, E, const CLASS: u8, const TAG: u32> TaggedValue<T, E, Implicit, CLASS, TAG> {
    /// Returns the value with an implicit tag.
    pub fn implicit(inner: T) -> Self
        ensures { result.inner ≡ inner }
    {
        TaggedValue {
            inner,
            kind: PhantomData,
            error: PhantomData,
        }
    }
}

impl<T, E, Kind, const CLASS: u8, const TAG: u32> TaggedValue<T, E, Kind, CLASS, TAG> {
    /// Returns the value without its tag.
    pub fn into_inner(self) -> T
        ensures { result ≡ self.inner }
    {
        self.inner
    }

    /// Returns the number of the class.
    pub fn class(&self) -> u8
        ensures { result ≡ CLASS }
    {
        CLASS
    }

    /// Returns the tag number.
    pub fn tag(&self) -> Tag
        ensures { result.0 ≡ TAG }
    {
        Tag(TAG)
    }
}

impl<T, E, Kind, const CLASS: u8, const TAG: u32> AsRef<T> for TaggedValue<T, E, Kind, CLASS, TAG> {
    fn as_ref(&self) -> &T
        ensures { result.now ≡ self.now.inner }
    {
        &self.inner
    }
}

impl<T, E, Kind, const CLASS: u8, const TAG: u32> Tagged for TaggedValue<T, E, Kind, CLASS, TAG> {
    const TAG: Tag = Tag(TAG);

    ghost own_class_number = { if nat_lt CLASS 4 then CLASS else 0 };

    ghost tag_number = { TAG };

    // (universal if `CLASS` is no class, of which there is no element)
    fn own_class() -> Class {
        match Class::try_from(CLASS) {
            Ok(class) => class,
            Err(_) => Class::Universal,
        }
    }

    fn own_tag() -> Tag {
        Tag(TAG)
    }
}
