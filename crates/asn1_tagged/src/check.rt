//! Whether an element has a chosen class and tag number.

ghost use Rattle.asn1_any.specs.Views.{any_of};
ghost use Rattle.asn1_traits.specs.Reads.{Checks};
ghost use Rattle.asn1_traits.specs.Writes.{IsFormRefusal};
ghost use Rattle.asn1_tagged.specs.Tagging.{IsTagged, IsExplicit};

use asn1_any::Any;
use asn1_core::{Class, Error, SerializeError, Tag};

/// Returns `Ok(())` for an element of this class, by its number, and this tag number; else
/// `UnexpectedTag` or `UnexpectedClass`.
pub(crate) fn check_tagged(any: &Any<'_>, class: u8, tag: u32) -> Result<(), Error>
    ensures { Checks (IsTagged class tag) (any_of any.now) result }
{
    any.tag().assert_eq(Tag(tag))?;
    match Class::try_from(class) {
        Ok(class) => any.class().assert_eq(class),
        Err(_) => Err(Error::UnexpectedClass {
            expected: None,
            actual: any.class(),
        }),
    }
}

/// Returns `Ok(())` for a constructed element of this class and tag number; else `UnexpectedTag`,
/// `UnexpectedClass` or `ConstructExpected`.
pub(crate) fn check_explicit(any: &Any<'_>, class: u8, tag: u32) -> Result<(), Error>
    ensures { Checks (IsExplicit class tag) (any_of any.now) result }
{
    check_tagged(any, class, tag)?;
    any.header.assert_constructed()
}

/// Returns the error for a value that has no DER form under this tag: for a class above 3, that it
/// is none.
pub(crate) fn refusal_under(class: u8, tag: Tag) -> SerializeError
    ensures { IsFormRefusal result }
{
    if class < 4 {
        SerializeError::ASN1Error(tag.invalid_value("the value is not in DER form"))
    } else {
        SerializeError::InvalidClass { class }
    }
}
