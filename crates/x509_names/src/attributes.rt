//! Iterators over the attributes of a name.

ghost use Rattle.std.specs.Prelude.{◌≡◌, []};
ghost use Rattle.std.specs.Iterator.{YieldsFirstRef, item_count};
ghost use Rattle.std.specs.List.{filter};
ghost use Rattle.x509_names.specs.View.{attributes_in, has_type};

use crate::attribute::AttributeTypeAndValue;
use crate::relative::RelativeDistinguishedName;
use std::marker::Model;
use std::slice;

/// An iterator over the attributes of all sets of a name, in the order of the encoding.
#[derive(Drop)]
pub struct Attributes<'n, 'a> {
    set: slice::Iter<'n, AttributeTypeAndValue<'a>>,
    sets: slice::Iter<'n, RelativeDistinguishedName<'a>>,
}

impl<'n, 'a> Model for Attributes<'n, 'a> {
    ghost use Rattle.std.specs.Prelude.{List, ◌++◌};
    ghost use Rattle.std.specs.Slice.Iter.{iter_rest};
    ghost use Rattle.x509_names.specs.declared.attribute.AttributeTypeAndValue.{AttributeTypeAndValue as Attribute};
    ghost use Rattle.x509_names.specs.View.{attributes_in};

    ghost Value = { List Attribute };

    ghost view = { λ it. iter_rest it.set ++ attributes_in (iter_rest it.sets) };
}

impl<'n, 'a> Attributes<'n, 'a> {
    pub(crate) fn new(sets: &'n [RelativeDistinguishedName<'a>]) -> Attributes<'n, 'a>
        ensures { result ≡ attributes_in sets.now }
    {
        Attributes {
            set: no_attributes().iter(),
            sets: sets.iter(),
        }
    }

    /// Restricts the iterator to attributes whose type has these content octets.
    pub(crate) fn of_type(self, identifier: &'n [u8]) -> AttributesOf<'n, 'a>
        ensures { result ≡ filter (has_type identifier.now) self.entry }
    {
        AttributesOf {
            attributes: self,
            identifier,
        }
    }
}

fn no_attributes<'n, 'a>() -> &'n [AttributeTypeAndValue<'a>]
    ensures { result.now ≡ [] }
{
    &[]
}

impl<'n, 'a> Iterator for Attributes<'n, 'a> {
    type Item = &'n AttributeTypeAndValue<'a>;

    ghost next_gives = { YieldsFirstRef (λ left. left) };

    ghost remaining = { item_count (λ left. left) };

    fn next(&mut self) -> Option<&'n AttributeTypeAndValue<'a>> {
        loop {
            if let Some(attribute) = self.set.next() {
                return Some(attribute);
            }
            let set = self.sets.next()?;
            self.set = set.iter();
        }
    }
}

/// An iterator over the attributes of one type, in the order of the encoding.
#[derive(Drop)]
pub struct AttributesOf<'n, 'a> {
    attributes: Attributes<'n, 'a>,
    identifier: &'n [u8],
}

impl<'n, 'a> Model for AttributesOf<'n, 'a> {
    ghost use Rattle.std.specs.Prelude.{List};
    ghost use Rattle.std.specs.List.{filter};
    ghost use Rattle.x509_names.specs.declared.attribute.AttributeTypeAndValue.{AttributeTypeAndValue as Attribute};
    ghost use Rattle.x509_names.specs.View.{has_type};

    ghost Value = { List Attribute };

    ghost view = { λ it. filter (has_type it.identifier.now) it.attributes };
}

impl<'n, 'a> Iterator for AttributesOf<'n, 'a> {
    type Item = &'n AttributeTypeAndValue<'a>;

    ghost next_gives = { YieldsFirstRef (λ left. left) };

    ghost remaining = { item_count (λ left. left) };

    fn next(&mut self) -> Option<&'n AttributeTypeAndValue<'a>> {
        while let Some(attribute) = self.attributes.next() {
            if attribute.attr_type().as_bytes() == self.identifier {
                return Some(attribute);
            }
        }
        None
    }
}
