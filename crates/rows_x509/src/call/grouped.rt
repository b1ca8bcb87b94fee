//! Values by identifier.

use crate::kinds::Grouped;
use asn1_core::OutOfMemory;
use asn1_oid::Oid;
use asn1_traits::FromDer;
use rows_hex::Added;
use std::alloc::AllocError;
use std::collections::BTreeMap;
use std::fmt::Display;
use x509_core::X509Error;
use x509_ext_names::{AuthorityInfoAccess, SubjectInfoAccess};
use x509_ext_policies::PolicyMappings;

type Groups<'a, T> = Result<BTreeMap<Oid<'a>, Vec<T>>, OutOfMemory>;

/// Adds each identifier with its values, lent or handed over.
fn add_groups<T: Display + Drop>(text: &mut String, groups: Groups<'_, T>) -> Added {
    match groups {
        Ok(groups) => add_each(text, &groups),
        Err(OutOfMemory) => Err(AllocError),
    }
}

fn add_each<T: Display>(text: &mut String, groups: &BTreeMap<Oid<'_>, Vec<T>>) -> Added {
    for (oid, values) in groups.iter() {
        add_group(text, oid, values)?;
    }
    Ok(())
}

/// Adds the identifier and each value, behind a blank.
fn add_group<T: Display>(text: &mut String, oid: &Oid<'_>, values: &[T]) -> Added {
    write!(text, " {oid}")?;
    for value in values {
        write!(text, " {value}")?;
    }
    text.push(';')
}

/// A type whose values have parts that stand in groups.
trait Grouping: Sized {
    /// Adds the groups, lent.
    fn add_lent(&self, text: &mut String) -> Added;

    /// Adds the groups, handed over.
    fn add_given(self, text: &mut String) -> Added;
}

impl Grouping for AuthorityInfoAccess<'_> {
    fn add_lent(&self, text: &mut String) -> Added {
        let alloc = *text.allocator();
        add_groups(text, self.as_hashmap(alloc))
    }

    fn add_given(self, text: &mut String) -> Added {
        let alloc = *text.allocator();
        add_groups(text, self.into_hashmap(alloc))
    }
}

impl Grouping for SubjectInfoAccess<'_> {
    fn add_lent(&self, text: &mut String) -> Added {
        let alloc = *text.allocator();
        add_groups(text, self.as_hashmap(alloc))
    }

    fn add_given(self, text: &mut String) -> Added {
        let alloc = *text.allocator();
        add_groups(text, self.into_hashmap(alloc))
    }
}

impl Grouping for PolicyMappings<'_> {
    fn add_lent(&self, text: &mut String) -> Added {
        let alloc = *text.allocator();
        add_groups(text, self.as_hashmap(alloc))
    }

    fn add_given(self, text: &mut String) -> Added {
        let alloc = *text.allocator();
        add_groups(text, self.into_hashmap(alloc))
    }
}

/// Adds the groups of the value that begins the octets.
fn add_groups_of<'a, T: FromDer<'a, X509Error> + Grouping + Drop>(
    text: &mut String,
    octets: &'a [u8],
    absent: &str,
) -> Added {
    let alloc = *text.allocator();
    match T::from_der(alloc, octets) {
        Ok((_, value)) => {
            text.push_str("lent")?;
            value.add_lent(text)?;
            text.push_str(" given")?;
            value.add_given(text)
        }
        Err(_) => text.push_str(absent),
    }
}

/// Adds the places of what an issuer or a subject offers, by what is to be had there, or the subject's policies by the issuer's.
pub(crate) fn add_grouped(text: &mut String, call: Grouped, octets: &[u8]) -> Added {
    match call {
        Grouped::AuthorityInfo => {
            add_groups_of::<AuthorityInfoAccess<'_>>(text, octets, "no places")
        }
        Grouped::SubjectInfo => add_groups_of::<SubjectInfoAccess<'_>>(text, octets, "no places"),
        Grouped::Mappings => add_groups_of::<PolicyMappings<'_>>(text, octets, "no mappings"),
    }
}
