//! Copies, and serial numbers as text.

use crate::words::{Words, had};
use asn1_core::OutOfMemory;
use rows_hex::Added;
use std::alloc::Global;
use std::slice;
use x509_parser::certificate::X509Certificate;
use x509_parser::cri_attributes::X509CriAttribute;
use x509_parser::revocation_list::{CertificateRevocationList, RevokedCertificate};

/// A type whose values are copied.
pub(crate) trait Copied: Sized {
    /// The copy.
    fn copied(&self, alloc: Global) -> Result<Self, OutOfMemory>;
}

impl Copied for X509Certificate<'_> {
    fn copied(&self, alloc: Global) -> Result<Self, OutOfMemory> {
        self.clone(alloc)
    }
}

impl Copied for CertificateRevocationList<'_> {
    fn copied(&self, alloc: Global) -> Result<Self, OutOfMemory> {
        self.clone(alloc)
    }
}

impl Copied for X509CriAttribute<'_> {
    fn copied(&self, alloc: Global) -> Result<Self, OutOfMemory> {
        self.clone(alloc)
    }
}

/// Adds whether a copy has the words of the value.
pub(crate) fn add_copy<T: Copied + Words + Drop>(text: &mut String, value: &T) -> Added {
    let copy = had(value.copied(*text.allocator()))?;
    add_same(text, value, &copy)
}

fn add_same<T: Words>(text: &mut String, value: &T, copy: &T) -> Added {
    let mut words = String::new(*text.allocator());
    value.add_words(&mut words)?;
    let mut others = String::new(*text.allocator());
    copy.add_words(&mut others)?;
    text.push_str(if words.as_str() == others.as_str() {
        "the same"
    } else {
        "another"
    })
}

/// Adds a serial number.
pub(crate) fn add_serial(text: &mut String, serial: Result<String, OutOfMemory>) -> Added {
    let serial = had(serial)?;
    text.push_str(&serial)
}

/// A type whose values have a serial number.
pub(crate) trait Numbered {
    /// The serial number as text.
    fn number(&self, alloc: Global) -> Result<String, OutOfMemory>;
}

impl Numbered for RevokedCertificate<'_> {
    fn number(&self, alloc: Global) -> Result<String, OutOfMemory> {
        self.raw_serial_as_string(alloc)
    }
}

/// Adds the serial number of each, behind a blank.
pub(crate) fn add_serials<T: Numbered>(text: &mut String, entries: slice::Iter<'_, T>) -> Added {
    text.push_str("serials")?;
    for entry in entries {
        text.push(' ')?;
        add_serial(text, entry.number(*text.allocator()))?;
    }
    Ok(())
}
