//! Revocation lists and their entries.

use crate::call::copies::{add_copy, add_serials};
use crate::call::maps::add_list_maps;
use crate::called::Called;
use crate::kinds::{OfEntry, OfList, OfSignedList};
use crate::walk;
use crate::words::{Words, add, add_each, add_words_before, count_text};
use asn1_core::HeaderCount;
use rows_hex::{Added, add_hex};
use std::alloc::Global;
use x509_parser::revocation_list::{
    CertificateRevocationList, CertificateRevocationListParser, RevokedCertificate, TbsCertList,
};

/// Whether a list is read, and whether the number of headers that were tried is in its bounds: at most eight for each octet,
/// and at least nine of a list.
pub(crate) fn counted_list(alloc: Global, octets: &[u8]) -> &'static str {
    let mut count = HeaderCount::new();
    let is_read = CertificateRevocationListParser::new()
        .parse_counted(alloc, octets, &mut count)
        .is_ok();
    count_text(is_read, count.get(), 9, octets.len())
}

impl Called<OfList> for CertificateRevocationList<'_> {
    fn add_called(&self, text: &mut String, call: OfList, rest: &[u8]) -> Added {
        match call {
            OfList::Words => add_words_before(text, self, rest),
            OfList::Copy => add_copy(text, self),
            OfList::Serials => add_serials(text, self.iter_revoked_certificates()),
            OfList::Map => add_list_maps(text, self),
            OfList::Number => add_number(text, self),
            OfList::Walk => walk::list::add_list(text, self),
        }
    }
}

impl Called<OfSignedList> for TbsCertList<'_> {
    fn add_called(&self, text: &mut String, call: OfSignedList, rest: &[u8]) -> Added {
        match call {
            OfSignedList::Words => add_words_before(text, self, rest),
            OfSignedList::Walk => walk::list::add_tbs(text, self),
        }
    }
}

impl Called<OfEntry> for RevokedCertificate<'_> {
    fn add_called(&self, text: &mut String, call: OfEntry, rest: &[u8]) -> Added {
        match call {
            OfEntry::Words => add_words_before(text, self, rest),
            OfEntry::Reason => add_reason(text, self),
            OfEntry::Date => add_date(text, self),
        }
    }
}

/// Adds the number of the list.
fn add_number(text: &mut String, list: &CertificateRevocationList<'_>) -> Added {
    match list.crl_number() {
        Some(number) => add_hex(text, number.as_bytes()),
        None => text.push_str("none"),
    }
}

/// Adds why the entry's certificate was revoked.
fn add_reason(text: &mut String, entry: &RevokedCertificate<'_>) -> Added {
    match entry.reason_code() {
        Some((critical, reason)) => write!(text, "{reason}, critical {critical}"),
        None => text.push_str("none"),
    }
}

/// Adds since when the entry's certificate is thought to be invalid.
fn add_date(text: &mut String, entry: &RevokedCertificate<'_>) -> Added {
    match entry.invalidity_date() {
        Some((critical, date)) => write!(text, "{}, critical {critical}", date.timestamp()),
        None => text.push_str("none"),
    }
}

impl Words for RevokedCertificate<'_> {
    fn add_words(&self, text: &mut String) -> Added {
        add_hex(text, self.raw_serial())?;
        text.push_str(", number ")?;
        add_hex(text, self.serial().as_bytes())?;
        text.push_str(", ")?;
        self.revocation_date.add_words(text)?;
        add_each(text, "  extension", self.iter_extensions())
    }
}

impl Words for TbsCertList<'_> {
    fn add_words(&self, text: &mut String) -> Added {
        add_hex(text, self.as_ref())?;
        if let Some(version) = &self.version {
            write!(text, "\n  version {version}")?;
        }
        add(text, "signature", &self.signature)?;
        add(text, "issuer", &self.issuer)?;
        add(text, "this update", &self.this_update)?;
        if let Some(time) = &self.next_update {
            add(text, "next update", time)?;
        }
        add_each(text, "revoked", self.revoked_certificates.iter())?;
        add_each(text, "extension", self.iter_extensions())
    }
}

impl Words for CertificateRevocationList<'_> {
    fn add_words(&self, text: &mut String) -> Added {
        self.tbs_cert_list.add_words(text)?;
        add(text, "algorithm", &self.signature_algorithm)?;
        add(text, "signature value", &self.signature_value)?;
        text.push_str("\n  of ")?;
        add_hex(text, self.as_raw())
    }
}
