//! Revocation lists, and their signed parts by themselves.

ghost use Rattle.std.specs.Prelude.{⊤};

use crate::walk::record::{Count, Record, add_record};
use rows_hex::Added;
use x509_parser::revocation_list::{CertificateRevocationList, TbsCertList};
use x509_parser::visitor::{CertificateRevocationListVisitor, ListVisit, ListVisits};

impl ListVisits for Count {
    ghost sees = { λ old call new. ⊤ };

    fn visit(&mut self, _call: ListVisit<'_, '_>) {
        self.add();
    }
}

/// Adds the calls of a walk over the list.
pub(crate) fn add_list(text: &mut String, list: &CertificateRevocationList<'_>) -> Added {
    let alloc = *text.allocator();
    let mut methods = Record::new(alloc);
    methods.walk(list);
    let mut other = Record::new(alloc);
    list.walk(&mut other);
    let mut count = Count::new();
    list.walk_visits(&mut count);
    add_record(text, &methods, &other, count)
}

/// Adds the calls of a walk over the signed part.
pub(crate) fn add_tbs(text: &mut String, tbs: &TbsCertList<'_>) -> Added {
    let mut methods = Record::new(*text.allocator());
    tbs.walk(&mut methods);
    let mut count = Count::new();
    tbs.walk_visits(&mut count);
    add_record(text, &methods, &methods, count)
}
