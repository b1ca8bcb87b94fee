//! Certificates, and their signed parts by themselves.

ghost use Rattle.std.specs.Prelude.{⊤};

use crate::walk::record::{Count, Record, add_record};
use rows_hex::Added;
use x509_parser::certificate::{TbsCertificate, X509Certificate};
use x509_parser::visitor::{CertVisit, CertVisits, X509CertificateVisitor};

impl CertVisits for Count {
    ghost sees = { λ old call new. ⊤ };

    fn visit(&mut self, _call: CertVisit<'_, '_>) {
        self.add();
    }
}

/// Adds the calls of a walk over the certificate.
pub(crate) fn add_certificate(text: &mut String, certificate: &X509Certificate<'_>) -> Added {
    let alloc = *text.allocator();
    let mut methods = Record::new(alloc);
    methods.walk(certificate);
    let mut other = Record::new(alloc);
    certificate.walk(&mut other);
    let mut count = Count::new();
    certificate.walk_visits(&mut count);
    add_record(text, &methods, &other, count)
}

/// Adds the calls of a walk over the signed part.
pub(crate) fn add_tbs(text: &mut String, tbs: &TbsCertificate<'_>) -> Added {
    let mut methods = Record::new(*text.allocator());
    tbs.walk(&mut methods);
    let mut count = Count::new();
    tbs.walk_visits(&mut count);
    add_record(text, &methods, &methods, count)
}
