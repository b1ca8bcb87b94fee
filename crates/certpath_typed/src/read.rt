//! Certificates and lists, if the readers read all of an item.

ghost use Rattle.std.specs.Prelude.{◌≡◌, ◌+◌, ◌*◌, ◌^◌, ◌<◌, ◌≤◌, length, IfOk, IfSome, MatchOption};
ghost use Rattle.asn1_core.specs.Counts.{attempts};
ghost use Rattle.cert_model.specs.Class.{IsCertificateItem, IsListItem};
ghost use Rattle.cert_model.specs.Fields.{Certificate, RevocationList};
ghost use Rattle.x509_links.specs.Readers.{certificate_view, list_view};
ghost use Rattle.x509_links.specs.Lenient.{lenient_certificate, lenient_list};

use asn1_core::{Err as Refusal, HeaderCount, OutOfMemory};
use std::alloc::Global;
use x509_links::{
    CertificateRevocationList, CertificateRevocationListParser, X509Certificate,
    X509CertificateParser,
};

/// Returns the certificate as which the item is read, if the reader reads all of it.
pub(crate) fn certificate_read<'a>(
    alloc: Global,
    item: &'a [u8],
    count: &mut HeaderCount,
) -> Result<Option<X509Certificate<'a>>, OutOfMemory>
    requires { attempts count.old + 8 * length item.now < 2 ^ 128 }
    ensures read { IfOk result (λ o. MatchOption o ((c : Certificate) → ¬ IsCertificateItem item.now c)
        (λ r. (c : Certificate) → IsCertificateItem item.now c → certificate_view r ≡ lenient_certificate c)) }
    ensures least { IfOk result (λ o. IfSome o (λ _. attempts count.old + 17 ≤ attempts count.new)) }
    ensures grows { attempts count.old ≤ attempts count.new }
    ensures most { attempts count.new ≤ attempts count.old + 8 * length item.now }
{
    let parser = X509CertificateParser::new().with_deep_parse_extensions(false);
    match parser.parse_counted(alloc, item, count) {
        Ok((rest, certificate)) => {
            if rest.is_empty() {
                Ok(Some(certificate))
            } else {
                Ok(None)
            }
        }
        Err(refusal) => match refusal {
            Refusal::Failure(_) => Err(OutOfMemory),
            _ => Ok(None),
        },
    }
}

/// Returns the revocation list as which the item is read, if the reader reads all of it.
pub(crate) fn list_read<'a>(
    alloc: Global,
    item: &'a [u8],
    count: &mut HeaderCount,
) -> Result<Option<CertificateRevocationList<'a>>, OutOfMemory>
    requires { attempts count.old + 8 * length item.now < 2 ^ 128 }
    ensures read { IfOk result (λ o. MatchOption o ((l : RevocationList) → ¬ IsListItem item.now l)
        (λ r. (l : RevocationList) → IsListItem item.now l → list_view r ≡ lenient_list l)) }
    ensures least { IfOk result (λ o. IfSome o (λ _. attempts count.old + 9 ≤ attempts count.new)) }
    ensures grows { attempts count.old ≤ attempts count.new }
    ensures most { attempts count.new ≤ attempts count.old + 8 * length item.now }
{
    let parser = CertificateRevocationListParser::new().with_deep_parse_extensions(false);
    match parser.parse_counted(alloc, item, count) {
        Ok((rest, list)) => {
            if rest.is_empty() {
                Ok(Some(list))
            } else {
                Ok(None)
            }
        }
        Err(refusal) => match refusal {
            Refusal::Failure(_) => Err(OutOfMemory),
            _ => Ok(None),
        },
    }
}
