//! Parts of certificates and of revocation lists, as a digest takes them.

use crate::digest::Digest;
use x509_parser::extensions::X509Extension;
use x509_parser::time::ASN1Time;

/// A moment, before or after 1970.
pub(crate) fn note_time(digest: &mut Digest, time: ASN1Time) {
    let seconds = time.timestamp();
    digest.flag(seconds < 0);
    digest.number(seconds.unsigned_abs());
}

/// Each extension: its identifier, whether it is critical, its value, and whether that value was parsed.
pub(crate) fn note_extensions(digest: &mut Digest, extensions: &[X509Extension<'_>]) {
    digest.number(extensions.len() as u64);
    for extension in extensions {
        digest.octets(extension.oid.as_bytes());
        digest.flag(extension.critical);
        digest.octets(extension.value);
        digest.flag(extension.parsed_extension().unsupported());
        digest.flag(extension.parsed_extension().error().is_some());
    }
}
