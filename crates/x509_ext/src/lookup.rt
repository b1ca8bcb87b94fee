//! Looking extensions up by their identifiers.

ghost use Rattle.std.specs.Prelude.{◌≡◌, option_map};
ghost use Rattle.x509_ext.specs.Lookup.{all_of, first_of, only_of, seen};

use crate::extension::X509Extension;
use asn1_oid::Oid;
use x509_core::X509Error;

/// The extension with this identifier, or `None` if there is none.
///
/// # Errors
///
/// `DuplicateExtensions` if several extensions have the identifier (RFC 5280, 4.2).
pub fn get_extension_unique<'n, 'a>(
    extensions: &'n [X509Extension<'a>],
    oid: &Oid<'_>,
) -> Result<Option<&'n X509Extension<'a>>, X509Error>
    ensures { seen (λ e. e.now) result ≡ only_of (all_of oid.now extensions.now) }
{
    for at in 0..extensions.len() {
        let extension = &extensions[at];
        if extension.oid == *oid {
            return match find_extension(&extensions[at + 1..], oid) {
                Some(_) => Err(X509Error::DuplicateExtensions),
                None => Ok(Some(extension)),
            };
        }
    }
    Ok(None)
}

/// The first extension with this identifier, or `None`.
pub fn find_extension<'n, 'a>(
    extensions: &'n [X509Extension<'a>],
    oid: &Oid<'_>,
) -> Option<&'n X509Extension<'a>>
    ensures { option_map (λ e. e.now) result ≡ first_of (all_of oid.now extensions.now) }
{
    for extension in extensions {
        if extension.oid == *oid {
            return Some(extension);
        }
    }
    None
}
