//! Copies of vectors of extensions.

ghost use Rattle.std.specs.Prelude.{◌≡◌, IfOk, map};
ghost use Rattle.x509_ext.specs.View.{extension_view, extension_error};

use crate::extension::X509Extension;
use asn1_core::OutOfMemory;
use std::alloc::Global;
use x509_items::copy_all;

/// Copies extensions in order; each copy borrows the same octets.
///
/// # Errors
///
/// Out of memory.
pub fn copy_extensions<'a>(
    alloc: Global,
    extensions: &[X509Extension<'a>],
) -> Result<Vec<X509Extension<'a>>, OutOfMemory>
    ensures value { IfOk result (λ copies. map extension_view copies.items ≡ map extension_view extensions.now) }
    ensures errors { IfOk result (λ copies. map extension_error copies.items ≡ map extension_error extensions.now) }
{
    copy_all(alloc, extensions)
}
