//! Extensions whose identifier comes before them (RFC 5280, 4.2).

ghost use Rattle.std.specs.Prelude.{◌≡◌, length, IfOk};
ghost use Rattle.cert_reasons.specs.Repeats.{AreRepeats};

use cert_model::fields::ExtField;
use std::alloc::{AllocError, Global};
use std::collections::BTreeSet;

/// Of each extension, whether one of its identifier comes before it. Takes as many comparisons
/// of identifiers as a sorted set of them.
pub(crate) fn repeats_of(
    alloc: Global,
    extensions: &[ExtField<'_>],
) -> Result<Vec<bool>, AllocError>
    ensures { IfOk result (λ repeats. AreRepeats extensions.now (length extensions.now) repeats.items) }
{
    let mut seen = BTreeSet::new(alloc);
    let mut repeats = Vec::with_capacity(alloc, extensions.len())?;
    for extension in extensions {
        let added = seen.insert(extension.identifier)?;
        repeats.push(!added)?;
    }
    Ok(repeats)
}
