//! No two extensions of one identifier (RFC 5280, 4.2).

ghost use Rattle.std.specs.Prelude.{◌≡◌, ◌↔◌, map, IsTrue, IfOk};
ghost use Rattle.std.specs.BTreeSet as sorted;
ghost use Rattle.cert_model.specs.View.{ext_view};
ghost use Rattle.cert_model.specs.Extended.{AreDistinct};

use cert_model::fields::ExtField;
use std::alloc::{AllocError, Global};
use std::collections::BTreeSet;

fn identifiers_of<'a>(
    alloc: Global,
    extensions: &[ExtField<'a>],
) -> Result<BTreeSet<&'a [u8]>, AllocError>
    ensures { IfOk result (sorted.IsFromIterResult ⟦<&'a [u8] as Ord>⟧.cmp (map (λ e. e.identifier) extensions.now)) }
{
    extensions
        .iter()
        .map(|extension| extension.identifier)
        .collect(alloc)
}

/// Whether no two extensions have one identifier. Takes memory for a set of them.
pub(crate) fn are_distinct(alloc: Global, extensions: &[ExtField<'_>]) -> Result<bool, AllocError>
    ensures { IfOk result (λ yes. IsTrue yes ↔ AreDistinct (map ext_view extensions.now)) }
{
    let identifiers = identifiers_of(alloc, extensions)?;
    let count = identifiers.len();
    Ok(count == extensions.len())
}
