//! The last line that is said: how many items there are, and how often something was left out.

ghost use Rattle.std.specs.Prelude.{◌≡◌, ◌++◌, ◌+◌, OnOk, string_bytes, codes};
ghost use Rattle.certpath_bundle.specs.Words.{counted};
ghost use Rattle.certpath_bundle.specs.Bundles.{summary, kinds_text};
ghost use Rattle.certpath_bundle.specs.CountViews.{counts_view};

use crate::counts::{Counts, sum_of};
use crate::words::push_counted;
use std::alloc::AllocError;

/// Appends how many certificates and lists there are.
fn push_kinds(text: &mut String, counts: Counts) -> Result<(), AllocError>
    ensures { OnOk result (string_bytes text.new ≡ string_bytes text.old ++ kinds_text (counts_view counts)) }
{
    text.push_str(" (")?;
    push_counted(text, counts.certificates, "certificate")?;
    text.push_str(", ")?;
    push_counted(text, counts.lists, "list")?;
    text.push_str("), ")
}

/// Appends the last line.
pub(crate) fn push_summary(text: &mut String, counts: Counts) -> Result<(), AllocError>
    ensures { OnOk result (string_bytes text.new ≡ string_bytes text.old ++ summary (counts_view counts)) }
{
    let items = sum_of(counts.certificates, counts.lists)?;
    text.push_str("bundle: ")?;
    push_counted(text, items, "item")?;
    push_kinds(text, counts)?;
    let left_out = counts.left_out;
    writeln!(text, "{left_out} left out")
}
