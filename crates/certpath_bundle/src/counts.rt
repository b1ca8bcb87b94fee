//! How many certificates and lists there are, and how often something was left out.

ghost use Rattle.std.specs.Prelude.{◌≡◌, ◌+◌, IfOk, map};
ghost use Rattle.std.specs.List.{fold};
ghost use Rattle.certpath_files.specs.RowViews.{row_view};
ghost use Rattle.certpath_files.specs.ShapeViews.{kind_view};
ghost use Rattle.certpath_bundle.specs.Counts.{with_item, with_row, with_rows};
ghost use Rattle.certpath_bundle.specs.CountViews.{counts_view};

use certpath_files::{Kind, Row};
use std::alloc::AllocError;

/// What a bundle has.
#[derive(Clone, Copy)]
pub(crate) struct Counts {
    pub(crate) certificates: usize,
    pub(crate) lists: usize,
    pub(crate) left_out: usize,
}

/// The sum; refused as memory is if it doesn't fit, which needs more rows than memory has.
pub(crate) fn sum_of(one: usize, other: usize) -> Result<usize, AllocError>
    ensures { IfOk result (λ sum. sum ≡ one + other) }
{
    match one.checked_add(other) {
        Some(sum) => Ok(sum),
        None => Err(AllocError),
    }
}

/// The counts with one item more.
fn with_item(counts: Counts, kind: Kind) -> Result<Counts, AllocError>
    ensures { IfOk result (λ more. counts_view more ≡ with_item (counts_view counts) (kind_view kind)) }
{
    match kind {
        Kind::Certificate => {
            let certificates = sum_of(counts.certificates, 1)?;
            Ok(Counts {
                certificates,
                ..counts
            })
        }
        Kind::List => {
            let lists = sum_of(counts.lists, 1)?;
            Ok(Counts { lists, ..counts })
        }
    }
}

/// The counts with one row more.
fn with_row(counts: Counts, row: Row<'_>) -> Result<Counts, AllocError>
    ensures { IfOk result (λ more. counts_view more ≡ with_row (counts_view counts) (row_view row.entry)) }
{
    match row {
        Row::Item(_, kind, _) => with_item(counts, kind),
        Row::LeftOut(_, _) => {
            let left_out = sum_of(counts.left_out, 1)?;
            Ok(Counts { left_out, ..counts })
        }
    }
}

/// The counts with all rows of a file more.
pub(crate) fn with_rows(counts: Counts, rows: &[Row<'_>]) -> Result<Counts, AllocError>
    ensures { IfOk result (λ more. counts_view more ≡ with_rows (counts_view counts) (map row_view rows.now)) }
{
    let mut more = counts;
    for row in rows {
        more = with_row(more, *row)?;
    }
    Ok(more)
}
