//! What files hold.

ghost use Rattle.std.specs.Prelude.{◌≡◌, ◌++◌, OnOk, IfOk, map, string_bytes};
ghost use Rattle.certpath_bundle.specs.Counts.{zero_counts};
ghost use Rattle.certpath_bundle.specs.CountViews.{counts_view};
ghost use Rattle.certpath_bundle.specs.Bundles.{found_in, lines_of, counts_of};
ghost use Rattle.certpath_bundle.specs.Views.{file_view, found_view};

use crate::counts::{Counts, with_rows};
use crate::file::File;
use crate::lines::push_lines;
use certpath_files::{Report, items_of};
use std::alloc::{AllocError, Global};

/// The name of a file, and what it holds.
#[derive(Drop)]
pub(crate) struct Found<'a> {
    pub(crate) name: &'a str,
    pub(crate) report: Report<'a>,
}

/// What a file holds.
fn found_in<'a>(alloc: Global, file: &'a File<'_>) -> Result<Found<'a>, AllocError>
    ensures { IfOk result (λ found. found_view found ≡ found_in (file_view file.entry.now)) }
{
    let report = items_of(alloc, file.octets.as_slice())?;
    Ok(Found {
        name: file.name,
        report,
    })
}

/// What each file holds.
pub(crate) fn found_in_all<'a>(
    alloc: Global,
    files: &'a [File<'_>],
) -> Result<Vec<Found<'a>>, AllocError>
    ensures { IfOk result (λ found. map found_view found.items ≡ map found_in (map file_view files.entry.now)) }
{
    let mut found = Vec::new(alloc);
    for file in files {
        let one = found_in(alloc, file)?;
        found.push(one)?;
    }
    Ok(found)
}

/// Appends the lines of all files.
pub(crate) fn push_all_lines(text: &mut String, found: &[Found<'_>]) -> Result<(), AllocError>
    ensures { OnOk result (string_bytes text.new ≡ string_bytes text.old ++ lines_of (map found_view found.now)) }
{
    for one in found {
        push_lines(text, one.name, one.report.rows.as_slice())?;
    }
    Ok(())
}

/// Counts the rows of all files.
pub(crate) fn counts_of(found: &[Found<'_>]) -> Result<Counts, AllocError>
    ensures { IfOk result (λ counts. counts_view counts ≡ counts_of (map found_view found.now)) }
{
    let mut counts = Counts {
        certificates: 0,
        lists: 0,
        left_out: 0,
    };
    for one in found {
        counts = with_rows(counts, one.report.rows.as_slice())?;
    }
    Ok(counts)
}
