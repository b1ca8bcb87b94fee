//! Whole files.

ghost use Rattle.std.specs.Prelude.{◌≡◌, OnOk, IfOk};
ghost use Rattle.certpath_files.specs.Rows.{added, report_of};
ghost use Rattle.certpath_files.specs.ReportViews.{held_in};
ghost use Rattle.certpath_files.specs.Files.{text_rows, file_rows};
ghost use Rattle.certpath_pem.specs.Sources.{source_of};
ghost use Rattle.certpath_pem.specs.SourceViews.{source_view};

use crate::blocks::take_entries;
use crate::odd::take_odd_lines;
use crate::report::Report;
use crate::rows::{Reason, Spot, at};
use crate::sequences::take_stream;
use certpath_pem::{Source, source_of, without_mark};
use std::alloc::{AllocError, Global};

/// So many octets the items of a file may have at most: base64 has four for three.
fn room_of(source: Source, octets: &[u8]) -> usize {
    match source {
        Source::Pem => octets.len() / 4 * 3,
        Source::Der => octets.len(),
        Source::Utf16 => 0,
        Source::Nothing => 0,
        Source::Other => 0,
    }
}

/// Adds the rows of a PEM text.
fn take_text<'a>(alloc: Global, report: &mut Report<'a>, text: &'a [u8]) -> Result<(), AllocError>
    ensures { OnOk result (held_in report.new ≡ added (held_in report.old) (text_rows text.now)) }
{
    take_entries(alloc, report, text)?;
    take_odd_lines(report, text)
}

/// Adds the rows of a file.
fn take_file<'a>(
    alloc: Global,
    report: &mut Report<'a>,
    source: Source,
    octets: &'a [u8],
) -> Result<(), AllocError>
    requires { source_view source ≡ source_of octets.now }
    ensures { OnOk result (held_in report.new ≡ added (held_in report.old) (file_rows octets.now)) }
{
    match source {
        Source::Pem => take_text(alloc, report, without_mark(octets)),
        Source::Der => take_stream(report, octets),
        Source::Utf16 => report.leave(at(Spot::File), Reason::WideText),
        Source::Nothing => report.leave(at(Spot::File), Reason::EmptyFile),
        Source::Other => report.leave(at(Spot::File), Reason::NoForm),
    }
}

/// What a file holds: its certificates and revocation lists in order, and what is left out of it.
///
/// One pass over the file for what it is, and one for what it holds. Beside the report it takes no
/// memory for DER, and for PEM three octets for four of the longest block, and 16 MiB at most; only
/// a block that begins with the octet 3f, which no item does, is decoded whole. The report has room
/// for as many octets as the file has, of PEM for three of four, and a row for each item and each
/// thing that is left out.
pub fn items_of(alloc: Global, octets: &[u8]) -> Result<Report<'_>, AllocError>
    ensures { IfOk result (λ report. held_in report ≡ report_of (file_rows octets.now)) }
{
    let source = source_of(octets);
    let mut report = Report::new(alloc, room_of(source, octets))?;
    take_file(alloc, &mut report, source, octets)?;
    Ok(report)
}
