//! Text outside of blocks that is no text.

ghost use Rattle.std.specs.Prelude.{◌≡◌, ◌+◌, OnOk, IfOk, false};
ghost use Rattle.certpath_pem.specs.Lines.{lines_of};
ghost use Rattle.certpath_pem.specs.Labels.{boundary_of};
ghost use Rattle.certpath_files.specs.Rows.{added};
ghost use Rattle.certpath_files.specs.ReportViews.{held_in};
ghost use Rattle.certpath_files.specs.Odd.{is_no_text, is_odd, line_rows, quiet_after, odd_rows};

use crate::report::Report;
use crate::rows::{Reason, Spot, at};
use certpath_pem::{Boundary, boundary_of, next_line};
use std::alloc::AllocError;

/// Whether an octet is a control character that is no white space.
fn is_no_text(octet: u8) -> bool
    ensures { result ≡ is_no_text octet }
{
    (octet <= 31 && (octet <= 8 || 14 <= octet)) || octet == 127
}

fn is_odd(line: &[u8]) -> bool
    ensures { result ≡ is_odd line.now }
{
    line.iter().any(|octet| is_no_text(*octet))
}

/// Adds the row of a line, if it has one. Returns whether the lines after it have none.
fn take_line(
    report: &mut Report<'_>,
    line: &[u8],
    number: usize,
    is_quiet: bool,
) -> Result<bool, AllocError>
    ensures added { OnOk result (held_in report.new ≡ added (held_in report.old) (line_rows is_quiet (boundary_of line.now) line.now number)) }
    ensures quiet { IfOk result (λ quiet. quiet ≡ quiet_after is_quiet (boundary_of line.now) line.now) }
{
    match boundary_of(line) {
        Boundary::Text => {
            if is_quiet {
                return Ok(true);
            }
            if !is_odd(line) {
                return Ok(false);
            }
            report.leave(at(Spot::Line(number)), Reason::NoText)?;
            Ok(true)
        }
        Boundary::Begin(_) => Ok(true),
        Boundary::End(_) => Ok(false),
        Boundary::Bad => Ok(false),
    }
}

/// Adds the rows of the lines of a text outside of its blocks.
pub(crate) fn take_odd_lines(report: &mut Report<'_>, text: &[u8]) -> Result<(), AllocError>
    ensures { OnOk result (held_in report.new ≡ added (held_in report.old) (odd_rows false 1 (lines_of text.now))) }
{
    let mut rest = text;
    let mut number = 1;
    let mut is_quiet = false;
    while let Some((line, after)) = next_line(rest) {
        is_quiet = take_line(report, line, number, is_quiet)?;
        rest = after;
        number += 1;
    }
    Ok(())
}
