//! Evidence as text.

ghost use Rattle.std.specs.Prelude.{◌≡◌, [], ◌∷◌, ◌++◌, string_bytes, OnOk};
ghost use Rattle.std.specs.List.{flat_map};
ghost use Rattle.certpath_evidence.specs.Evidence.{change_line, ended, evidence, path, position_words, row_lines, said_by, told_by, verdict_line};

use cert_graph::{Change, Inventory, Reach, Verdict};
use std::alloc::AllocError;

/// Appends the text of an inventory: a line with the format's name, a line for each verdict, and for each row the line `row` and one
/// for each change.
///
/// The only error is out of memory; the text is then of no use. The text has about as many octets as the paths and changes have
/// digits.
pub fn write_evidence(text: &mut String, inventory: &Inventory) -> Result<(), AllocError>
    ensures { OnOk result (string_bytes text.new ≡ string_bytes text.old ++ evidence (told_by inventory.now)) }
{
    writeln!(text, "certpath evidence 1")?;
    write_verdicts(text, &inventory.verdicts)?;
    write_rows(text, &inventory.steps)
}

fn write_verdicts(text: &mut String, verdicts: &[Verdict]) -> Result<(), AllocError>
    ensures { OnOk result (string_bytes text.new ≡ string_bytes text.old ++ flat_map (λ v. verdict_line (said_by v) ++ 10 ∷ []) verdicts.now) }
{
    for verdict in verdicts {
        write_verdict(text, verdict)?;
    }
    Ok(())
}

fn write_verdict(text: &mut String, verdict: &Verdict) -> Result<(), AllocError>
    ensures { OnOk result (string_bytes text.new ≡ string_bytes text.old ++ (verdict_line (said_by verdict.now) ++ 10 ∷ [])) }
{
    match verdict {
        Verdict::FirstPath { positions, anchor } => write_path(text, positions, *anchor),
        Verdict::Pathless => writeln!(text, "none"),
        Verdict::NoCertificate => writeln!(text, "no certificate"),
    }
}

fn write_path(text: &mut String, positions: &[usize], anchor: usize) -> Result<(), AllocError>
    ensures { OnOk result (string_bytes text.new ≡ string_bytes text.old ++ (verdict_line (path positions.now anchor) ++ 10 ∷ [])) }
{
    write!(text, "path ")?;
    write_positions(text, positions)?;
    writeln!(text, "anchor {anchor}")
}

fn write_positions(text: &mut String, positions: &[usize]) -> Result<(), AllocError>
    ensures { OnOk result (string_bytes text.new ≡ string_bytes text.old ++ position_words positions.now) }
{
    for position in positions {
        write!(text, "{position} ")?;
    }
    Ok(())
}

fn write_rows(text: &mut String, steps: &[Vec<Change>]) -> Result<(), AllocError>
    ensures { OnOk result (string_bytes text.new ≡ string_bytes text.old ++ flat_map (λ s. ended (row_lines s.items)) steps.now) }
{
    for step in steps {
        write_row(text, step)?;
    }
    Ok(())
}

fn write_row(text: &mut String, changes: &[Change]) -> Result<(), AllocError>
    ensures { OnOk result (string_bytes text.new ≡ string_bytes text.old ++ ended (row_lines changes.now)) }
{
    writeln!(text, "row")?;
    write_changes(text, changes)
}

fn write_changes(text: &mut String, changes: &[Change]) -> Result<(), AllocError>
    ensures { OnOk result (string_bytes text.new ≡ string_bytes text.old ++ flat_map (λ c. change_line c ++ 10 ∷ []) changes.now) }
{
    for change in changes {
        write_change(text, *change)?;
    }
    Ok(())
}

fn write_change(text: &mut String, change: Change) -> Result<(), AllocError>
    ensures { OnOk result (string_bytes text.new ≡ string_bytes text.old ++ (change_line change ++ 10 ∷ [])) }
{
    let position = change.position;
    match change.reach {
        Reach::No => writeln!(text, "{position} no"),
        Reach::UpTo(limit) => writeln!(text, "{position} upto {limit}"),
        Reach::Any => writeln!(text, "{position} any"),
    }
}
