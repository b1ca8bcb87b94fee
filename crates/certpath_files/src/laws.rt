//! Laws of reports. Each is a function that does nothing: its contract is the law.

ghost use Rattle.std.specs.Prelude.{◌≡◌, ◌≢◌, ℕ, List, Some, [], ◌∷◌, codes};
ghost use Rattle.std.specs.List.{concat, flat_map, AllByRecursion};
ghost use Rattle.std.specs.Int.Digits.{AllBelowBase};
ghost use Rattle.base64.specs.GeneralPurpose.{IsBytes};
ghost use Rattle.cert_framing.specs.Framing.{IsItem};
ghost use Rattle.certpath_pem.specs.Blocks.{Entry, entries_of};
ghost use Rattle.certpath_pem.specs.Writing.{pem_of};
ghost use Rattle.certpath_files.specs.Fronts.{most};
ghost use Rattle.certpath_files.specs.Shapes.{Kind, kind_of};
ghost use Rattle.certpath_files.specs.Rows.{Spot, item, at, block};
ghost use Rattle.certpath_files.specs.Sequences.{stream_rows, rows_at};
ghost use Rattle.certpath_files.specs.Blocks.{entry_rows};
ghost use Rattle.certpath_files.specs.Files.{all_entry_rows};
ghost use Rattle.certpath_files.specs.Framed.{AreItems};
ghost use Rattle.certpath_files.specs.ReportViews.{held_in};
ghost use Rattle.certpath_files.specs.Laws.{HasItsRows, ShowsKnown, pieces_of};

use crate::report::Report;
use certpath_pem::laws::written_is_read_back;

/// Each block and each boundary that is none has a row at least, and all its rows are at its line.
/// So with `certpath_pem`'s `each_boundary_once` no block is dropped, and none comes twice.
pub fn each_entry_has_its_rows()
    ensures { (entry : Entry) → HasItsRows entry }
{}

/// A label that a row shows is a known one.
pub fn shown_labels_are_known()
    ensures { (text : List ℕ) → AllByRecursion ShowsKnown (all_entry_rows text) }
{}

/// Each octet of a DER file is in one of its pieces, and each piece has a row at least. So
/// nothing of it is dropped.
pub fn each_octet_once()
    ensures once { (octets : List ℕ) → AllBelowBase 256 octets → concat (pieces_of octets) ≡ octets }
    ensures some { (offset number : ℕ) (octets : List ℕ) → rows_at offset number octets ≢ [] }
{}

/// The octets of a report are those of its items, one right after the other: each is one DER item of
/// as many octets as its row says, in the words of `cert_framing`. So the items of any file are a
/// bundle without a fault.
pub fn items_are_framed(report: &Report<'_>)
    ensures { ∥ AreItems (held_in report.now).rows (held_in report.now).octets ∥₁ }
{}

/// A certificate or a list that is written as a CERTIFICATE block is taken as it was, and nothing
/// else.
pub fn written_is_taken()
    ensures { (octets : List ℕ) (kind : Kind) → IsBytes octets → IsItem most octets → kind_of octets ≡ Some kind
        → all_entry_rows (pem_of (codes "CERTIFICATE") octets) ≡ item (at (block 1 (Some (codes "CERTIFICATE")))) kind octets ∷ [] }
{
    // a law: what is written is read back
    written_is_read_back();
}
