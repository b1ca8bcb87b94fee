//! A report as it grows.

ghost use Rattle.std.specs.Prelude.{map};
ghost use Rattle.certpath_files.specs.Framed.{AreItems};
ghost use Rattle.certpath_files.specs.RowViews.{row_view};

use crate::rows::{Place, Reason, Row};
use crate::shape::Kind;
use std::alloc::{AllocError, Global};

/// What a file holds: the octets of its items, one right after the other, and a row for each item
/// and for each thing that is left out, in the order of the file. Each item is one DER item as
/// bundles are made of (`cert_framing`), of as many octets as its row says.
#[derive(Drop)]
pub struct Report<'a> {
    /// The items' octets, joined. The rows say how many octets each item has.
    pub octets: Vec<u8>,
    /// The rows.
    pub rows: Vec<Row<'a>>,
    ghost framed: { ∥ AreItems (map row_view rows.items) octets.items ∥₁ },
}

impl<'a> Report<'a> {
    ghost use Rattle.std.specs.Prelude.{◌≡◌, [], ◌∷◌, OnOk, IfOk};
    ghost use Rattle.cert_framing.specs.Framing.{IsItem};
    ghost use Rattle.certpath_files.specs.Fronts.{most};
    ghost use Rattle.certpath_files.specs.Rows.{item, left_out, added, report_of};
    ghost use Rattle.certpath_files.specs.ReportViews.{held_in};
    ghost use Rattle.certpath_files.specs.RowViews.{place_view, reason_view};
    ghost use Rattle.certpath_files.specs.ShapeViews.{kind_view};

    /// A report without rows, with room for so many octets of items.
    pub(crate) fn new(alloc: Global, room: usize) -> Result<Report<'a>, AllocError>
        ensures { IfOk result (λ report. held_in report ≡ report_of []) }
    {
        let octets = Vec::with_capacity(alloc, room)?;
        let rows = Vec::new(alloc);
        Ok(Report { octets, rows })
    }

    /// Adds an item.
    pub(crate) fn take(
        &mut self,
        place: Place<'a>,
        kind: Kind,
        octets: &[u8],
    ) -> Result<(), AllocError>
        requires { IsItem most octets.now }
        ensures { OnOk result (held_in self.new ≡ added (held_in self.old) (item (place_view place.entry) (kind_view kind) octets.now ∷ [])) }
    {
        let row = Row::Item(place, kind, octets.len());
        let before = self.octets.len();
        self.octets.extend_from_slice(octets)?;
        if self.rows.push(row).is_err() {
            self.octets.truncate(before);
            return Err(AllocError);
        }
        Ok(())
    }

    /// Adds what is left out.
    pub(crate) fn leave(&mut self, place: Place<'a>, reason: Reason) -> Result<(), AllocError>
        ensures { OnOk result (held_in self.new ≡ added (held_in self.old) (left_out (place_view place.entry) (reason_view reason) ∷ [])) }
    {
        self.rows.push(Row::LeftOut(place, reason))?;
        Ok(())
    }
}
