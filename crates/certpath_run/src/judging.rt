//! Items, judged at the moment of a policy: what the search and the lines of the report are over.

ghost use Rattle.std.specs.Prelude.{IfOk};
ghost use Rattle.cert_model.specs.View.{time_view};
ghost use Rattle.certpath_run.specs.Judging.{AreJudgedOf};

use asn1_core::OutOfMemory;
use cert_framing::Items;
use cert_judge::{JudgedItem, Policy};
use certpath_find::judged_items;
use std::alloc::Global;

/// Judges the items at the policy's moment, by the readers of the search. One pass over them.
pub(crate) fn judged_by<'a>(
    alloc: Global,
    items: &'a Items,
    policy: &Policy,
) -> Result<Vec<JudgedItem<'a>>, OutOfMemory>
    ensures { IfOk result (λ judged. AreJudgedOf (time_view policy.now.moment) items.now.items judged.items) }
{
    let moment = policy.moment();
    judged_items(alloc, items, &moment)
}
