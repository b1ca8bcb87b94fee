//! Paths from an item to an anchor.

ghost use Rattle.std.specs.Prelude.{◌≡◌, IfOk};
ghost use Rattle.certpath_c.specs.Finding.{IsFoundBy, FindAnswer};
ghost use Rattle.certpath_c.specs.Wanted.{IsWantedBy};

use crate::answers::{AnswerRow, entries_of, positions_of, row_of};
use crate::asked::{Settings, Voucher, inputs_of, policy_of, remembered_of};
use crate::status::{BAD_HOST, BAD_MOMENT, DONE, OUT_OF_MEMORY, TOO_SMALL};
use crate::wanted::{Judged, demands_of, wanted_of};
use crate::writing::put_both;
use asn1_core::OutOfMemory;
use cert_graph::Answer;
use cert_purpose::Restricted;
use cert_serving::Permits;
use certpath_run::find;
use std::alloc::Global;

/// The answer by a policy, of the files as they are cut, for a purpose and a host. The only error is
/// out of memory.
fn answer_of(
    alloc: Global,
    bundle: &[u8],
    anchors: &[u8],
    vouchers: &[Voucher],
    settings: &Settings<'_>,
    judged: &Judged<'_>,
) -> Result<Answer, OutOfMemory>
    requires { IsWantedBy settings.now judged.now.wanted }
    ensures { IfOk result (IsFoundBy bundle.now anchors.now vouchers.now settings.now judged.now.policy) }
{
    let inputs = inputs_of(alloc, bundle, anchors, vouchers, settings.limit)?;
    let demands = demands_of(&inputs.items, settings.target, &judged.wanted);
    let permits = Permits::new(alloc, &inputs.items, &demands)?;
    let remembered = remembered_of(alloc, &inputs);
    let vouch = Restricted::new(&remembered, &permits);
    let answer = find(
        alloc,
        &inputs.items,
        settings.target,
        &inputs.anchors,
        &vouch,
        &judged.policy,
    )?;
    Ok(answer)
}

/// `certpath_find` of the header.
#[unsafe(no_mangle)]
pub extern "C" fn certpath_find(
    alloc: Global,
    bundle: &[u8],
    anchors: &[u8],
    vouchers: &[Voucher],
    settings: &Settings<'_>,
    positions: &mut [usize],
    table: &mut [u64],
    row: &mut AnswerRow,
) -> i32
    ensures { FindAnswer bundle.now anchors.now vouchers.now settings.now positions.old positions.new table.old table.new row.old row.new result }
{
    let Some(policy) = policy_of(settings) else {
        return BAD_MOMENT;
    };
    let Some(wanted) = wanted_of(settings) else {
        return BAD_HOST;
    };
    let judged = Judged { policy, wanted };
    let Ok(answer) = answer_of(alloc, bundle, anchors, vouchers, settings, &judged) else {
        return OUT_OF_MEMORY;
    };
    let Ok(entries) = entries_of(alloc, &answer) else {
        return OUT_OF_MEMORY;
    };
    *row = row_of(&answer, &entries);
    if put_both(positions, positions_of(&answer), table, &entries) {
        DONE
    } else {
        TOO_SMALL
    }
}
