//! Whether answers are right.

ghost use Rattle.std.specs.Prelude.{◌≡◌, cond, IfOk, IfSome, IfNone};
ghost use Rattle.certpath_c.specs.Checking.{IsCheckedBy, HasNoAnswer, CheckAnswer};
ghost use Rattle.certpath_c.specs.Wanted.{IsWantedBy};

use crate::answers::AnswerRow;
use crate::asked::{Settings, Voucher, inputs_of, policy_of, remembered_of};
use crate::status::{BAD_ANSWER, BAD_HOST, BAD_MOMENT, DONE, OUT_OF_MEMORY};
use crate::tables::given_answer;
use crate::wanted::{Judged, demands_of, wanted_of};
use asn1_core::OutOfMemory;
use cert_purpose::Restricted;
use cert_serving::Permits;
use certcheck::check;
use std::alloc::Global;

/// An answer as a caller gives it.
#[derive(Clone, Copy, Debug)]
struct Given<'a> {
    row: AnswerRow,
    positions: &'a [usize],
    entries: &'a [u64],
}

fn number_of(said: bool) -> u32
    ensures { result ≡ cond said 1 0 }
{
    if said { 1 } else { 0 }
}

/// What the check says by a policy, of the files as they are cut; none if what is given isn't an
/// answer. The only error is out of memory.
fn checked(
    alloc: Global,
    bundle: &[u8],
    anchors: &[u8],
    vouchers: &[Voucher],
    settings: &Settings<'_>,
    judged: &Judged<'_>,
    given: &Given<'_>,
) -> Result<Option<bool>, OutOfMemory>
    requires { IsWantedBy settings.now judged.now.wanted }
    ensures found { IfOk result (λ o. IfSome o (IsCheckedBy bundle.now anchors.now vouchers.now settings.now judged.now.policy given.now.row given.now.positions.now given.now.entries.now)) }
    ensures none { IfOk result (λ o. IfNone o (HasNoAnswer bundle.now settings.now.limit given.now.row given.now.positions.now given.now.entries.now)) }
{
    let inputs = inputs_of(alloc, bundle, anchors, vouchers, settings.limit)?;
    let width = inputs.items.len();
    let found = given_answer(alloc, &given.row, given.positions, given.entries, width)?;
    let Some(answer) = found else {
        return Ok(None);
    };
    let demands = demands_of(&inputs.items, settings.target, &judged.wanted);
    let permits = Permits::new(alloc, &inputs.items, &demands)?;
    let remembered = remembered_of(alloc, &inputs);
    let vouch = Restricted::new(&remembered, &permits);
    let said = check(
        alloc,
        &inputs.items,
        settings.target,
        &inputs.anchors,
        &vouch,
        &judged.policy,
        &answer,
    )?;
    Ok(Some(said))
}

/// `certpath_check` of the header.
#[unsafe(no_mangle)]
pub extern "C" fn certpath_check(
    alloc: Global,
    bundle: &[u8],
    anchors: &[u8],
    vouchers: &[Voucher],
    settings: &Settings<'_>,
    row: &AnswerRow,
    positions: &[usize],
    entries: &[u64],
    says_yes: &mut u32,
) -> i32
    ensures { CheckAnswer bundle.now anchors.now vouchers.now settings.now row.now positions.now entries.now says_yes.old says_yes.new result }
{
    let Some(policy) = policy_of(settings) else {
        return BAD_MOMENT;
    };
    let Some(wanted) = wanted_of(settings) else {
        return BAD_HOST;
    };
    let judged = Judged { policy, wanted };
    let given = Given {
        row: *row,
        positions,
        entries,
    };
    let Ok(found) = checked(alloc, bundle, anchors, vouchers, settings, &judged, &given) else {
        return OUT_OF_MEMORY;
    };
    let Some(said) = found else {
        return BAD_ANSWER;
    };
    *says_yes = number_of(said);
    DONE
}
