//! The answer on a target, found by `certpath_find` and checked by `certcheck`.

ghost use Rattle.std.specs.Prelude.{◌≡◌, List, IfOk, map, true};
ghost use Rattle.cert_judge.specs.Classed.{AreClassed};
ghost use Rattle.cert_judge.specs.ItemGraph.{graph_of_items};
ghost use Rattle.cert_judge.specs.Items.{item_of, rules_by};
ghost use Rattle.cert_judge.specs.JudgedItems.{AreJudged};
ghost use Rattle.cert_judge.specs.Revoking.{Item};
ghost use Rattle.cert_model.specs.View.{time_view};
ghost use Rattle.certpath_find.specs.Answered.{IsFound};
ghost use Rattle.certpath_run.specs.Runs.{kind_of};

use crate::settings::{Outcome, Settings};
use asn1_core::OutOfMemory;
use cert_graph::Answer;
use cert_judge::{JudgedItem, ReadItem, Vouch};
use certcheck::{check, check_read};
use certpath_find::find_judged;
use certpath_inputs::Inputs;
use std::alloc::Global;

/// An answer, and what the check says of it.
#[derive(Drop)]
pub(crate) struct Answered {
    pub(crate) answer: Answer,
    pub(crate) said: bool,
}

impl Answered {
    /// The kind of the answer.
    pub(crate) fn outcome(&self) -> Outcome
        ensures { result ≡ kind_of self.now.answer }
    {
        match &self.answer {
            Answer::Path { .. } => Outcome::Path,
            Answer::NoPath { .. } => Outcome::NoPath,
            Answer::NoTarget => Outcome::NoTarget,
        }
    }
}

/// Finds the answer over the judged items, and checks it over the items themselves.
pub(crate) fn answer_on<'a, V: Vouch>(
    alloc: Global,
    inputs: &'a Inputs,
    items: &[JudgedItem<'a>],
    anchors: &[JudgedItem<'a>],
    vouch: &V,
    settings: &Settings,
) -> Result<Answered, OutOfMemory>
    ensures { (xs ys : List Item) → AreClassed inputs.now.items.items xs → AreClassed inputs.now.anchors.items ys
        → AreJudged (time_view settings.now.policy.moment) xs items.now → AreJudged (time_view settings.now.policy.moment) ys anchors.now
        → IfOk result (λ a. (a.said ≡ true) × IsFound (graph_of_items (rules_by settings.now.policy.moment settings.now.policy.demand_lists (V.vouches_for vouch.now)) xs ys) settings.now.target a.answer) }
{
    let policy = settings.policy;
    let target = settings.target;
    let answer = find_judged(alloc, items, target, anchors, vouch, policy.demands_lists())?;
    let said = check(
        alloc,
        &inputs.items,
        target,
        &inputs.anchors,
        vouch,
        &policy,
        &answer,
    )?;
    Ok(Answered { answer, said })
}

/// Finds the answer over the judged items, and checks it over what the reader of the check read
/// them as.
pub(crate) fn answer_read<'a, V: Vouch>(
    alloc: Global,
    items: &[JudgedItem<'a>],
    anchors: &[JudgedItem<'a>],
    read: &[ReadItem<'a>],
    read_anchors: &[ReadItem<'a>],
    vouch: &V,
    settings: &Settings,
) -> Result<Answered, OutOfMemory>
    ensures { AreJudged (time_view settings.now.policy.moment) (map item_of read.now) items.now
        → AreJudged (time_view settings.now.policy.moment) (map item_of read_anchors.now) anchors.now
        → IfOk result (λ a. (a.said ≡ true) × IsFound (graph_of_items (rules_by settings.now.policy.moment settings.now.policy.demand_lists (V.vouches_for vouch.now)) (map item_of read.now) (map item_of read_anchors.now)) settings.now.target a.answer) }
{
    let policy = settings.policy;
    let target = settings.target;
    let answer = find_judged(alloc, items, target, anchors, vouch, policy.demands_lists())?;
    let said = check_read(alloc, read, target, read_anchors, vouch, &policy, &answer)?;
    Ok(Answered { answer, said })
}
