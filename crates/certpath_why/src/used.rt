//! Under whose keys a list is used, of the certificates of one name: worked out once for each name,
//! if lists are demanded (RFC 5280, 6.3.3).

ghost use Rattle.std.specs.Prelude.{◌≡◌, ◌↔◌, Contains, IfOk, IsTrue, OnOk, Some, true};
ghost use Rattle.std.specs.List.Sorted.{IsStrictlyIncreasing};
ghost use Rattle.cert_graph.specs.Entries.{IsAt};
ghost use Rattle.cert_judge.specs.Items.{IsListWith};
ghost use Rattle.cert_reasons.specs.declared.links.Unlinked.TheVariants.{NoUsedList};
ghost use Rattle.certpath_why.specs.Against.{IsLineOf};
ghost use Rattle.certpath_why.specs.Found.{IsFound};
ghost use Rattle.certpath_why.specs.Kinds.{AddsTails};
ghost use Rattle.certpath_why.specs.Question.{items_in, rules_in};
ghost use Rattle.certpath_why.specs.Reached.{ArePositions};
ghost use Rattle.certpath_why.specs.Sides.{others_of, IsSide};
ghost use Rattle.certpath_why.specs.Used.{AreUsed, AreUsedKept, HasListAt, IsCurrentAndPlain, LacksListAt};

use crate::cuts::{Cut, ranges_but};
use crate::links::add_cut;
use crate::positions::in_order;
use crate::question::Question;
use crate::ranges::{Range, ranges_of};
use crate::side::Side;
use crate::sifting::within;
use crate::signers::signers_of_any;
use asn1_core::OutOfMemory;
use cert_judge::{ListItem, ReadItem, Vouch, is_in_force};
use cert_reasons::Unlinked;
use jiff::civil::DateTime;
use std::alloc::{AllocError, Global};
use std::collections::BTreeMap;

/// The certificates of one name, by whether a list is used under their keys.
#[derive(Drop)]
pub(crate) struct Used {
    /// Those under whose keys one is used.
    pub(crate) having: Vec<Range>,
    /// The others.
    pub(crate) lacking: Cut,
}

fn is_list_in_force(list: &ListItem<'_>, moment: &DateTime) -> bool
    ensures { IsTrue result ↔ IsCurrentAndPlain moment.now list.now }
{
    is_in_force(&list.fields, moment)
}

fn is_item_in_force(item: &ReadItem<'_>, moment: &DateTime) -> bool
    ensures { IsTrue result ↔ IsListWith (IsCurrentAndPlain moment.now) item.now }
{
    match item {
        ReadItem::List(list) => is_list_in_force(list, moment),
        _ => false,
    }
}

fn is_in_force_at(items: &[ReadItem<'_>], place: usize, moment: &DateTime) -> bool
    ensures { IsTrue result ↔ IsAt items.now place (IsListWith (IsCurrentAndPlain moment.now)) }
{
    match items.get(place) {
        Some(item) => is_item_in_force(item, moment),
        None => false,
    }
}

/// Of some lists, those that are in force: a step for each entry of them.
fn in_force_among(
    alloc: Global,
    items: &[ReadItem<'_>],
    lists: &[usize],
    moment: &DateTime,
) -> Result<Vec<usize>, AllocError>
    requires { IsStrictlyIncreasing lists.now }
    ensures { IfOk result (λ found. ArePositions (λ p. Contains lists.now p × IsAt items.now p (IsListWith (IsCurrentAndPlain moment.now))) found.items) }
{
    let mut found = Vec::new(alloc);
    for place in lists {
        if !is_in_force_at(items, *place, moment) {
            continue;
        }
        found.push(*place)?;
    }
    Ok(found)
}

impl Used {
    /// The certificates of a name.
    pub(crate) fn new<'a, V: Vouch>(
        alloc: Global,
        question: &Question<'_, 'a, V>,
        side: &Side<'_, 'a>,
    ) -> Result<Used, AllocError>
        requires known { IsFound question.now.found.now }
        requires side { IsSide V.Vouch question.now side.now }
        requires demanded { question.now.policy.now.demand_lists ≡ true }
        ensures { IfOk result (AreUsed (rules_in V.Vouch question.now) (items_in question.now) (others_of side.now) side.now.name.now) }
    {
        let lists = question.found.lists(side.name);
        let moment = question.policy.moment();
        let in_force = in_force_among(alloc, question.found.items, lists, &moment)?;
        let signers = signers_of_any(alloc, question, side, &in_force)?;
        let having = ranges_of(alloc, &signers)?;
        let lacking = ranges_but(alloc, &side.named.all, &signers)?;
        Ok(Used { having, lacking })
    }
}

/// Of certificates of a name those under whose keys a list is used; all of them, if lists aren't
/// demanded.
pub(crate) fn listed_among<'a, V: Vouch>(
    alloc: Global,
    kept: &mut BTreeMap<usize, Used>,
    question: &Question<'_, 'a, V>,
    side: &Side<'_, 'a>,
    places: &[usize],
) -> Result<Vec<usize>, AllocError>
    requires kept { AreUsedKept (rules_in V.Vouch question.now) (items_in question.now) (others_of side.now) kept.old }
    requires known { IsFound question.now.found.now }
    requires side { IsSide V.Vouch question.now side.now }
    requires ascend { IsStrictlyIncreasing places.now }
    ensures kept { OnOk result (AreUsedKept (rules_in V.Vouch question.now) (items_in question.now) (others_of side.now) kept.new) }
    ensures listed { IfOk result (λ found. ArePositions (λ w. Contains places.now w
        × (question.now.policy.now.demand_lists ≡ true → HasListAt (rules_in V.Vouch question.now) (items_in question.now) (others_of side.now) side.now.name.now w)) found.items) }
{
    if !question.policy.demands_lists() {
        let all = in_order(alloc, places)?;
        return Ok(all);
    }
    if let Some(used) = kept.get(&side.first) {
        let known = within(alloc, places, &used.having)?;
        return Ok(known);
    }
    let used = Used::new(alloc, question, side)?;
    let listed = within(alloc, places, &used.having)?;
    kept.insert(side.first, used)?;
    Ok(listed)
}

/// Adds the end of the line of the certificates of a name under whose keys no list is used, if
/// lists are demanded.
pub(crate) fn add_lacking<'a, V: Vouch>(
    tails: &mut Vec<String>,
    alloc: Global,
    kept: &mut BTreeMap<usize, Used>,
    question: &Question<'_, 'a, V>,
    side: &Side<'_, 'a>,
) -> Result<(), OutOfMemory>
    requires kept { AreUsedKept (rules_in V.Vouch question.now) (items_in question.now) (others_of side.now) kept.old }
    requires known { IsFound question.now.found.now }
    requires side { IsSide V.Vouch question.now side.now }
    ensures kept { OnOk result (AreUsedKept (rules_in V.Vouch question.now) (items_in question.now) (others_of side.now) kept.new) }
    ensures tails { OnOk result (AddsTails (λ front. IsLineOf front (Some NoUsedList) (LacksListAt (rules_in V.Vouch question.now) (items_in question.now) (others_of side.now) side.now.name.now)) tails.old.items tails.new.items) }
{
    if !question.policy.demands_lists() {
        return Ok(());
    }
    let what = Some(Unlinked::NoUsedList);
    if let Some(used) = kept.get(&side.first) {
        add_cut(tails, alloc, what, &used.lacking)?;
        return Ok(());
    }
    let used = Used::new(alloc, question, side)?;
    add_cut(tails, alloc, what, &used.lacking)?;
    kept.insert(side.first, used)?;
    Ok(())
}
