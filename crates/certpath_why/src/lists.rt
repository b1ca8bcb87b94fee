//! The lines of the lists that nobody uses.

ghost use Rattle.std.specs.Prelude.{◌≡◌, length, OnOk, string_bytes};
ghost use Rattle.cert_graph.specs.Entries.{IsAt};
ghost use Rattle.cert_judge.specs.Items.{item_of, list_of, list_item};
ghost use Rattle.cert_judge.specs.declared.items.ReadItem.TheVariants.{List as list_read};
ghost use Rattle.certpath_why.specs.Question.{anchors_in, items_in, rules_in, IsSigned};
ghost use Rattle.certpath_why.specs.Why.{AreTexts, TellsList, TellsItem, TellsItemAt, positions};
ghost use Rattle.certpath_why.specs.Appended.{Appends};

use crate::lines::push_list;
use crate::question::Question;
use crate::signers::is_signed_at;
use asn1_core::OutOfMemory;
use cert_judge::{ListItem, ReadItem, Vouch};
use cert_reasons::why_list_unused;
use std::alloc::Global;

/// Appends the lines of a list; none if it is used under a key of its issuer's name.
fn tell_list<V: Vouch>(
    text: &mut String,
    alloc: Global,
    question: &Question<'_, '_, V>,
    place: usize,
    list: &ListItem<'_>,
) -> Result<(), OutOfMemory>
    requires signed { IsSigned V.Vouch question.now }
    requires at { IsAt question.now.found.now.items.now place (λ x. x ≡ list_read list.now) }
    ensures { OnOk result (Appends (TellsList (rules_in V.Vouch question.now)
        (items_in question.now) (anchors_in question.now) place (list_item list.now) (list_of list.now)) (string_bytes text.old) (string_bytes text.new)) }
{
    let vouched = is_signed_at(question, place, list.issuer);
    let moment = question.policy.moment();
    let reasons = why_list_unused(alloc, list, &moment, vouched)?;
    push_list(
        text,
        alloc,
        &question.found.labels,
        place,
        list.issuer,
        &list.fields,
        &reasons,
    )?;
    Ok(())
}

/// Appends the lines of an item that is a list.
fn tell_item<V: Vouch>(
    text: &mut String,
    alloc: Global,
    question: &Question<'_, '_, V>,
    place: usize,
    item: &ReadItem<'_>,
) -> Result<(), OutOfMemory>
    requires signed { IsSigned V.Vouch question.now }
    requires at { IsAt question.now.found.now.items.now place (λ x. x ≡ item.now) }
    ensures { OnOk result (Appends (TellsItem (rules_in V.Vouch question.now)
        (items_in question.now) (anchors_in question.now) place (item_of item.now) (item_of item.now).class) (string_bytes text.old) (string_bytes text.new)) }
{
    match item {
        ReadItem::Certificate(_) => Ok(()),
        ReadItem::List(list) => tell_list(text, alloc, question, place, list),
        ReadItem::Other(_) => Ok(()),
    }
}

/// The lines of all lists that nobody uses.
pub(crate) fn tell_lists<V: Vouch>(
    text: &mut String,
    alloc: Global,
    question: &Question<'_, '_, V>,
) -> Result<(), OutOfMemory>
    requires { IsSigned V.Vouch question.now }
    ensures { OnOk result (Appends (AreTexts (TellsItemAt (rules_in V.Vouch question.now)
        (items_in question.now) (anchors_in question.now)) (positions (length (items_in question.now)))) (string_bytes text.old) (string_bytes text.new)) }
{
    for (place, item) in question.found.items.iter().enumerate() {
        tell_item(text, alloc, question, place, item)?;
    }
    Ok(())
}
