//! Names (RFC 5280, 4.1.2.4), each set in the order that DER asks for (X.690, 11.6).

ghost use Rattle.std.specs.Prelude.{◌≡◌, ℕ, option_map, map};
ghost use Rattle.cert_model.specs.Range.{is_at_most};
ghost use Rattle.cert_model.specs.View.{any_view, attr_view, name_view};
ghost use Rattle.cert_model.specs.Reads.{attribute_at, list_at, ascend, relative_name_at, name_at};
ghost use Rattle.certcheck.specs.Ascending.{ascend_after};
ghost use Rattle.certcheck.specs.Stopping.{Finds};
ghost use Rattle.certcheck.specs.Windows.{trees_in, tree_of};

use crate::parts::{attribute_of, sequence_of, set_of};
use crate::stop::Stop;
use crate::windows::{first_of, front_of};
use cert_model::fields::{AnyField, AttrField, NameFields};
use std::alloc::Global;

/// The attributes that all of the parts are.
fn attributes_of<'a>(alloc: Global, parts: &'a [u8]) -> Result<Vec<AttrField<'a>>, Stop>
    ensures { Finds (λ v. map attr_view v.items) result (list_at attribute_at (trees_in parts.now)) }
{
    let mut attributes = Vec::new(alloc);
    let mut rest = parts;
    while let Some((part, after)) = first_of(rest) {
        let attribute = attribute_of(&part).ok_or(Stop::Other)?;
        attributes.push(attribute)?;
        rest = after;
    }
    Ok(attributes)
}

fn is_at_most(first: &[u8], second: &[u8]) -> bool
    ensures { result ≡ is_at_most first.now second.now }
{
    first.cmp(second).is_le()
}

/// Whether octets are at most those of the first part, and each part's are at most the next one's.
fn ascend_after(before: &[u8], parts: &[u8]) -> bool
    ensures { result ≡ ascend_after before.now (trees_in parts.now) }
{
    let mut last = before;
    let mut rest = parts;
    while let Some((_, after)) = first_of(rest) {
        let next = front_of(rest, after);
        if !is_at_most(last, next) {
            return false;
        }
        last = next;
        rest = after;
    }
    true
}

/// Whether each part's octets are at most the next one's.
fn ascend(parts: &[u8]) -> bool
    ensures { result ≡ ascend (trees_in parts.now) }
{
    match first_of(parts) {
        Some((_, rest)) => ascend_after(front_of(parts, rest), rest),
        None => true,
    }
}

/// One or more attributes, in ascending order of their octets (X.690, 11.6).
#[tactic(auto, unfolding(cert_model::specs::Reads::relative_name_at))]
fn relative_name_of<'a>(alloc: Global, object: &AnyField<'a>) -> Result<Vec<AttrField<'a>>, Stop>
    ensures { Finds (λ v. map attr_view v.items) result (relative_name_at (tree_of (any_view object.now))) }
{
    let parts = set_of(object).ok_or(Stop::Other)?;
    let attributes = attributes_of(alloc, parts)?;
    if attributes.is_empty() || !ascend(parts) {
        return Err(Stop::Other);
    }
    Ok(attributes)
}

/// The relative names that all of the parts are.
fn relative_names_of<'a>(alloc: Global, parts: &'a [u8]) -> Result<Vec<Vec<AttrField<'a>>>, Stop>
    ensures { Finds (λ v. map (λ set. map attr_view set.items) v.items) result (list_at relative_name_at (trees_in parts.now)) }
{
    let mut sets = Vec::new(alloc);
    let mut rest = parts;
    while let Some((part, after)) = first_of(rest) {
        let set = relative_name_of(alloc, &part)?;
        sets.push(set)?;
        rest = after;
    }
    Ok(sets)
}

/// RDNSequence.
#[tactic(auto, unfolding(cert_model::specs::Reads::name_at))]
pub(crate) fn name_of<'a>(alloc: Global, object: &AnyField<'a>) -> Result<NameFields<'a>, Stop>
    ensures { Finds name_view result (name_at (tree_of (any_view object.now))) }
{
    let parts = sequence_of(object).ok_or(Stop::Other)?;
    let sets = relative_names_of(alloc, parts)?;
    Ok(NameFields { sets })
}
