//! Names (RFC 5280, 4.1.2.4), each set in the order that DER asks for (X.690, 11.6).

ghost use Rattle.std.specs.Prelude.{◌≡◌, option_map, None, List, ℕ};
ghost use Rattle.der_tree.specs.View.{view, views};
ghost use Rattle.cert_model.specs.Range.{is_at_most};
ghost use Rattle.cert_faults.specs.Steps.{Gives, at_view, whole, next_or, each_in};
ghost use Rattle.cert_faults.specs.Walks.{attribute_fault, ascending_fault, attributes_in, relative_name_fault, name_fault};

use crate::fields::{next_any, next_identifier};
use crate::places::{Expected, Field, Part};
use crate::steps::{At, Blame, end, first, left_after, sequence, set, unlike, whole, within};
use der_tree::BerObject;

/// AttributeTypeAndValue.
#[tactic(auto, unfolding(crate::specs::Walks::attribute_fault))]
fn attribute_fault(field: Field, left: usize, object: &BerObject<'_>) -> Result<(), Blame>
    ensures { result ≡ attribute_fault field left (view object.now) }
{
    let all = sequence(within(field, Part::Attribute), left, object)?;
    let rest = next_identifier(within(field, Part::Type), all)?;
    let over = next_any(within(field, Part::Value), rest)?;
    end(within(field, Part::Attribute), over)
}

fn is_at_most(first: &[u8], second: &[u8]) -> bool
    ensures { result ≡ is_at_most first.now second.now }
{
    first.cmp(second).is_le()
}

/// That the octets of the attribute before, if there is one, are at most those of the attribute.
fn ascending_fault(
    field: Field,
    before: Option<&[u8]>,
    left: usize,
    object: &BerObject<'_>,
) -> Result<(), Blame>
    ensures { result ≡ ascending_fault field (option_map (λ s. s.now) before.entry) left (view object.now) }
{
    match before {
        None => Ok(()),
        Some(octets) => {
            if is_at_most(octets, object.as_raw()) {
                Ok(())
            } else {
                Err(unlike(within(field, Part::Attribute), Expected::Ascending, left))
            }
        }
    }
}

/// The attributes of a set.
fn attributes_fault(field: Field, at: At<'_, '_>) -> Result<(), Blame>
    ensures { result ≡ attributes_in field None at.entry.left (views at.entry.parts.now) }
{
    let mut before: Option<&[u8]> = None;
    let mut left = at.left;
    for object in at.parts {
        ascending_fault(field, before, left, object)?;
        attribute_fault(field, left, object)?;
        before = Some(object.as_raw());
        left = left_after(object, left);
    }
    Ok(())
}

/// RelativeDistinguishedName: one or more attributes.
#[tactic(auto, unfolding(crate::specs::Walks::relative_name_fault))]
fn relative_name_fault(field: Field, left: usize, object: &BerObject<'_>) -> Result<(), Blame>
    ensures { result ≡ relative_name_fault field left (view object.now) }
{
    let all = set(within(field, Part::RelativeName), left, object)?;
    first(
        within(field, Part::RelativeName),
        Expected::OneAttribute,
        all,
    )?;
    attributes_fault(field, all)
}

/// The relative names of a name.
fn relative_names_fault(field: Field, at: At<'_, '_>) -> Result<(), Blame>
    ensures { result ≡ each_in (relative_name_fault field) at.entry.left (views at.entry.parts.now) }
{
    let mut left = at.left;
    for object in at.parts {
        relative_name_fault(field, left, object)?;
        left = left_after(object, left);
    }
    Ok(())
}

/// Name.
#[tactic(auto, unfolding(crate::specs::Walks::name_fault))]
fn name_fault(field: Field, left: usize, object: &BerObject<'_>) -> Result<(), Blame>
    ensures { result ≡ name_fault field left (view object.now) }
{
    let all = sequence(whole(field), left, object)?;
    relative_names_fault(field, all)
}

/// Past a Name.
pub(crate) fn next_name<'b, 'a>(field: Field, at: At<'b, 'a>) -> Result<At<'b, 'a>, Blame>
    ensures { Gives at_view result (next_or (name_fault field) (whole field) Expected.Sequence (at_view at.entry)) }
{
    let (object, rest) = first(whole(field), Expected::Sequence, at)?;
    name_fault(field, at.left, object)?;
    Ok(rest)
}
