//! The extensions in an element of a context-specific tag (RFC 5280, 4.1.2.9 and 5.1.2.7).

ghost use Rattle.std.specs.Prelude.{◌≡◌, ◌≤◌, ℕ, List, length, Ok, Err, IsTrue, option_map};
ghost use Rattle.der_tree.specs.View.{view, views};
ghost use Rattle.cert_model.specs.Fields.{Extension};
ghost use Rattle.cert_model.specs.Range.{IfThere};
ghost use Rattle.cert_model.specs.Assembly.{AreExtensionsOf, AreExtensionsIn};
ghost use Rattle.cert_model.specs.PieceOctets.{HasSmallContent};
ghost use Rattle.cert_model.specs.View.{any_view};
ghost use Rattle.cert_faults.specs.Steps.{at_view, inside, whole};
ghost use Rattle.cert_faults.specs.Walks.{extensions_fault};
ghost use Rattle.cert_faults.specs.Elements.{IsObjectFault};
ghost use Rattle.cert_faults.specs.Items.{tagged, IsTaggedFault, HasTagged};
ghost use Rattle.cert_faults.specs.Fault.{Walks};

use crate::elements::first_broken;
use crate::extensions::extensions_fault;
use crate::parts::{element_of, is_tagged};
use crate::places::{Expected, Field};
use crate::steps::{At, Stop, inside, left_after, unlike, whole};
use asn1_core::Err as Refusal;
use cert_model::fields::AnyField;
use der_tree::{MAX_RECURSION, first_of, parse_der_recursive};
use std::alloc::Global;

/// The element of a context-specific tag at the front, if there is one, the octets left after its
/// header, and the parts that follow.
pub(crate) fn tagged<'b, 'a>(tag: u32, at: At<'b, 'a>) -> (Option<AnyField<'a>>, usize, At<'b, 'a>)
    ensures { tagged tag (at_view at.entry) ≡ (option_map any_view result.0, result.1, at_view result.2) }
{
    match first_of(at.parts) {
        Some((object, rest)) => {
            let element = element_of(object);
            if is_tagged(tag, element) {
                let rest = At {
                    parts: rest,
                    left: left_after(object, at.left),
                };
                (Some(element), inside(object, at.left), rest)
            } else {
                (None, at.left, at)
            }
        }
        None => (None, at.left, at),
    }
}

/// The extensions that octets are.
fn content_fault(alloc: Global, field: Field, content: &[u8], left: usize) -> Result<(), Stop>
    ensures { Walks result (λ u. (es : List Extension) × AreExtensionsOf content.now es)
        (λ b. IsObjectFault (λ t c. extensions_fault field left t ≡ Err c) (whole field) content.now left b
        × (length content.now ≤ 4_294_967_295 → (es : List Extension) → AreExtensionsOf content.now es → ⊥)) }
{
    match parse_der_recursive(alloc, content, MAX_RECURSION) {
        Ok((rest, object)) => {
            if rest.is_empty() {
                match extensions_fault(field, left, &object) {
                    Ok(()) => Ok(()),
                    Err(blame) => Err(Stop::Fault(blame)),
                }
            } else {
                let left = left_after(&object, left);
                Err(Stop::Fault(unlike(whole(field), Expected::NothingMore, left)))
            }
        }
        Err(e) => match e {
            Refusal::Failure(_) => Err(Stop::OutOfMemory),
            _ => Err(Stop::Fault(first_broken(whole(field), content, left, MAX_RECURSION))),
        },
    }
}

/// Past the extensions in an element of this tag, or past none.
pub(crate) fn next_tagged<'b, 'a>(
    alloc: Global,
    field: Field,
    tag: u32,
    is_later: bool,
    at: At<'b, 'a>,
) -> Result<At<'b, 'a>, Stop>
    ensures { Walks result (λ rest. HasTagged tag is_later (at_view at.entry) × ((tagged tag (at_view at.entry)).2 ≡ at_view rest))
        (λ b. IsTaggedFault field tag is_later (at_view at.entry) b
        × (IfThere HasSmallContent (tagged tag (at_view at.entry)).0 → HasTagged tag is_later (at_view at.entry) → ⊥)) }
{
    let (element, left, rest) = tagged(tag, at);
    let Some(element) = element else {
        return Ok(rest);
    };
    if !is_later {
        return Err(Stop::Fault(unlike(whole(field), Expected::LaterVersion, at.left)));
    }
    if !element.constructed {
        return Err(Stop::Fault(unlike(whole(field), Expected::Constructed, at.left)));
    }
    content_fault(alloc, field, element.content, left)?;
    Ok(rest)
}
