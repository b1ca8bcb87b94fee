//! Extensions (RFC 5280, 4.2): identifiers, marks and values; no value is looked into.

ghost use Rattle.std.specs.Prelude.{◌≡◌, ◌≤◌, ℕ, List, length, option_map, map};
ghost use Rattle.cert_model.specs.Fields.{Extension};
ghost use Rattle.cert_model.specs.Range.{IfThere};
ghost use Rattle.cert_model.specs.View.{any_view, ext_view};
ghost use Rattle.cert_model.specs.PieceOctets.{HasSmallContent};
ghost use Rattle.cert_model.specs.Assembly.{AreExtensionsOf, AreExtensionsIn};
ghost use Rattle.cert_model.specs.Reads.{critical_at, extension_at, list_at, extensions_at};
ghost use Rattle.certcheck.specs.Stopping.{Finds, Settles};
ghost use Rattle.certcheck.specs.Windows.{trees_in, tree_of};

use crate::parts::{boolean_of, identifier_of, octet_string_of, sequence_of};
use crate::stop::Stop;
use crate::windows::{end_of, first_of};
use cert_model::fields::{AnyField, ExtField};
use der_tree::{MAX_RECURSION, is_der_object};
use std::alloc::Global;

/// Whether an extension is critical, and the rest: true is written, false never is (X.690, 11.5).
#[tactic(auto, unfolding(cert_model::specs::Reads::critical_at))]
fn critical_of<'a>(parts: &'a [u8]) -> Option<(bool, &'a [u8])>
    ensures { option_map (λ p. (p.0, trees_in p.1.now)) result ≡ critical_at (trees_in parts.now) }
{
    match first_of(parts) {
        None => Some((false, parts)),
        Some((first, rest)) => match boolean_of(&first) {
            Some(critical) => { if critical { Some((true, rest)) } else { None } }
            None => Some((false, parts)),
        },
    }
}

/// Extension.
#[tactic(auto, unfolding(cert_model::specs::Reads::extension_at))]
fn extension_of<'a>(object: &AnyField<'a>) -> Option<ExtField<'a>>
    ensures { option_map ext_view result ≡ extension_at (tree_of (any_view object.now)) }
{
    let (first, rest) = first_of(sequence_of(object)?)?;
    let identifier = identifier_of(&first)?;
    let (critical, rest) = critical_of(rest)?;
    let (last, rest) = first_of(rest)?;
    let value = octet_string_of(&last)?;
    end_of(rest)?;
    Some(ExtField {
        identifier,
        critical,
        value,
    })
}

/// The extensions that all of the parts are.
fn each_extension<'a>(alloc: Global, parts: &'a [u8]) -> Result<Vec<ExtField<'a>>, Stop>
    ensures { Finds (λ v. map ext_view v.items) result (list_at extension_at (trees_in parts.now)) }
{
    let mut extensions = Vec::new(alloc);
    let mut rest = parts;
    while let Some((part, after)) = first_of(rest) {
        let extension = extension_of(&part).ok_or(Stop::Other)?;
        extensions.push(extension)?;
        rest = after;
    }
    Ok(extensions)
}

/// Extensions: one or more.
#[tactic(auto, unfolding(cert_model::specs::Reads::extensions_at))]
pub(crate) fn extensions_of<'a>(
    alloc: Global,
    object: &AnyField<'a>,
) -> Result<Vec<ExtField<'a>>, Stop>
    ensures { Finds (λ v. map ext_view v.items) result (extensions_at (tree_of (any_view object.now))) }
{
    let parts = sequence_of(object).ok_or(Stop::Other)?;
    let extensions = each_extension(alloc, parts)?;
    if extensions.is_empty() {
        return Err(Stop::Other);
    }
    Ok(extensions)
}

/// The extensions that the content of a tagged element spells.
fn extensions_within<'a>(alloc: Global, content: &'a [u8]) -> Result<Vec<ExtField<'a>>, Stop>
    requires { length content.now ≤ 4_294_967_295 }
    ensures { Settles result (λ v. AreExtensionsOf content.now (map ext_view v.items))
        ((es : List Extension) → AreExtensionsOf content.now es → ⊥) }
{
    if !is_der_object(content, MAX_RECURSION) {
        return Err(Stop::Other);
    }
    match first_of(content) {
        Some((object, _)) => extensions_of(alloc, &object),
        None => Err(Stop::Other),
    }
}

/// The extensions in a tagged element, no extensions where there is no element.
pub(crate) fn extensions_in<'a>(
    alloc: Global,
    element: Option<AnyField<'a>>,
) -> Result<Vec<ExtField<'a>>, Stop>
    requires { IfThere HasSmallContent (option_map any_view element) }
    ensures { Settles result (λ v. AreExtensionsIn (option_map any_view element.entry) (map ext_view v.items))
        ((es : List Extension) → AreExtensionsIn (option_map any_view element.entry) es → ⊥) }
{
    match element {
        None => Ok(Vec::new(alloc)),
        Some(element) => {
            if element.constructed {
                extensions_within(alloc, element.content)
            } else {
                Err(Stop::Other)
            }
        }
    }
}
