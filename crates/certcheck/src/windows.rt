//! Elements read at the front of windows: of the content octets of an element that is DER. No tree is
//! built: a header is read when its element is wanted.

ghost use Rattle.std.specs.Prelude.{◌≡◌, ℕ, ◌<◌, List, ◌++◌, length, option_map, IfSome};
ghost use Rattle.asn1_core.specs.Elements.{element_octets};
ghost use Rattle.asn1_core.specs.Views.{head_of};
ghost use Rattle.der_tree.specs.Access.{first_at, end_at};
ghost use Rattle.der_tree.specs.View.{element_under};
ghost use Rattle.cert_model.specs.View.{any_view};
ghost use Rattle.certcheck.specs.Windows.{trees_in, tree_of};

use asn1_core::{Header, Length};
use cert_model::fields::AnyField;

fn size_of(header: &Header) -> usize
    ensures { result ≡ (head_of header.now).size }
{
    match header.length() {
        Length::Definite(size) => size,
        Length::Indefinite => 0,
    }
}

/// The element of a header and its content.
fn element_with<'a>(header: Header, content: &'a [u8]) -> AnyField<'a>
    ensures { any_view result ≡ element_under header content.entry.now }
{
    AnyField {
        class: header.class(),
        constructed: header.constructed(),
        tag: header.tag(),
        content,
    }
}

/// The first element of a window, and the octets after it; none if no element in its strict spelling
/// begins the window (X.690, 10.1). Its content isn't looked into.
#[inline]
pub(crate) fn first_of<'a>(window: &'a [u8]) -> Option<(AnyField<'a>, &'a [u8])>
    ensures trees { option_map (λ p. (tree_of (any_view p.0), trees_in p.1.now)) result ≡ first_at (trees_in window.now) }
    ensures octets { IfSome result (λ p. window.now ≡ element_octets (any_view p.0) ++ p.1.now) }
    ensures shorter { IfSome result (λ p. length p.1.now < length window.now) }
{
    if window.is_empty() {
        return None;
    }
    let Ok((after, header)) = Header::strict(window) else {
        return None;
    };
    let size = size_of(&header);
    if after.len() < size {
        return None;
    }
    let (content, rest) = after.split_at(size);
    Some((element_with(header, content), rest))
}

/// That no element is left.
#[tactic(auto, using(crate::proofs::WindowTrees::end_none, crate::proofs::WindowTrees::end_some))]
pub(crate) fn end_of(window: &[u8]) -> Option<()>
    ensures { result ≡ end_at (trees_in window.now) }
{
    match first_of(window) {
        None => Some(()),
        Some(_) => None,
    }
}

/// The octets of a window before its rest, header included.
pub(crate) fn front_of<'a>(window: &'a [u8], rest: &[u8]) -> &'a [u8]
    ensures { (front : List ℕ) → window.now ≡ front ++ rest.now → result.now ≡ front }
{
    &window[..window.len().saturating_sub(rest.len())]
}
