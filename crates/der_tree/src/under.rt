//! What an element holds by its tag number alone, and objects made of their parts.

ghost use Rattle.std.specs.Prelude.{◌≡◌, ◌≢◌, ◌∷◌, IfOk, IfErr};
ghost use Rattle.asn1_core.specs.Views.{head_of, length_of};
ghost use Rattle.der_tree.specs.Lengths.{HoldsDefinite, HoldsOne, lengths_told, lengths_within};
ghost use Rattle.der_tree.specs.Outcome.{Refuses, IsNotCut, leaf_error};
ghost use Rattle.der_tree.specs.Shape.{HoldsLeaf, IsContent};
ghost use Rattle.der_tree.specs.Tree.{Content, node};
ghost use Rattle.der_tree.specs.View.{as_universal, element_under, view, content_view};

use crate::leaf::leaf_of;
use crate::object::{BerObject, BerObjectContent};
use crate::read::content_of;
use asn1_core::{Class, Err as Refusal, Error, Header, HeaderCount};
use std::alloc::Global;

/// What the content holds by the table's line of the header's tag number, whatever the header's class: a SEQUENCE's and a
/// SET's parts are objects of at most so many levels. The length in the header isn't looked at; a
/// raw element keeps it.
///
/// Refusals: `Failure` of `OutOfMemory` if memory ran out, and else an error: the line doesn't
/// allow the content or the constructed bit.
pub fn content_under<'a>(
    alloc: Global,
    header: Header,
    content: &'a [u8],
    levels: usize,
) -> Result<BerObjectContent<'a>, Refusal<Error>>
    ensures found { IfOk result (λ c. IsContent levels (as_universal (element_under header content.now)) (content_view c)) }
    ensures none { IfErr result (λ e. Refuses e ((c : Content)
        → IsContent levels (as_universal (element_under header content.now)) c → ⊥)) }
    ensures whole { IfErr result IsNotCut }
    ensures lengths { IfOk result (λ c. HoldsDefinite (length_of header) c (content_view c)) }
{
    let mut count = HeaderCount::new();
    content_of(
        alloc,
        header.with_class(Class::Universal),
        content,
        levels,
        &mut count,
    )
}

/// The content under a tag number whose elements have no parts. It allocates nothing.
///
/// Errors: `ConstructUnexpected` of a constructed element of a type that is primitive; `InvalidLength` of a BOOLEAN or a NULL;
/// `BerValueError` of a number, of bits or an identifier; `StringInvalidCharset` of a text; `InvalidDateTime` of a time;
/// `InvalidTag` of a SEQUENCE or a SET.
pub fn leaf_under<'a>(header: Header, content: &'a [u8]) -> Result<BerObjectContent<'a>, Error>
    ensures found { IfOk result (λ c. HoldsLeaf (as_universal (element_under header content.now)) (content_view c)) }
    ensures none { IfErr result (λ e. (e ≢ Error.OutOfMemory)
        × ((c : Content) → HoldsLeaf (as_universal (element_under header content.now)) c → ⊥)) }
    ensures refused { IfErr result (λ e. e ≡ leaf_error (element_under header content.now)) }
    ensures lengths { IfOk result (λ c. HoldsOne (length_of header) c (content_view c)) }
{
    leaf_of(header.with_class(Class::Universal), content)
}

/// An object of this header and content, read from these octets.
pub fn object_with<'a>(
    header: Header,
    content: BerObjectContent<'a>,
    raw: &'a [u8],
) -> BerObject<'a>
    ensures tree { view result ≡ node (head_of header) raw.entry.now (content_view content.entry) }
    ensures lengths { lengths_told result ≡ length_of header ∷ lengths_within content.entry }
{
    BerObject::new(header, content, raw)
}
