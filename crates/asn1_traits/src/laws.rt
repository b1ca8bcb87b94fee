//! Laws of types that are both read and written, and the round trips that follow.

ghost use Rattle.std.specs.Prelude.{◌≡◌, ℕ, List, ◌++◌, Some};
ghost use Rattle.asn1_traits.specs.Writes.{written, primitive, IsLong, IsOneElement, HasTag};
ghost use Rattle.asn1_traits.specs.LeafLaws.{leaf_one, leaf_back, leaf_meant};
ghost use Rattle.std.proofs.Common.{ap, refl};

use crate::leaf::DerLeaf;
use crate::read::{DerMeaning, Tagged};
use crate::write::ToDer;

/// An element type with laws: a value in DER form is written as one element, which is read back
/// before any rest.
///
/// The laws are for encodings whose length fits `usize`.
pub trait DerElement: DerMeaning + ToDer {
    /// A value in DER form is one element.
    ghost one_element: { (v : Self) → Self.is_der v → IsOneElement (Self.element v) };

    /// What is written is read back, and the rest is left.
    ghost reads_back: { (v : Self) (rest : List ℕ) → Self.is_der v → (IsLong (written (Self.element v)) → ⊥)
        → (w : Self) × Self.der_reads (written (Self.element v) ++ rest) w rest };

    /// A value that is read back has an equal element.
    ghost same_back: { (v w : Self) (rest r : List ℕ) → Self.is_der v → (IsLong (written (Self.element v)) → ⊥)
        → Self.der_reads (written (Self.element v) ++ rest) w r → Self.element w ≡ Self.element v };
}

/// An element type with laws, whose elements have the type's tag number.
pub trait TaggedElement: DerElement + Tagged {
    /// A value in DER form is written with the tag number.
    ghost has_tag: { (v : Self) → Self.is_der v → HasTag Self.tag_number (Self.element v) };
}

impl<T: DerLeaf> DerElement for T {
    ghost one_element = { λ v _. leaf_one T.tag_number (T.content v) T.low };

    ghost reads_back = { λ v rest form short. leaf_back T.tag_number T.content_means T.content_allowed (T.content v) v rest T.low short (T.fits v form) };

    ghost same_back = { λ v w rest r form short read. ap (λ (c : List ℕ). Some (primitive T.tag_number c)) (T.same v w form (leaf_meant T.tag_number T.content_means T.content_allowed (T.content v) w rest r T.low short read)) };
}

impl<T: DerLeaf> TaggedElement for T {
    ghost has_tag = { λ _ _. refl };
}
