//! Tagged values have the laws that the values have: what is written of them is read back.

ghost use Rattle.std.proofs.Common.{refl};
ghost use Rattle.asn1_tagged.specs.ExplicitLaws.{explicit_one, explicit_tag, explicit_back, explicit_same};
ghost use Rattle.asn1_tagged.specs.ImplicitLaws.{implicit_one, implicit_tag, implicit_back, implicit_same};

use crate::value::{Explicit, Implicit, TaggedValue};
use asn1_traits::{DerAnyMeaning, DerElement, Tagged, TaggedElement};

impl<T: DerElement, E, const CLASS: u8, const TAG: u32> DerElement
    for TaggedValue<T, E, Explicit, CLASS, TAG> {
    ghost one_element = { λ v form. explicit_one CLASS TAG (T.is_der v.inner) (T.element v.inner) form };

    ghost reads_back = { explicit_back CLASS TAG T.is_der T.element T.der_reads (λ v. v.inner) (λ v w. record v { inner = w }) (λ v w. refl) T.reads_back };

    ghost same_back = { explicit_same CLASS TAG T.is_der T.element T.der_reads (λ v. v.inner) T.same_back };
}

impl<T: DerElement, E, const CLASS: u8, const TAG: u32> TaggedElement
    for TaggedValue<T, E, Explicit, CLASS, TAG> {
    ghost has_tag = { λ v form. explicit_tag CLASS TAG (T.is_der v.inner) (T.element v.inner) form };
}

impl<T: DerElement + DerAnyMeaning + Tagged, E, const CLASS: u8, const TAG: u32> DerElement
    for TaggedValue<T, E, Implicit, CLASS, TAG> {
    ghost one_element = { λ v form. implicit_one CLASS TAG T.own_class_number T.tag_number (T.is_der v.inner) (T.element v.inner) form };

    ghost reads_back = { implicit_back CLASS TAG T.own_class_number T.tag_number T.is_der T.element T.der_means (λ v. v.inner) (λ v w. record v { inner = w }) (λ v w. refl) T.one_element T.reads_back };

    ghost same_back = { implicit_same CLASS TAG T.own_class_number T.tag_number T.is_der T.element T.der_means (λ v. v.inner) T.one_element T.same_back };
}

impl<T: DerElement + DerAnyMeaning + Tagged, E, const CLASS: u8, const TAG: u32> TaggedElement
    for TaggedValue<T, E, Implicit, CLASS, TAG> {
    ghost has_tag = { λ v form. implicit_tag CLASS TAG T.own_class_number T.tag_number (T.is_der v.inner) (T.element v.inner) form };
}
