//! Round trips: what was written is read back, before any rest.

ghost use Rattle.std.specs.Prelude.{◌≡◌, ◌++◌, ℕ, List, Option};
ghost use Rattle.asn1_traits.specs.Options.{BeginsWithTag, IsAbsent, option_element, WhereSome};
ghost use Rattle.asn1_traits.specs.Rounds.{BackOr, SameOption, RestFits};
ghost use Rattle.asn1_traits.specs.Writes.{written, IsLong};

use crate::laws::{DerElement, TaggedElement};
use crate::read::FromDer;
use asn1_core::{Error, IResult};
use std::alloc::Global;

/// Reads one value from the front of `bytes` by DER's rules, as `from_der` does, for an element
/// type with laws. Returns `(rest, value)`.
///
/// If `bytes` begin with what `write_der` writes of a value in DER form, the value that is read has
/// an equal element, and the rest is left: the only error is then out of memory.
pub fn read_back<'a, E: From<Error>, T: FromDer<'a, E> + DerElement>(
    alloc: Global,
    bytes: &'a [u8],
) -> IResult<&'a [u8], T, E>
    ensures { (v : T) (rest : List ℕ) → T.is_der v → (IsLong (written (T.element v)) → ⊥) → bytes.now ≡ written (T.element v) ++ rest
        → BackOr E.from_gives (λ i. i.now) (λ w s. (T.element w ≡ T.element v) × (s ≡ rest)) result }
{
    T::from_der(alloc, bytes)
}

/// Reads one value that may be absent from the front of `bytes` by DER's rules. Returns `(rest,
/// value)`.
///
/// If `bytes` begin with what is written of a present value in DER form, it is read back and the
/// rest is left. An absent one writes nothing, and is read back if no octet is left or the header
/// at the front has another tag number. The only error is then out of memory.
pub fn read_back_optional<'a, E: From<Error>, T: FromDer<'a, E> + TaggedElement>(
    alloc: Global,
    bytes: &'a [u8],
) -> IResult<&'a [u8], Option<T>, E>
    ensures { (v : Option T) (rest : List ℕ) → WhereSome T.is_der v → (IsLong (written (option_element T.element v)) → ⊥)
        → RestFits (IsAbsent BeginsWithTag T.tag_number) v rest → bytes.now ≡ written (option_element T.element v) ++ rest
        → BackOr E.from_gives (λ i. i.now) (λ w s. SameOption T.element v w × (s ≡ rest)) result }
{
    Option::from_der(alloc, bytes)
}
