//! The traits by which values are read.
//!
//! What a value means is in traits that have neither a lifetime nor an error type; the readers
//! refer to it. `FromAny` and `FromDerAny` read whole elements, `FromBer` and `FromDer` read from
//! the front of an input; a type that has one of the former and a tag has the latter too.

ghost use Rattle.std.specs.Prelude.{◌≡◌, ℕ, List};
ghost use Rattle.asn1_core.specs.Elements.{Element};
ghost use Rattle.asn1_core.specs.Views.{class_number};
ghost use Rattle.asn1_core.specs.declared.error.Needed.{Needed};
ghost use Rattle.asn1_any.specs.BerElements.{BerElement};
ghost use Rattle.asn1_any.specs.Views.{any_of, ber_any_of};
ghost use Rattle.asn1_traits.specs.Reads.{ReadsOf, Reads, Checks, AndAllowed};
ghost use Rattle.asn1_traits.specs.Elements.{ReadsElement, ReadsBerElement, EndsWithinElement, EndsWithinBerElement, one_element_rest, one_ber_element_rest};

use asn1_any::Any;
use asn1_core::{Class, Err, Error, IResult, Tag};
use std::alloc::Global;

/// A type whose elements have one class and one tag number.
pub trait Tagged {
    /// The tag number.
    const TAG: Tag;

    /// The number of the class; universal, 0, unless a type says otherwise.
    ghost own_class_number: { ℕ } = { 0 };

    /// The number in `TAG`.
    ghost tag_number: { ℕ };

    /// Returns the class.
    fn own_class() -> Class
        ensures { class_number result ≡ own_class_number };

    /// Returns `TAG`, with a contract.
    fn own_tag() -> Tag
        ensures { result.0 ≡ tag_number };
}

/// Which elements mean a value, by the wider rules (BER).
pub trait AnyMeaning {
    /// The element means the value. Its length is that of its header.
    ghost means: { BerElement → Self → Type 0 };

    /// Reading one may allocate.
    ghost reading_grows: { Type 0 } = { ⊥ };
}

/// A type whose values are read from whole elements, by the wider rules (BER).
pub trait FromAny<'a, E: From<Error>>: AnyMeaning + Sized {
    /// Returns the value of the element, or an error if it has none: never `Incomplete`, since an
    /// element is whole.
    fn try_from_any(alloc: Global, any: Any<'a>) -> Result<Self, Err<E>>
        ensures { ReadsOf E.from_gives Self.reading_grows Self.means (ber_any_of any.entry) result };
}

/// Which elements mean a value, by the rules of DER.
pub trait DerAnyMeaning {
    /// The element means the value. Its length is that of its header.
    ghost der_means: { BerElement → Self → Type 0 };

    /// Reading one may allocate.
    ghost der_reading_grows: { Type 0 } = { ⊥ };
}

/// A type whose values are read from whole elements, by the rules of DER.
pub trait FromDerAny<'a, E: From<Error>>: DerAnyMeaning + Sized {
    /// Returns the value of the element, or an error if it has none: never `Incomplete`, since an
    /// element is whole.
    fn try_from_der_any(alloc: Global, any: Any<'a>) -> Result<Self, Err<E>>
        ensures { ReadsOf E.from_gives Self.der_reading_grows Self.der_means (ber_any_of any.entry) result };
}

/// What the rules of DER require of an element beyond those of BER (X.690, 10 and 11).
pub trait CheckDerConstraints {
    /// DER allows the element.
    ghost der_allows: { Element → Type 0 };

    /// Returns `Ok(())` if DER allows the element; else the constraint that it breaks.
    fn check_constraints(any: &Any<'_>) -> Result<(), Error>
        ensures { Checks der_allows (any_of any.now) result };
}

/// A type that is read by DER's rules as by BER's, after its DER constraints are checked.
pub trait DerAutoDerive {}

/// From which octets a value is read, by the rules of DER.
pub trait DerMeaning {
    /// The octets begin with the value, and these come after it.
    ghost der_reads: { List ℕ → Self → List ℕ → Type 0 };

    /// The octets end within what is read, and at least this number is missing.
    ghost der_cut: { List ℕ → Needed → Type 0 };

    /// Reading one may allocate.
    ghost der_grows: { Type 0 } = { ⊥ };

    /// Values that are read from equal octets leave equal rests.
    ghost one_rest: { (octets : List ℕ) (v w : Self) (r s : List ℕ) → der_reads octets v r → der_reads octets w s → r ≡ s };
}

/// A type whose values are read from octets, by the rules of DER.
pub trait FromDer<'a, E: From<Error>>: DerMeaning + Sized {
    /// Reads one value from the front of `bytes`. Returns `(rest, value)`.
    ///
    /// # Errors
    ///
    /// `Incomplete` exactly if `bytes` ends within what is read; out of memory is `Failure`; else
    /// `Err::Error` with the rule that is broken.
    fn from_der(alloc: Global, bytes: &'a [u8]) -> IResult<&'a [u8], Self, E>
        ensures { Reads E.from_gives Self.der_grows Self.der_cut (λ i. i.now) Self.der_reads bytes.now result };
}

/// From which octets a value is read, by the rules of BER.
pub trait BerMeaning {
    /// The octets begin with the value, and these come after it.
    ghost ber_reads: { List ℕ → Self → List ℕ → Type 0 };

    /// The octets end within what is read, and at least this number is missing.
    ghost ber_cut: { List ℕ → Needed → Type 0 };

    /// Reading one may allocate.
    ghost ber_grows: { Type 0 } = { ⊥ };

    /// Values that are read from equal octets leave equal rests.
    ghost one_ber_rest: { (octets : List ℕ) (v w : Self) (r s : List ℕ) → ber_reads octets v r → ber_reads octets w s → r ≡ s };
}

/// A type whose values are read from octets, by the rules of BER.
pub trait FromBer<'a, E: From<Error>>: BerMeaning + Sized {
    /// Reads one value from the front of `bytes`. Returns `(rest, value)`.
    ///
    /// # Errors
    ///
    /// `Incomplete` exactly if `bytes` ends within what is read; out of memory is `Failure`; else
    /// `Err::Error` with the rule that is broken.
    fn from_ber(alloc: Global, bytes: &'a [u8]) -> IResult<&'a [u8], Self, E>
        ensures { Reads E.from_gives Self.ber_grows Self.ber_cut (λ i. i.now) Self.ber_reads bytes.now result };
}

impl<T: AnyMeaning + CheckDerConstraints + DerAutoDerive> DerAnyMeaning for T {
    ghost der_means = { AndAllowed T.means T.der_allows };

    ghost der_reading_grows = { T.reading_grows };
}

impl<
    'a,
    E: From<Error>,
    T: FromAny<'a, E> + AnyMeaning + CheckDerConstraints + DerAutoDerive,
> FromDerAny<'a, E> for T {
    fn try_from_der_any(alloc: Global, any: Any<'a>) -> Result<Self, Err<E>> {
        match T::check_constraints(&any) {
            Ok(()) => T::try_from_any(alloc, any),
            Err(e) => Err(Err::from(e)),
        }
    }
}

impl<T: DerAnyMeaning> DerMeaning for T {
    ghost der_reads = { ReadsElement T.der_means };

    ghost der_cut = { EndsWithinElement };

    ghost der_grows = { T.der_reading_grows };

    ghost one_rest = { one_element_rest T.der_means };
}

impl<'a, E: From<Error>, T: FromDerAny<'a, E> + DerAnyMeaning> FromDer<'a, E> for T {
    fn from_der(alloc: Global, bytes: &'a [u8]) -> IResult<&'a [u8], Self, E> {
        match Any::from_der(bytes) {
            Ok((rest, any)) => match T::try_from_der_any(alloc, any) {
                Ok(value) => Ok((rest, value)),
                Err(e) => Err(e),
            },
            Err(refusal) => Err(Err::convert(refusal)),
        }
    }
}

impl<T: AnyMeaning> BerMeaning for T {
    ghost ber_reads = { ReadsBerElement T.means };

    ghost ber_cut = { EndsWithinBerElement };

    ghost ber_grows = { T.reading_grows };

    ghost one_ber_rest = { one_ber_element_rest T.means };
}

impl<'a, E: From<Error>, T: FromAny<'a, E> + AnyMeaning> FromBer<'a, E> for T {
    fn from_ber(alloc: Global, bytes: &'a [u8]) -> IResult<&'a [u8], Self, E> {
        match Any::from_ber(bytes) {
            Ok((rest, any)) => match T::try_from_any(alloc, any) {
                Ok(value) => Ok((rest, value)),
                Err(e) => Err(e),
            },
            Err(refusal) => Err(Err::convert(refusal)),
        }
    }
}
